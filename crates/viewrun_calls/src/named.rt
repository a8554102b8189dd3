// The script that the command words name.
ghost use Rattle.std.specs.Prelude.{◌≡◌, IfOk};
ghost use Rattle.std.specs.Option.{option_copied};
ghost use Rattle.command_words.specs.Request.{request_in, texts};
ghost use Rattle.viewrun_calls.specs.Named.{script_named};

use command_words::{Request, request_of};
use std::alloc::{AllocError, Global};

/// The script that the words name, where they ask for the run of one, on one thread or on many.
pub fn script_name(alloc: Global, words: &[String]) -> Result<Option<&str>, AllocError>
    ensures { IfOk result (λ name. option_copied name ≡ script_named (request_in (texts words.now))) }
{
    match request_of(alloc, words)? {
        Some(Request::Solo { script, .. }) => Ok(Some(script.text())),
        Some(Request::Run { script, .. }) => Ok(Some(script.text())),
        _ => Ok(None),
    }
}
