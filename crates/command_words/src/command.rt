// The commands as clap is told of them, and what it finds in words.
ghost use Rattle.std.specs.Prelude.{◌≡◌, IfOk, codes, map, option_map, true, string_bytes};
ghost use Rattle.clap.specs.Words.{app_of, is_simple_and_free, found_of, rows_of, with_rule};
ghost use Rattle.command_words.specs.Command.{bare, option, taken, with_both, with_slots};

use clap::error::ErrorKind;
use clap::{Arg, ArgMatches, Command};
use std::alloc::{AllocError, Global};

/// A command that is about one word.
pub(crate) fn bare_command<'w>(alloc: Global) -> Result<Command<'w>, AllocError>
    ensures { IfOk result (λ command. app_of command ≡ bare) }
{
    let operand = Arg::new(alloc, "operand").required(true);
    let command = Command::new(alloc, "viewrun").disable_help_flag(true);
    command.arg(operand)
}

/// A command with `--slots`.
pub(crate) fn slots_command<'w>(alloc: Global) -> Result<Command<'w>, AllocError>
    ensures { IfOk result (λ command. app_of command ≡ with_slots) }
{
    with_option(alloc, bare_command(alloc)?, "slots")
}

/// A command with `--slots` and `--fetchers`.
pub(crate) fn both_command<'w>(alloc: Global) -> Result<Command<'w>, AllocError>
    ensures { IfOk result (λ command. app_of command ≡ with_both) }
{
    with_option(alloc, slots_command(alloc)?, "fetchers")
}

/// The command with an option more, which has a value and has to be there.
fn with_option<'w>(
    alloc: Global,
    command: Command<'w>,
    name: &'w str,
) -> Result<Command<'w>, AllocError>
    ensures { IfOk result (λ longer. app_of longer ≡ with_rule (app_of command.entry) (option name.now)) }
{
    let option = Arg::new(alloc, name).long(name).required(true);
    command.arg(option)
}

/// What clap finds in the words of a command, of which the first is the command's own, or none where it refuses them.
pub(crate) fn matches_in<'w>(
    command: Command<'w>,
    words: &'w [String],
) -> Result<Option<ArgMatches<'w>>, AllocError>
    requires { is_simple_and_free (app_of command) ≡ true }
    ensures { IfOk result (λ found. option_map (λ matches. rows_of (found_of matches)) found ≡ taken (app_of command.entry) (map (λ word. string_bytes word) words.entry.now)) }
{
    match command.try_get_matches_from(words) {
        Ok(matches) => Ok(Some(matches)),
        Err(err) if err.kind() == ErrorKind::OutOfMemory => Err(AllocError),
        Err(_) => Ok(None),
    }
}
