// How a call ends: its text goes to the sink, and its status says what was done.
ghost use Rattle.std.specs.Prelude.{◌≡◌, IfOk, string_bytes};
ghost use Rattle.run_report.specs.Printed.{Prints};
ghost use Rattle.viewrun_calls.specs.Ending as ending;
ghost use Rattle.viewrun_calls.specs.Ending.{Ends};

use crate::work::Done;
use cell_store::Sink;
use run_report::{PrintErr, Stop, info_text, print_bytes};
use std::alloc::{AllocError, Global};

/// Writes the text of what was done, and gives the status.
pub fn end_call<K: Sink>(alloc: Global, out: &mut K, work: &Result<Done, Stop>) -> u8
    ensures { Ends work.now (K.stream out.old) (K.stream out.new) result }
{
    match print(alloc, out, work) {
        Ok(()) => status_of(work),
        Err(err) => err.status(),
    }
}

fn print<K: Sink>(alloc: Global, out: &mut K, work: &Result<Done, Stop>) -> Result<(), PrintErr>
    ensures { Prints (K.stream out.old) (K.stream out.new) (ending.text_of work.now) result }
{
    match text_of(alloc, work) {
        Ok(text) => print_bytes(out, text.as_bytes()),
        Err(_) => Err(PrintErr::Memory),
    }
}

fn text_of(alloc: Global, work: &Result<Done, Stop>) -> Result<String, AllocError>
    ensures { IfOk result (λ text. string_bytes text ≡ ending.text_of work.now) }
{
    match work {
        Ok(Done::Levels(geometry)) => info_text(alloc, geometry),
        Ok(Done::Ran { report, unwritten }) => report.text(alloc, unwritten.as_slice()),
        Err(stop) => stop.text(alloc),
    }
}

fn status_of(work: &Result<Done, Stop>) -> u8
    ensures { result ≡ ending.status_of work.now }
{
    match work {
        Ok(Done::Levels(_)) => 0,
        Ok(Done::Ran { report, unwritten }) => report.status(unwritten.as_slice()),
        Err(stop) => stop.status(),
    }
}
