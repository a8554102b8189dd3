// How a call ends: its text goes to the sink, and its status says what was done.
ghost use Rattle.std.specs.Prelude.{◌^◌, ◌≤◌, length};
ghost use Rattle.demo_script.specs.Line.{line_text};
ghost use Rattle.demo_script.specs.Sum.{pixel_sum};
ghost use Rattle.run_report.specs.Printed.{Prints};
ghost use Rattle.run_report.specs.Words.{line};
ghost use Rattle.thread_calls.specs.Ending.{AreFilled, AreFilledBy, EndsBy, EndsLine, HasFewShots};

use cell_store::Sink;
use demo_script::demo_line;
use run_report::{PrintErr, Shot, Stop, print_bytes};
use std::alloc::Global;
use viewrun_calls::{Done, end_call};

/// Writes the text of what was done, and gives the status. Where the demonstration of a number was done whole, the text is its line.
pub(crate) fn end<K: Sink>(
    alloc: Global,
    out: &mut K,
    number: Option<u64>,
    work: &Result<Done, Stop>,
) -> u8
    requires few_shots { HasFewShots work.now }
    ensures ends { EndsBy number work.now (K.stream out.old) (K.stream out.new) result }
    ensures filled { AreFilledBy number work.now }
{
    match (number, work) {
        (Some(number), Ok(Done::Ran { report, unwritten })) => {
            if report.status(unwritten.as_slice()) == 0 {
                end_line(alloc, out, number, report.shots.as_slice())
            } else {
                end_call(alloc, out, work)
            }
        }
        (None, _) | (Some(_), Ok(Done::Levels(_)) | Err(_)) => end_call(alloc, out, work),
    }
}

/// Writes the line of the demonstration of a number, and gives the status.
fn end_line<K: Sink>(alloc: Global, out: &mut K, number: u64, shots: &[Shot]) -> u8
    requires { length shots.now ≤ 2 ^ 20 }
    ensures ends { EndsLine number shots.now (K.stream out.old) (K.stream out.new) result }
    ensures filled { AreFilled shots.now }
{
    match print_line(alloc, out, number, shots) {
        Ok(()) => 0,
        Err(err) => err.status(),
    }
}

fn print_line<K: Sink>(
    alloc: Global,
    out: &mut K,
    number: u64,
    shots: &[Shot],
) -> Result<(), PrintErr>
    requires { length shots.now ≤ 2 ^ 20 }
    ensures prints { Prints (K.stream out.old) (K.stream out.new) (line (line_text number (pixel_sum shots.now))) result }
    ensures filled { AreFilled shots.now }
{
    match demo_line(alloc, number, shots) {
        Ok(text) => print_bytes(out, text.as_bytes()),
        Err(_) => Err(PrintErr::Memory),
    }
}
