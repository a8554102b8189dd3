// The line that the demonstration prints.
ghost use Rattle.std.specs.Prelude.{◌≡◌, ◌^◌, ◌≤◌, All, IfOk, Some, length, string_bytes};
ghost use Rattle.demo_script.specs.Line.{line_text};
ghost use Rattle.demo_script.specs.Sum.{pixel_sum};
ghost use Rattle.run_report.specs.Words.{line};
ghost use Rattle.run_report.specs.declared.shot.Shot.{Shot};
ghost use Rattle.scale_pick.specs.Picture.{IsFilled};

use crate::sum::pixel_sum;
use run_report::Shot;
use std::alloc::{AllocError, Global};
use std::fmt::{self, Write};

/// The line of a number, with the sum of its pictures, to be written.
#[derive(Clone, Copy)]
struct Line {
    number: u64,
    total: u64,
}

impl fmt::Display for Line {
    ghost output = { λ line. Some (line_text line.number line.total) };

    fn fmt<W: fmt::Write>(&self, f: &mut fmt::Formatter<W>) -> fmt::Result {
        let Line { number, total } = *self;
        write!(
            f,
            "demo {number} cells 1152 edits 1024 complete 4 sum {total}"
        )
    }
}

/// The line of the demonstration of a number that left these pictures, with its end. Each picture has a byte for each pixel.
pub fn demo_line(alloc: Global, number: u64, shots: &[Shot]) -> Result<String, AllocError>
    requires { length shots.now ≤ 2 ^ 20 }
    ensures text { IfOk result (λ text. string_bytes text ≡ line (line_text number (pixel_sum shots.now))) }
    ensures filled { All (λ (s : Shot). IsFilled s.picture) shots.now }
{
    let mut text = String::new(alloc);
    let line = Line {
        number,
        total: pixel_sum(shots),
    };
    writeln!(text, "{line}")?;
    Ok(text)
}
