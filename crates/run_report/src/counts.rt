// The lines of what a run counted and of what it could not put.
ghost use Rattle.std.specs.Prelude.{◌≡◌, Some};
ghost use Rattle.run_report.specs.Counts.{put_text, tally_text, unsaved_text};

use crate::said::{One, Three};
use arr_history::{Tally, Unsaved};
use std::fmt;

/// The counts of a run, to be written.
#[derive(Clone, Copy)]
pub struct Counts(pub Tally);

impl fmt::Display for Counts {
    ghost output = { λ counts. Some (tally_text counts.0) };

    fn fmt<W: fmt::Write>(&self, f: &mut fmt::Formatter<W>) -> fmt::Result {
        let tally = self.0;
        let had = Three(
            One("tally hits", tally.hits as u128),
            One("misses", tally.misses as u128),
            One("loads", tally.loads as u128),
        );
        let left = Three(
            One("evictions", tally.evictions as u128),
            One("writebacks", tally.writebacks as u128),
            One("closed", tally.closed as u128),
        );
        write!(f, "{had} {left}")
    }
}

/// A cell that could not be saved, to be written.
#[derive(Clone, Copy)]
pub struct Lost(pub Unsaved);

impl fmt::Display for Lost {
    ghost output = { λ lost. Some (unsaved_text lost.0) };

    fn fmt<W: fmt::Write>(&self, f: &mut fmt::Formatter<W>) -> fmt::Result {
        let Unsaved { cell, memory } = self.0;
        let cause = put_name(memory);
        write!(f, "unsaved {cell} {cause}")
    }
}

/// Why a put was not done.
pub fn put_name(memory: bool) -> &'static str
    ensures { result.now ≡ put_text memory }
{
    if memory { "memory" } else { "write-fault" }
}
