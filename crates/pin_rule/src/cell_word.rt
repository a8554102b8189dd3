// What the word of a cell shows.
ghost use Rattle.std.specs.Prelude.{◌≡◌, ℕ, ◌+◌, ◌^◌, ◌<◌};
ghost use Rattle.arr_history.specs.declared.cell_state.CellState.{CellState};
ghost use Rattle.pin_words.specs.Layout.{face};
ghost use Rattle.pin_rule.specs.Shown.{look_of, ShowsState};

use crate::pin_steps::{MARK, SLOT, STATE};
use arr_history::Seen;

/// A cell's word: the state, the slot and the mark of the cell, and how many pins and visitors count in it. A cell that has
/// no slot shows slot 0, and no mark.
#[derive(Clone, Copy, Debug, PartialEq, Eq)]
pub struct CellWord {
    pub state: Seen,
    pub slot: u32,
    pub marked: bool,
    pub count: u32,
}

impl CellWord {
    /// Reads a word that a call answered with.
    pub fn of(word: u64) -> CellWord
        ensures { (t : CellState) (count : ℕ) → count < 2 ^ 24 → word ≡ face t + count → ShowsState t count result }
    {
        CellWord {
            state: state_in(word),
            slot: (word / SLOT) as u32,
            marked: (word / MARK) % 2 == 1,
            count: (word % MARK) as u32,
        }
    }
}

// The state that a cell's word shows.
fn state_in(word: u64) -> Seen
    ensures { result ≡ look_of word }
{
    match (word / STATE) % 4 {
        0 => Seen::Absent,
        1 => Seen::Loading,
        2 => Seen::Live,
        _ => Seen::Leaving,
    }
}
