//! Events of a cache of cells: when each is legal, what it does, and how it is counted.
#![tactic(auto)]

mod cell_state;
mod checker;
mod closed;
mod event;
mod laws;
mod tally;
#[cfg(test)]
mod tests;
mod tracked;

pub use cell_state::{CellState, Seen};
pub use checker::{Checker, Memory};
pub use closed::{Closed, Unmade, Unsaved};
pub use event::Event;
pub use laws::{
    claims_come_first, histories_compose, histories_hold_from_the_opening, histories_keep_laws,
    histories_split, tallies_add_up, tallies_grow,
};
pub use tally::Tally;
