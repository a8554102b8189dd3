//! The cells of a cache over shared words, without a lock: counted handles, marks, slots, loads and write-backs.
#![tactic(auto)]

mod cell_calls;
mod cell_steps;
mod cell_word;
mod ends;
mod fill_steps;
mod handles;
mod lane_calls;
mod lane_steps;
mod laws;
mod made;
mod pass;
mod pin_calls;
mod pin_steps;
mod pins;
mod plays;
mod refusals;
mod slot_calls;
mod slot_steps;
mod stores;
mod trail;

pub use cell_word::CellWord;
pub use handles::{Claim, Handle, Lane, Leaving, Slot};
pub use laws::{
    gives_after_not_saving, gives_after_saving, goes_by_an_event, goes_by_seeing, goes_on,
    holds_nothing, keeps_its_own, pins_cross_threads, stays_with_nothing,
};
pub use made::Made;
pub use pass::Pass;
pub use pins::Pins;
pub use refusals::{Busy, LaneTaken, NoFree, NotLive, Taken};
pub use trail::Trail;
