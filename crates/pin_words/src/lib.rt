//! The words of a cache of cells without a lock: what they say of its history, and that each step keeps it so.
#![tactic(auto)]

mod doing;
mod holding;
mod lane;

pub use doing::{Doing, Ended, Stage, Try};
pub use holding::{Held, Left, Pin};
pub use lane::{Change, Given, Taken};
