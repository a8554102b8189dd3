//! The phases of a run by threads: passes are split, actors and fetchers work by them on threads of their own, and the passes are joined.
#![tactic(auto)]

mod actor;
mod all_phases;
mod crew;
mod losing;
mod phase;
mod threads;

pub use actor::{Actor, PartDone};
pub use all_phases::play_all;
pub use phase::play;
