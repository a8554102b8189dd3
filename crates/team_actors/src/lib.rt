//! What an actor and a fetcher do, each by a pass of shared cells and a pass of their queue.
#![tactic(auto)]

mod acting;
mod fetch;
mod gate;
mod serve;
mod show;
mod voxels;

pub use acting::act;
pub use fetch::fetch_ahead;
pub use gate::{Gate, OpenGate};
