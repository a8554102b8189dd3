//! Eyes over the cache of one thread and a queue.
#![tactic(auto)]

mod sole_eyes;

pub use crate::sole_eyes::SoleEyes;
