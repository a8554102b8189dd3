//! A cache of cells for one thread, which loads cells from stores, and puts edited ones back as they leave.
#![tactic(auto)]

mod cache;
mod handle;
mod laws;
mod outside;
mod slot;

pub use cache::SoleCache;
pub use handle::SoleHandle;
pub use laws::{moves_compose, runs_compose};
