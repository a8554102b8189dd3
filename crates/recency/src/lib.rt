//! Which slot leaves next: slots in the order of their use, in two lists.
#![tactic(auto)]

mod recency;

pub use recency::{Memory, Recency};
