//! Disjoint lists of node numbers, linked by index: every call takes a fixed number of steps, and none but `new`
//! takes memory.
#![tactic(auto)]

mod links;
mod rings;

pub use links::{Links, Memory};
