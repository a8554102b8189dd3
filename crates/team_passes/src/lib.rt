//! Passes of shared cells and of their queue, split and joined together.
#![tactic(auto)]

mod passes;
mod team_pass;

pub use passes::{add_pass, draw, join_pass, split_pass, take_back};
pub use team_pass::TeamPass;
