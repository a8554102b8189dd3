//! Eyes over cells and a queue that threads share.
#![tactic(auto)]

mod laws;
mod steps;
mod team_eyes;

pub use laws::frames_show_moments;
pub use team_eyes::TeamEyes;
