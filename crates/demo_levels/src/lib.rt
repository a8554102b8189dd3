//! That the demonstration's attributes are read as its levels.
#![tactic(auto)]

mod laws;

pub use laws::demo_is_read;
