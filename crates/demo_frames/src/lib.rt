//! What a run by threads of the demonstration's script shows and answers, by its number.
#![tactic(auto)]

mod laws;

pub use laws::{demo_is_answered, demo_is_shown};
