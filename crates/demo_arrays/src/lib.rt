//! What stores stand for that the demonstration's pyramid was put into.
#![tactic(auto)]

mod laws;

pub use laws::{attributes_are_held, demo_stands, holding_alike, making_holds, none_is_void};
