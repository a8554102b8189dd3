//! A value that threads use in turn. Each call is a step of one history, which passes know of.
#![tactic(auto)]

mod laws;
mod pass;
mod plays;
mod seat_steps;
mod seq;
mod turn;
pub mod views;

pub use laws::{each_call_is_a_step, turns_cross_threads};
pub use pass::{Pass, TurnPass};
pub use seq::Seq;
pub use turn::Turn;
