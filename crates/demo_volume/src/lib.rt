//! The volume of the demonstration: a pyramid that a number decides, put into stores.
#![tactic(auto)]

mod cut;
mod generator;
mod levels;
mod make;
mod make_err;
mod maker;
mod means;

pub use make::make_pyramid;
pub use make_err::MakeErr;
