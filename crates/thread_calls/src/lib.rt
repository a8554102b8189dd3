//! The call of the program that works by threads: the run of a script, and the demonstration.
#![tactic(auto)]

mod call;
mod demo;
mod ending;
mod run;
mod work;

pub use call::{ThreadEnded, viewrun};
