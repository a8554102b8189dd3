//! The words of a command line, and what they ask for.
#![tactic(auto)]

mod command;
mod number;
mod request;
mod word;

pub use request::{Request, request_of};
pub use word::Word;
