//! The script of the demonstration, and its line.
#![tactic(auto)]

mod edits;
mod line;
mod script;
mod sum;
mod views;

pub use line::demo_line;
pub use script::demo_script;
pub use sum::pixel_sum;
