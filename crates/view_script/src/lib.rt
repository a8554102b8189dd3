//! Scripts: which bytes are one, what it says, and the first rule that other bytes break.
#![tactic(auto)]

mod command;
mod draft;
mod line;
mod lines;
mod name;
mod number;
mod read;
mod reading;
mod root;
mod script;
mod script_error;
mod view_line;
mod views;
mod words;

pub use command::Command;
pub use name::Name;
pub use read::read_script;
pub use script::{Head, Script};
pub use script_error::{ScriptErr, ScriptKind};
