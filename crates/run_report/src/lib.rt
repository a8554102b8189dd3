//! What a run answers, and the texts that the program prints.
#![tactic(auto)]

mod cause;
mod counts;
mod dataset;
mod info;
mod print;
mod reply;
mod report;
mod said;
mod shot;
mod stop;

pub use info::info_text;
pub use print::{PrintErr, print_bytes};
pub use reply::{Answer, Refusal, Reply};
pub use report::{Report, Unwritten};
pub use shot::Shot;
pub use stop::Stop;
