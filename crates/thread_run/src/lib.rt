//! The run of a script by threads, and the laws that lead to what it is.
#![tactic(auto)]

mod ending;
mod gather;
mod laws;
mod ran;
mod run;
mod stage;

pub use laws::{carried_out_runs, histories_show_moments, shut_cells_have_headline};
pub use ran::ThreadRan;
pub use run::thread_run;
