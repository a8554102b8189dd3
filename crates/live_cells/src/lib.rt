//! The cells of a cache that threads share: a cell is pinned where it is live, and loaded where it is absent.
#![tactic(auto)]

mod acquire;
mod actor;
mod begin;
mod cells;
mod hint;
mod lanes;
mod leaves;
mod loads;
mod patience;
mod reach;
mod room;
mod shutting;
mod steps;
mod victims;
mod voxels;

pub use begin::Memory;
pub use cells::{CellPass, Cells};
