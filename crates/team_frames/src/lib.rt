//! Frames and servings of one of a team that shares cells and their queue.
#![tactic(auto)]

mod frame;
mod servings;

pub use frame::paint_view;
pub use servings::serve_cells;
