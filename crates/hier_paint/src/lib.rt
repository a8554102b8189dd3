//! The painter of slices through a pyramid: each pixel shows the first level, from the wanted one on, that is ready.
#![tactic(auto)]

mod cell_box;
mod find;
mod hand;
mod paint_rows;
mod painter;
mod pixel;
mod span;
mod voxel;

pub use painter::paint;
pub use scale_pick::{Painted, Picture, Strategy, View};
