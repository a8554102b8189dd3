//! Boxes of voxels that are cut into cells, and pyramids of them, after ImgLib2's cell grids.
//!
//! A level is a box of voxels. Cells are numbered level by level, in a level by their place in the grid with x
//! fastest. A voxel's offset in its cell is counted the same way over the cell's own sides.
#![tactic(auto)]

mod extent;
mod find;
mod geometry;
mod grid_err;
mod kept;
mod kind;
mod lanes;
mod level;
mod order;
mod place;
mod rules;

pub use extent::Extent;
pub use geometry::{Geometry, Memory};
pub use grid_err::GridErr;
pub use kind::Kind;
pub use lanes::lane;
pub use level::Level;
pub use place::{Place, numbers_are_one_to_one};
