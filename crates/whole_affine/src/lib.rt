//! Affine maps from pixels to voxels by whole numbers, walked along the rows of a picture.
#![tactic(auto)]

mod affine;
mod carry;
mod nearest_walk;
mod offset_walk;
mod row_walk;
mod voxel;

pub use affine::{Affine, AffineErr};
pub use nearest_walk::NearestWalk;
pub use offset_walk::OffsetWalk;
pub use row_walk::RowWalk;
pub use voxel::nearest;
