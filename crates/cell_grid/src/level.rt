// A level of a pyramid.
use crate::{Extent, Kind};

/// A level of a pyramid: its box of voxels, how many voxels of level 0 one of its voxels spans on each axis, and its
/// voxels' kind.
#[derive(Clone, Copy)]
pub struct Level {
    pub extent: Extent,
    pub factor: [u32; 3],
    pub kind: Kind,
}
