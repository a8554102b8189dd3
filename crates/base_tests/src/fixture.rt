// Levels of eight-bit voxels, and a pyramid of two.

use cell_grid::{Extent, Geometry, GridErr, Kind, Level};
use std::alloc::Global;
use std::test::Fail;

/// A level of eight-bit voxels.
pub(crate) fn level(dims: [u64; 3], cell: [u32; 3], factor: [u32; 3]) -> Result<Level, GridErr> {
    Ok(Level {
        extent: Extent::new(dims, cell)?,
        factor,
        kind: Kind::U8,
    })
}

/// Four cells of four voxels, and a coarser level of one cell.
pub(crate) fn pyramid(alloc: Global) -> Result<Geometry, Fail> {
    let fine = level([4, 4, 1], [2, 2, 1], [1, 1, 1])?;
    let coarse = level([2, 2, 1], [2, 2, 1], [2, 2, 1])?;
    Ok(Geometry::new(vec![in alloc; fine, coarse]?)?)
}
