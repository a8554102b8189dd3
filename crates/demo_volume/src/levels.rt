// The levels of the demonstration, and the keys of its cells.
ghost use Rattle.std.specs.Prelude.{◌≡◌, [], ◌∷◌, IfOk};
ghost use Rattle.cell_grid.specs.declared.kind.Kind.TheVariants.{U16};
ghost use Rattle.demo_volume.specs.Levels.{levels};

use cell_grid::{Extent, Geometry, Kind, Level};
use std::alloc::{AllocError, Global};

/// The sides of level 0, in voxels along x, y and z.
pub(crate) const FINE: [usize; 3] = [512, 512, 64];

/// The sides of level 1.
pub(crate) const COARSE: [usize; 3] = [256, 256, 32];

/// The sides of a cell.
pub(crate) const CELL: [u32; 3] = [32, 32, 16];

/// The levels of the demonstration.
pub(crate) fn geometry(alloc: Global) -> Result<Geometry, AllocError>
    ensures { IfOk result (λ geometry. geometry ≡ levels) }
{
    let fine = Extent::new([512, 512, 64], CELL);
    let coarse = Extent::new([256, 256, 32], CELL);
    let (Ok(fine), Ok(coarse)) = (fine, coarse) else {
        unreachable!()
    };
    let mut levels = Vec::with_capacity(alloc, 2)?;
    levels.push(level(fine, [1, 1, 1]))?;
    levels.push(level(coarse, [2, 2, 2]))?;
    match Geometry::new(levels) {
        Ok(geometry) => Ok(geometry),
        Err(_) => unreachable!(),
    }
}

fn level(extent: Extent, factor: [u32; 3]) -> Level
    ensures { result ≡ record { extent = extent; factor = factor; kind = U16 } }
{
    Level {
        extent,
        factor,
        kind: Kind::U16,
    }
}
