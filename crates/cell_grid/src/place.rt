// Where a voxel lies among the cells.
ghost use Rattle.std.specs.Prelude.{List};
ghost use Rattle.cell_grid.specs.declared.level.Level.{Level};
ghost use Rattle.cell_grid.specs.Pyramid.{IsPyramid, AreOneToOne};

/// Where a voxel lies: its cell, and its offset there.
#[derive(Clone, Copy, Debug, PartialEq, Eq)]
pub struct Place {
    pub cell: u32,
    pub at: u32,
}

/// The voxels of a pyramid, and its cells with the offsets in them, stand for each other, one to one.
pub fn numbers_are_one_to_one()
    ensures { (levels : List Level) → IsPyramid levels → AreOneToOne levels }
{}
