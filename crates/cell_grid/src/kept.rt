// The numbers that a geometry keeps beside its levels.
ghost use Rattle.std.specs.Prelude.{◌≡◌, ℕ, ◌<◌, ◌≤◌, ◌^◌, length, slice_get, slice_index, Some};
ghost use Rattle.cell_grid.specs.Grid.{IsGrid};
ghost use Rattle.cell_grid.specs.declared.level.Level.{Level};
ghost use Rattle.cell_grid.specs.Pyramid.{cells_of, first_cell, frame_of, IsPyramid};

use crate::Level;

/// The number of each level's first cell.
pub fn firsts(levels: &[Level]) -> [u32; 8]
    requires few { length levels.now ≤ 8 }
    requires small { cells_of levels.now ≤ 2 ^ 18 }
    ensures firsts { (level : ℕ) → level < length levels.now → slice_index result level ≡ first_cell levels.now level }
    ensures grids { (level : ℕ) (shape : Level) → slice_get levels.now level ≡ Some shape → IsGrid shape.extent }
{
    let mut firsts = [0; 8];
    let mut first = 0;
    for (level, shape) in levels.iter().enumerate() {
        firsts[level] = first;
        first += shape.extent.cells();
    }
    firsts
}

/// How many cells levels have.
pub fn cells_of(levels: &[Level]) -> u32
    requires { cells_of levels.now ≤ 2 ^ 18 }
    ensures { result ≡ cells_of levels.now }
{
    levels.iter().map(|level| level.extent.cells()).sum()
}

/// The most voxels that a cell has. In each level that is the cell at the grid's beginning.
pub fn frame_of(levels: &[Level]) -> u32
    requires { IsPyramid levels.now }
    ensures { result ≡ frame_of levels.now }
{
    let mut frame = 0;
    for shape in levels {
        let voxels = shape.extent.first_voxels();
        if voxels > frame {
            frame = voxels;
        }
    }
    frame
}
