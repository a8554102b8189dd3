// What the blocks of a cell look like.
ghost use Rattle.std.specs.Prelude.{◌≡◌, ℕ, ◌+◌, ◌*◌, ◌<◌, ◌≤◌, [], ◌∷◌, length, take, slice_index};
ghost use Rattle.voxel_box.specs.Box.{AreWithin, volume};
ghost use Rattle.cell_grid.specs.Kind.{greatest_of};
ghost use Rattle.cell_grid.specs.Pyramid.{cells_of, full_of, kind_of, sides_of, voxels_of};
ghost use Rattle.n5_block.specs.Block.{IsWidth, block};
ghost use Rattle.cell_file.specs.Standing.{width_of, limit_of};

use cell_grid::Geometry;
use n5_block::write_block;

/// How many bytes an element of a cell's blocks has.
#[tactic(auto, using(crate::proofs::Widths::bytes_are_width))]
pub fn width(geometry: &Geometry, cell: u32) -> u32
    requires { cell < cells_of geometry.now }
    ensures bytes { result ≡ width_of geometry.now cell }
    ensures width { IsWidth result }
{
    geometry.kind(cell).bytes()
}

/// How long a block of a cell may be: as long as one of the full sides.
#[tactic(auto, using(crate::proofs::Widths::bytes_le))]
pub fn limit(geometry: &Geometry, cell: u32) -> u64
    requires { cell < cells_of geometry.now }
    ensures { result ≡ limit_of geometry.now cell }
{
    let [x, y, z] = geometry.full(cell);
    16 + width(geometry, cell) as u64 * (x as u64 * y as u64 * z as u64)
}

/// Writes the block of a cell's cropped sides to the front of a list, and answers its length in bytes.
pub fn write_cell(geometry: &Geometry, cell: u32, values: &[u64], buf: &mut [u8]) -> usize
    requires cell { cell < cells_of geometry.now }
    requires count { length values.now ≡ voxels_of geometry.now cell }
    requires fits { (i : ℕ) → slice_index values.now i ≤ greatest_of (kind_of geometry.now cell) }
    requires room { 16 + width_of geometry.now cell * voxels_of geometry.now cell ≤ length buf.old }
    ensures len { result ≡ 16 + width_of geometry.now cell * volume (sides_of geometry.now cell) }
    ensures block { take result buf.new ≡ block (width_of geometry.now cell) (sides_of geometry.now cell) values.now }
    ensures some { AreWithin (1 ∷ 1 ∷ 1 ∷ []) (sides_of geometry.now cell) }
    ensures within { AreWithin (sides_of geometry.now cell) (full_of geometry.now cell) }
{
    let width = width(geometry, cell);
    write_block(width, geometry.sides(cell), values, buf)
}
