// The blocks of the demonstration's cells.
ghost use Rattle.std.specs.Prelude.{◌≡◌, ◌≢◌, [], ◌∷◌, ℕ, ◌+◌, ◌*◌, ◌^◌, ◌<◌, ◌≤◌, IfOk, length, slice_index};
ghost use Rattle.demo_volume.specs.Cells.{cell_bytes, cell_values, start_of};
ghost use Rattle.demo_volume.specs.Levels.{levels};
ghost use Rattle.demo_volume.specs.Maker.{IsFull, IsMaker};
ghost use Rattle.cell_grid.specs.Pyramid.{grid_of};
ghost use Rattle.voxel_box.specs.Box.{IsWithin};

use crate::cut::cut;
use crate::generator::drawn;
use crate::levels::{CELL, COARSE, FINE, geometry};
use crate::means::means;
use cell_file::Keys;
use cell_grid::Geometry;
use n5_block::write_block;
use std::alloc::{AllocError, Global};

/// The name of the dataset's root.
const ROOT: &str = "demo";

/// How long the block of a cell is: a head of 16 bytes, and two bytes for each voxel.
const BLOCK_BYTES: usize = 16 + 2 * 32 * 32 * 16;

/// What the blocks are made of.
#[derive(Drop)]
pub(crate) struct Maker {
    pub(crate) geometry: Geometry,
    pub(crate) keys: Keys,
    pub(crate) fine: Vec<u16>,
    pub(crate) coarse: Vec<u16>,
}

/// The levels that a number decides, and the keys of their cells.
pub(crate) fn maker_of(alloc: Global, number: u64) -> Result<Maker, AllocError>
    ensures { IfOk result (λ maker. IsMaker number maker) }
{
    let geometry = geometry(alloc)?;
    let keys = Keys::new(&geometry, ROOT, false)?;
    let fine = drawn(alloc, FINE[0] * FINE[1] * FINE[2], number)?;
    let coarse = means(alloc, fine.as_slice())?;
    Ok(Maker {
        geometry,
        keys,
        fine,
        coarse,
    })
}

/// The block of a cell.
pub(crate) fn block_of(alloc: Global, maker: &Maker, cell: u32) -> Result<Vec<u8>, AllocError>
    requires full { IsFull maker.now }
    requires cell { cell < 1152 }
    ensures { IfOk result (λ block. block.items ≡ cell_bytes maker.now.fine.items maker.now.coarse.items cell) }
{
    let values = values_of(alloc, maker, cell)?;
    let mut block = zeros(alloc, BLOCK_BYTES)?;
    let len = write_block(2, CELL, values.as_slice(), block.as_mut_slice());
    block.truncate(len);
    Ok(block)
}

/// So many zeros.
fn zeros(alloc: Global, count: usize) -> Result<Vec<u8>, AllocError>
    ensures { IfOk result (λ zeros. length zeros.items ≡ count) }
{
    vec![in alloc; 0; count]
}

/// The voxels of a cell.
#[tactic(auto, using(crate::proofs::InsideLemmas::fine_inside, crate::proofs::InsideLemmas::coarse_inside), unfolding(crate::specs::Cells::cell_values))]
fn values_of(alloc: Global, maker: &Maker, cell: u32) -> Result<Vec<u64>, AllocError>
    requires full { IsFull maker.now }
    requires cell { cell < 1152 }
    ensures values { IfOk result (λ values. values.items ≡ cell_values maker.now.fine.items maker.now.coarse.items cell) }
    ensures count { IfOk result (λ values. length values.items ≡ 32 * 32 * 16) }
    ensures small { IfOk result (λ values. (i : ℕ) → slice_index values.items i < 2 ^ 16) }
{
    let (level, grid) = place_of(maker, cell);
    if level == 0 {
        let start = start_of(FINE, grid);
        cut(alloc, maker.fine.as_slice(), FINE[0], FINE[1], start)
    } else {
        let start = start_of(COARSE, grid);
        cut(alloc, maker.coarse.as_slice(), COARSE[0], COARSE[1], start)
    }
}

/// The level of a cell, and where it lies in that level's grid.
fn place_of(maker: &Maker, cell: u32) -> (u8, [u32; 3])
    requires full { IsFull maker.now }
    requires cell { cell < 1152 }
    ensures place { result ≡ grid_of levels cell }
    ensures fine { result.0 ≡ 0 → IsWithin result.1 (16 ∷ 16 ∷ 4 ∷ []) }
    ensures coarse { result.0 ≢ 0 → IsWithin result.1 (8 ∷ 8 ∷ 2 ∷ []) }
{
    maker.geometry.grid_of(cell)
}

/// The number of a cell's first voxel in a level of these sides.
fn start_of(sides: [usize; 3], grid: [u32; 3]) -> usize
    requires width { slice_index sides 0 ≤ 512 }
    requires height { slice_index sides 1 ≤ 512 }
    requires x { slice_index grid 0 < 16 }
    requires y { slice_index grid 1 < 16 }
    requires z { slice_index grid 2 < 4 }
    ensures { result ≡ start_of (slice_index sides 0) (slice_index sides 1) grid }
{
    let x = 32 * grid[0] as usize;
    let y = 32 * grid[1] as usize;
    let z = 16 * grid[2] as usize;
    x + sides[0] * (y + sides[1] * z)
}
