// The box of a cell.
ghost use Rattle.std.specs.Prelude.{◌≡◌, ◌⊎◌, ℕ, pos, ◌+◌, ◌^◌, ◌<◌, ◌≤◌, List, IfSome, unsigned_abs};
ghost use Rattle.voxel_box.specs.Box.{volume, number, IsWithin};
ghost use Rattle.cell_grid.specs.declared.level.Level.{Level};
ghost use Rattle.cell_grid.specs.Pyramid.{cells_of};
ghost use Rattle.whole_affine.specs.Affine.{Map};
ghost use Rattle.whole_affine.specs.NearestWalk.{IsAt, steps_left};
ghost use Rattle.whole_affine.specs.Offsets.{offset_ahead, offset_in, StandsIn};
ghost use Rattle.hier_paint.specs.Nearest.{IsSmall};

use cell_grid::{Geometry, Place};
use whole_affine::{NearestWalk, OffsetWalk};

/// The box of a cell: its level, its lowest voxel there, and its sides in voxels.
#[derive(Clone, Copy)]
pub struct CellBox {
    pub level: u8,
    pub low: [u32; 3],
    pub sides: [u32; 3],
    ghost small: { volume sides ≤ 2 ^ 21 },
}

impl CellBox {
    ghost use Rattle.hier_paint.specs.Boxes.{IsBoxOf, IsInside, IsInBox, IsPlaced};

    /// The box of a cell.
    #[tactic(auto, using(crate::proofs::Boxing::voxel_small))]
    pub fn of(geometry: &Geometry, cell: u32) -> CellBox
        requires { cell < cells_of geometry.now }
        ensures { IsBoxOf geometry.now cell result }
    {
        let _levels = geometry.levels(); // read for what its contract tells the proof
        let sides = geometry.sides(cell);
        let (level, low) = geometry.pos_of(Place { cell, at: 0 });
        let [x, y, z] = low;
        CellBox {
            level,
            low: [x as u32, y as u32, z as u32],
            sides,
        }
    }

    /// The offset in the cell of a voxel of a level, where that lies in the box.
    pub fn offset(&self, level: u8, voxel: [i64; 3]) -> Option<u32>
        requires { IsSmall voxel }
        ensures { (levels : List Level) (cell : ℕ) → IsBoxOf levels cell self.now → IfSome result (λ at. IsPlaced levels level voxel cell at) }
    {
        if level != self.level {
            return None;
        }
        let at = self.inside(voxel)?;
        Some(number(at, self.sides))
    }

    /// How many columns of a row at a level, from a walk on, have their nearest voxel in the box.
    pub fn columns(&self, level: u8, walk: NearestWalk) -> u32
        ensures few { result ≤ steps_left walk }
        ensures inside { (affine : Map) (factor : List ℕ) (x y width : ℕ) → IsAt walk affine factor x y width → (k : ℕ) → k < result → IsInBox affine factor level (x + k) y self.now }
        ensures end { (affine : Map) (factor : List ℕ) (x y width : ℕ) → IsAt walk affine factor x y width → (x + result ≡ width) ⊎ (¬ IsInBox affine factor level (x + result) y self.now) }
    {
        if level != self.level {
            return 0;
        }
        walk.columns_in(self.low, self.sides)
    }

    /// The offsets in the cell of the nearest voxels of a row at the box's level, from a walk on, which is in the box.
    pub fn offsets(&self, walk: NearestWalk) -> OffsetWalk
        requires { StandsIn walk self.now.low self.now.sides }
        ensures { (affine : Map) (factor : List ℕ) (x y width : ℕ) → IsAt walk affine factor x y width → (k : ℕ) → offset_ahead result k ≡ offset_in affine factor self.now.low self.now.sides (x + k) y }
    {
        walk.offsets(self.low, self.sides)
    }

    /// The position of a voxel in the box, where it lies there.
    fn inside(&self, voxel: [i64; 3]) -> Option<[u32; 3]>
        requires { IsSmall voxel }
        ensures { IfSome result (λ at. IsInside voxel self.now.low self.now.sides at) }
    {
        let x = along(voxel[0], self.low[0], self.sides[0])?;
        let y = along(voxel[1], self.low[1], self.sides[1])?;
        let z = along(voxel[2], self.low[2], self.sides[2])?;
        Some([x, y, z])
    }
}

/// How far a coordinate is from the low one, where that is below the side. LLVM makes one comparison of the two.
fn along(coordinate: i64, low: u32, side: u32) -> Option<u32>
    requires { unsigned_abs coordinate ≤ 2 ^ 47 }
    ensures at { IfSome result (λ at. coordinate ≡ pos (low + at)) }
    ensures below { IfSome result (λ at. at < side) }
{
    let far = coordinate - low as i64;
    if far < 0 || far >= side as i64 {
        return None;
    }
    Some(far as u32)
}

/// The number of a position inside a box of at most 2^21 voxels.
fn number(at: [u32; 3], sides: [u32; 3]) -> u32
    requires within { IsWithin at sides }
    requires small { volume sides ≤ 2 ^ 21 }
    ensures { result ≡ number at sides }
{
    at[0] + sides[0] * (at[1] + sides[1] * at[2])
}
