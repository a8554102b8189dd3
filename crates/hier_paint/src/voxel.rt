// The voxel that is nearest to a pixel's point.
ghost use Rattle.std.specs.Prelude.{◌≡◌, ◌<◌, ◌≤◌, ◌^◌, ℕ, pos, List, length, map, Some, IfSome, IfNone, slice_index_or, unsigned_abs, true};
ghost use Rattle.voxel_box.specs.Box.{IsWithin};
ghost use Rattle.cell_grid.specs.Pyramid.{cells_of, voxels_of};
ghost use Rattle.whole_affine.specs.Affine.{Map};
ghost use Rattle.whole_affine.specs.Nearest.{nearest_voxel, IsFactor};
ghost use Rattle.scale_pick.specs.Pixel.{IsOutside};
ghost use Rattle.hier_paint.specs.Nearest.{IsNearest, IsSmall, IsWalk};
ghost use Rattle.hier_paint.specs.Boxes.{IsPlaced};
ghost use Rattle.hier_paint.specs.Hands.{IsBoxed};

use crate::hand::Hand;
use cell_grid::{Geometry, Level, Place};
use whole_affine::{Affine, NearestWalk, nearest};

/// The walk along a row at a level, at column 0.
pub fn row_walk(geometry: &Geometry, affine: &Affine, level: u8, y: u32, width: u32) -> NearestWalk
    requires level { level < length geometry.now }
    requires row { y < 4096 }
    requires width { width ≤ 4096 }
    ensures { IsWalk geometry.now affine.now level 0 y width result }
{
    let _q = affine.q(); // read for what its contract tells the proof
    let shape = geometry.level(level);
    NearestWalk::new(affine, shape.factor, y, width)
}

/// The nearest voxel of a pixel at a level, as numbers that may lie outside the level. At the wanted level it is known.
pub fn voxel_on(
    geometry: &Geometry,
    affine: &Affine,
    wanted: u8,
    known: [i64; 3],
    level: u8,
    x: u32,
    y: u32,
) -> [i64; 3]
    requires known { IsNearest geometry.now affine.now wanted x y known }
    requires level { level < length geometry.now }
    requires column { x < 4096 }
    requires row { y < 4096 }
    ensures { IsNearest geometry.now affine.now level x y result }
{
    if level == wanted {
        known
    } else {
        voxel_at(geometry, affine, level, x, y)
    }
}

/// Out of line, since LLVM would else do its products at each pixel.
#[inline(never)]
fn voxel_at(geometry: &Geometry, affine: &Affine, level: u8, x: u32, y: u32) -> [i64; 3]
    requires level { level < length geometry.now }
    requires column { x < 4096 }
    requires row { y < 4096 }
    ensures { IsNearest geometry.now affine.now level x y result }
{
    nearest_voxel(geometry.level(level), affine, x, y)
}

fn nearest_voxel(level: &Level, affine: &Affine, x: u32, y: u32) -> [i64; 3]
    requires factor { IsFactor level.now.factor }
    requires column { x < 4096 }
    requires row { y < 4096 }
    ensures nearest { result ≡ nearest_voxel affine.now level.now.factor x y }
    ensures small { IsSmall result }
{
    let [a, b, c] = affine.at(x, y);
    let q = affine.q();
    [
        nearest(a, q, level.factor[0]),
        nearest(b, q, level.factor[1]),
        nearest(c, q, level.factor[2]),
    ]
}

/// The place of a pixel's nearest voxel, where that is inside the level: by the box of the cell that is held, or by divisions.
pub fn place_of<H>(geometry: &Geometry, hand: &Hand<H>, level: u8, voxel: [i64; 3]) -> Option<Place>
    requires small { IsSmall voxel }
    requires boxed { IsBoxed geometry.now hand.now.held }
    ensures placed { IfSome result (λ place. IsPlaced geometry.now level voxel place.cell place.at) }
    ensures outside { (affine : Map) (x y : ℕ) → IsNearest geometry.now affine level x y voxel → IfNone result (IsOutside geometry.now affine level x y) }
    ensures cell { IfSome result (λ place. place.cell < cells_of geometry.now) }
    ensures at { IfSome result (λ place. place.at < voxels_of geometry.now place.cell) }
{
    match hand.place(level, voxel) {
        Some(place) => Some(place),
        None => place_by_division(geometry, level, voxel),
    }
}

/// The place of a voxel, as the geometry has it. Out of line, since few pixels come here.
#[inline(never)]
fn place_by_division(geometry: &Geometry, level: u8, voxel: [i64; 3]) -> Option<Place>
    requires small { IsSmall voxel }
    ensures placed { IfSome result (λ place. IsPlaced geometry.now level voxel place.cell place.at) }
    ensures outside { (affine : Map) (x y : ℕ) → IsNearest geometry.now affine level x y voxel → IfNone result (IsOutside geometry.now affine level x y) }
    ensures cell { IfSome result (λ place. place.cell < cells_of geometry.now) }
    ensures at { IfSome result (λ place. place.at < voxels_of geometry.now place.cell) }
{
    match coordinates(voxel) {
        Some(at) => geometry.place(level, at),
        None => None,
    }
}

/// Whether a voxel lies outside a level of these sides.
pub fn is_outside(voxel: [i64; 3], dims: [u64; 3]) -> bool
    requires { IsSmall voxel }
    ensures { result ≡ true → (at : List ℕ) → map pos at ≡ voxel → ¬ IsWithin at dims }
{
    match coordinates(voxel) {
        None => true,
        Some(at) => at[0] >= dims[0] || at[1] >= dims[1] || at[2] >= dims[2],
    }
}

/// The coordinates of a voxel, where none is negative.
fn coordinates(voxel: [i64; 3]) -> Option<[u64; 3]>
    requires x { unsigned_abs (slice_index_or voxel 0 (pos 0)) ≤ 2 ^ 47 }
    requires y { unsigned_abs (slice_index_or voxel 1 (pos 0)) ≤ 2 ^ 47 }
    requires z { unsigned_abs (slice_index_or voxel 2 (pos 0)) ≤ 2 ^ 47 }
    ensures same { IfSome result (λ at. map pos at ≡ voxel) }
    ensures negative { IfNone result ((at : List ℕ) → ¬ (map pos at ≡ voxel)) }
{
    let [x, y, z] = voxel;
    if x < 0 || y < 0 || z < 0 {
        return None;
    }
    Some([x as u64, y as u64, z as u64])
}
