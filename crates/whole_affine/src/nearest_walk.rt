// The nearest voxels of a row of pixels, one after another.
ghost use Rattle.std.specs.Prelude.{◌≡◌, ◌⊎◌, ℕ, ◌+◌, ◌*◌, ◌<◌, ◌≤◌, ◌^◌, List, slice_index, unsigned_abs};
ghost use Rattle.whole_affine.specs.Affine.{Map};
ghost use Rattle.whole_affine.specs.Nearest.{nearest_voxel, IsFactor};
ghost use Rattle.whole_affine.specs.Boxes.{LiesInBox};
ghost use Rattle.whole_affine.specs.Carry.{Carries};

use crate::affine::Affine;
use crate::carry::Carry;
use crate::offset_walk::OffsetWalk;
use crate::voxel::halves;

/// The nearest voxel of a pixel, which walks along a row without a division.
///
/// It is passed by value: `walk = walk.next()` moves it by one column.
#[derive(Clone, Copy)]
pub struct NearestWalk {
    x: Carry,
    y: Carry,
    z: Carry,
    left: u32,
    ghost few: { left ≤ 4096 },
    ghost x_fits: { unsigned_abs x.voxel + left * (unsigned_abs x.by + 1) ≤ 2 ^ 48 },
    ghost y_fits: { unsigned_abs y.voxel + left * (unsigned_abs y.by + 1) ≤ 2 ^ 48 },
    ghost z_fits: { unsigned_abs z.voxel + left * (unsigned_abs z.by + 1) ≤ 2 ^ 48 },
}

impl NearestWalk {
    ghost use Rattle.whole_affine.specs.NearestWalk.{IsAt, steps_left};
    ghost use Rattle.whole_affine.specs.Offsets.{offset_ahead, offset_in, StandsIn};

    /// The walk along row `y` of a picture of this width, in a level of these factors, at column 0.
    pub fn new(affine: &Affine, factor: [u32; 3], y: u32, width: u32) -> NearestWalk
        requires factor { IsFactor factor }
        requires y { y < 4096 }
        requires width { width ≤ 4096 }
        ensures { IsAt result affine.now factor 0 y width }
    {
        let [x_point, y_point, z_point] = affine.at(0, y);
        let [x_step, y_step, z_step] = affine.columns();
        let q = affine.q();
        NearestWalk {
            x: axis(x_point, x_step, q, factor[0]),
            y: axis(y_point, y_step, q, factor[1]),
            z: axis(z_point, z_step, q, factor[2]),
            left: width,
        }
    }

    /// The nearest voxel of the pixel where the walk is, axis by axis.
    pub fn voxel(self) -> [i64; 3]
        ensures { (map : Map) (factor : List ℕ) (x y width : ℕ) → IsAt self map factor x y width → result ≡ nearest_voxel map factor x y }
    {
        [self.x.voxel, self.y.voxel, self.z.voxel]
    }

    /// The walk at the next column.
    pub fn next(self) -> NearestWalk
        requires { 0 < steps_left self }
        ensures { (map : Map) (factor : List ℕ) (x y width : ℕ) → IsAt self map factor x y width → IsAt result map factor (x + 1) y width }
    {
        NearestWalk {
            x: self.x.next(),
            y: self.y.next(),
            z: self.z.next(),
            left: self.left - 1,
        }
    }

    /// The walk so many columns further on. It divides only on an axis where a step leaves a remainder.
    pub fn ahead(self, columns: u32) -> NearestWalk
        requires { columns ≤ steps_left self }
        ensures { (map : Map) (factor : List ℕ) (x y width : ℕ) → IsAt self map factor x y width → IsAt result map factor (x + columns) y width }
    {
        NearestWalk {
            x: self.x.ahead(columns),
            y: self.y.ahead(columns),
            z: self.z.ahead(columns),
            left: self.left - columns,
        }
    }

    /// How many columns, from here on and up to the end of the row, have their nearest voxel in a box, with this lowest voxel and
    /// these sides. It makes one division at most for each axis.
    pub fn columns_in(self, low: [u32; 3], sides: [u32; 3]) -> u32
        ensures few { result ≤ steps_left self }
        ensures inside { (map : Map) (factor : List ℕ) (x y width : ℕ) → IsAt self map factor x y width → (k : ℕ) → k < result → LiesInBox map factor low sides (x + k) y }
        ensures end { (map : Map) (factor : List ℕ) (x y width : ℕ) → IsAt self map factor x y width → (x + result ≡ width) ⊎ (¬ LiesInBox map factor low sides (x + result) y) }
    {
        let on_x = self.x.columns_in(low[0], sides[0], self.left);
        let on_y = self.y.columns_in(low[1], sides[1], on_x);
        self.z.columns_in(low[2], sides[2], on_y)
    }

    /// The offsets in a box, with this lowest voxel and these sides, of the nearest voxels from here on. The walk is in the box.
    pub fn offsets(self, low: [u32; 3], sides: [u32; 3]) -> OffsetWalk
        requires inside { StandsIn self low sides }
        requires small { slice_index sides 0 * slice_index sides 1 * slice_index sides 2 ≤ 2 ^ 21 }
        ensures { (map : Map) (factor : List ℕ) (x y width : ℕ) → IsAt self map factor x y width → (k : ℕ) → offset_ahead result k ≡ offset_in map factor low sides (x + k) y }
    {
        OffsetWalk::of(self.x, self.y, self.z, low, sides)
    }
}

/// The coordinate at a numerator, that gains a step.
fn axis(n: i64, step: i64, q: u64, factor: u32) -> Carry
    requires q { 0 < q }
    requires bounded { q ≤ 2 ^ 31 }
    requires factor { 0 < factor }
    requires point { unsigned_abs n ≤ 2 ^ 45 }
    requires step { unsigned_abs step ≤ 2 ^ 31 }
    ensures carries { Carries result n step q factor }
    ensures voxel { unsigned_abs result.voxel ≤ 2 ^ 47 }
    ensures by { unsigned_abs result.by ≤ 2 ^ 33 }
{
    Carry::new(halves(n, q), step + step, 2 * q * factor as u64)
}
