// The offsets of a row's nearest voxels in a box, one after another.
ghost use Rattle.std.specs.Prelude.{◌≡◌, ℕ, ◌+◌, ◌*◌, ◌/◌, ◌<◌, ◌≤◌, ◌^◌, pos, ◌+ℤ◌, ◌*ℤ◌, neg_ℤ, slice_index, unsigned_abs, true};
ghost use Rattle.whole_affine.specs.Parts.{LiesIn};

use crate::carry::Carry;

/// What an axis adds to an offset beyond its whole steps: a stride, each time the remainders of its steps make up a divisor.
#[derive(Clone, Copy)]
pub(crate) struct Turn {
    pub rest: u64,
    pub by_rest: u64,
    pub divisor: u64,
    pub stride: i64,
    ghost rest_below: { rest < divisor },
    ghost by_rest_below: { by_rest < divisor },
    ghost stride_small: { unsigned_abs stride ≤ 2 ^ 21 },
}

impl Turn {
    ghost use Rattle.whole_affine.specs.Offsets.{turned};

    /// The axis at the next column, and what it added there.
    fn next(self) -> (Turn, i64)
        ensures on { (k : ℕ) → turned self (k + 1) ≡ result.1 +ℤ turned result.0 k }
        ensures small { unsigned_abs result.1 ≤ 2 ^ 21 }
    {
        let gap = self.divisor - self.by_rest;
        if self.rest < gap {
            return (self.with(self.rest + self.by_rest), 0);
        }
        (self.with(self.rest - gap), self.stride)
    }

    /// The axis with another remainder.
    fn with(self, rest: u64) -> Turn
        requires { rest < self.divisor }
        ensures rest { result.rest ≡ rest }
        ensures by_rest { result.by_rest ≡ self.by_rest }
        ensures divisor { result.divisor ≡ self.divisor }
        ensures stride { result.stride ≡ self.stride }
    {
        Turn {
            rest,
            by_rest: self.by_rest,
            divisor: self.divisor,
            stride: self.stride,
        }
    }
}

/// The offset of a row's nearest voxel in a box, which walks along the row by additions: the same step at each column, and on an axis
/// whose steps leave a remainder a stride more, now and then.
///
/// It is passed by value: `walk = walk.next()` moves it by one column.
#[derive(Clone, Copy)]
pub struct OffsetWalk {
    pub(crate) at: i64,
    pub(crate) by: i64,
    pub(crate) x: Turn,
    pub(crate) y: Turn,
    pub(crate) z: Turn,
    ghost slow: { unsigned_abs by ≤ 2 ^ 60 },
}

impl OffsetWalk {
    ghost use Rattle.whole_affine.specs.Offsets.{offset_ahead, offset_along, place_ahead, IsStraight};

    /// The walk of the offsets in a box, with this lowest voxel and these sides, that begins at coordinates in the box.
    pub(crate) fn of(x: Carry, y: Carry, z: Carry, low: [u32; 3], sides: [u32; 3]) -> OffsetWalk
        requires on_x { LiesIn x.voxel (slice_index low 0) (slice_index sides 0) }
        requires on_y { LiesIn y.voxel (slice_index low 1) (slice_index sides 1) }
        requires on_z { LiesIn z.voxel (slice_index low 2) (slice_index sides 2) }
        requires small { slice_index sides 0 * slice_index sides 1 * slice_index sides 2 ≤ 2 ^ 21 }
        ensures { (k : ℕ) → offset_ahead result k ≡ offset_along x y z low sides k }
    {
        let x = Part::of(x, low[0], 1);
        let y = Part::of(y, low[1], sides[0]);
        let z = Part::of(z, low[2], sides[0] * sides[1]);
        OffsetWalk {
            at: sum(x.at, y.at, z.at),
            by: sum(x.by, y.by, z.by),
            x: x.turn,
            y: y.turn,
            z: z.turn,
        }
    }

    /// The offset where the walk is.
    pub fn at(self) -> u32
        requires { LiesIn (offset_ahead self 0) 0 (2 ^ 32) }
        ensures { result ≡ place_ahead self 0 }
    {
        self.at as u32
    }

    /// Whether the walk makes the same step at each column.
    pub fn is_straight(self) -> bool
        ensures straight { result ≡ true → IsStraight self }
        ensures turned { IsStraight self → result ≡ true }
    {
        self.x.by_rest == 0 && self.y.by_rest == 0 && self.z.by_rest == 0
    }

    /// The walk at the next column, where it makes the same step at each.
    pub fn next_straight(self) -> OffsetWalk
        requires straight { IsStraight self }
        requires inside { LiesIn (offset_ahead self 0) 0 (2 ^ 32) }
        ensures on { (k : ℕ) → offset_ahead result k ≡ offset_ahead self (k + 1) }
        ensures straight { IsStraight result }
    {
        OffsetWalk {
            at: moved(self.at, self.by, 0),
            by: self.by,
            x: self.x,
            y: self.y,
            z: self.z,
        }
    }

    /// The walk at the next column. Whether it is straight is asked again, since LLVM asks it once for a loop.
    pub fn next(self) -> OffsetWalk
        requires { LiesIn (offset_ahead self 0) 0 (2 ^ 32) }
        ensures { (k : ℕ) → offset_ahead result k ≡ offset_ahead self (k + 1) }
    {
        if self.is_straight() {
            return self.next_straight();
        }
        let (x, on_x) = self.x.next();
        let (y, on_y) = self.y.next();
        let (z, on_z) = self.z.next();
        OffsetWalk {
            at: moved(self.at, self.by, sum(on_x, on_y, on_z)),
            by: self.by,
            x,
            y,
            z,
        }
    }
}

/// An offset after a step, and what the axes added to that.
fn moved(at: i64, by: i64, turns: i64) -> i64
    requires at { unsigned_abs at ≤ 2 ^ 32 }
    requires by { unsigned_abs by ≤ 2 ^ 60 }
    requires turns { unsigned_abs turns ≤ 2 ^ 56 }
    ensures sum { result ≡ at +ℤ by +ℤ turns }
    ensures small { unsigned_abs result ≤ 2 ^ 61 }
{
    at + by + turns
}

/// What three axes make together.
fn sum(x: i64, y: i64, z: i64) -> i64
    requires x { unsigned_abs x ≤ 2 ^ 54 }
    requires y { unsigned_abs y ≤ 2 ^ 54 }
    requires z { unsigned_abs z ≤ 2 ^ 54 }
    ensures sum { result ≡ x +ℤ y +ℤ z }
    ensures small { unsigned_abs result ≤ 2 ^ 56 }
{
    x + y + z
}

/// What an axis gives to an offset: where it begins, its whole step, and what its remainders add.
#[derive(Clone, Copy)]
struct Part {
    at: i64,
    by: i64,
    turn: Turn,
}

impl Part {
    ghost use Rattle.whole_affine.specs.Offsets.{turned};

    /// What a coordinate of a box gives, that begins at `low` on its axis and has `stride` voxels to each step of it.
    fn of(coordinate: Carry, low: u32, stride: u32) -> Part
        requires inside { LiesIn coordinate.voxel low (2 ^ 21) }
        requires stride { stride ≤ 2 ^ 21 }
        ensures at { result.at ≡ pos stride *ℤ (coordinate.voxel +ℤ neg_ℤ (pos low)) }
        ensures by { result.by ≡ pos stride *ℤ coordinate.by }
        ensures turn { (k : ℕ) → turned result.turn k ≡ pos stride *ℤ pos ((coordinate.rest + k * coordinate.by_rest) / coordinate.divisor) }
        ensures small { unsigned_abs result.at ≤ 2 ^ 54 }
        ensures slow { unsigned_abs result.by ≤ 2 ^ 54 }
    {
        Part {
            at: scaled(stride, far(coordinate.voxel, low)),
            by: scaled(stride, coordinate.by),
            turn: Turn {
                rest: coordinate.rest,
                by_rest: coordinate.by_rest,
                divisor: coordinate.divisor,
                stride: stride as i64,
            },
        }
    }
}

/// How far a coordinate of a box is from its lowest one.
fn far(coordinate: i64, low: u32) -> i64
    requires { LiesIn coordinate low (2 ^ 21) }
    ensures far { result ≡ coordinate +ℤ neg_ℤ (pos low) }
    ensures small { unsigned_abs result ≤ 2 ^ 33 }
{
    coordinate - low as i64
}

/// So many voxels of an axis, in voxels of the box.
fn scaled(stride: u32, voxels: i64) -> i64
    requires stride { stride ≤ 2 ^ 21 }
    requires voxels { unsigned_abs voxels ≤ 2 ^ 33 }
    ensures product { result ≡ pos stride *ℤ voxels }
    ensures small { unsigned_abs result ≤ 2 ^ 54 }
{
    stride as i64 * voxels
}
