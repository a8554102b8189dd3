// An affine map from the pixels of a picture to points of a volume.
ghost use Rattle.std.specs.Prelude.{◌≡◌, ℕ, ℤ, pos, ◌<◌, ◌≤◌, ◌^◌, List, slice_index_or, unsigned_abs, ◌*ℤ◌, ◌+ℤ◌, IfOk};
ghost use Rattle.std.specs.List.{list_all};
ghost use Rattle.std.specs.Result.{result_err};
ghost use Rattle.whole_affine.specs.Affine.{numerator_in, point, steps_of, columns_of, broken_map_rule, is_small, are_small, IsMap, IsSmallPoint, IsSmallStep};

use std::marker::Model;
use thiserror::Error;

/// The greatest size of a matrix entry, and of a denominator.
const GREATEST: u64 = 2147483648;

/// A map from pixels to points, each coordinate a whole number over one denominator.
///
/// On axis `a` pixel `(x, y)` is at `(rows[a][0] * x + rows[a][1] * y + rows[a][2]) / q`.
#[derive(Clone, Copy, Debug)]
pub struct Affine {
    q: u64,
    rows: [[i64; 3]; 3],
}

impl Model for Affine {
    ghost use Rattle.whole_affine.specs.Affine.{Map, IsMap};

    ghost Value = { Map };

    ghost view = { λ a. record { q = a.q; rows = a.rows } };

    ghost invariant = { λ a. IsMap (record { q = a.q; rows = a.rows }) };

    ghost inverse = { λ m. record { q = m.q; rows = m.rows } };
}

/// Why a map is refused: the first rule that it breaks.
#[derive(Clone, Copy, Debug, PartialEq, Eq, Error)]
pub enum AffineErr {
    /// The denominator is 0.
    #[error("the denominator of the map is zero")]
    ZeroDenominator,
    /// The denominator is above 2^31, or an entry is outside -2^31 to 2^31.
    #[error("the denominator or an entry of the map is too large")]
    TooLarge,
}

impl Affine {
    /// The map of this denominator and this matrix.
    pub fn new(q: u64, rows: [[i64; 3]; 3]) -> Result<Affine, AffineErr>
        ensures made { IfOk result (λ map. map ≡ record { q = q; rows = rows }) }
        ensures refused { result_err result ≡ broken_map_rule q rows }
    {
        if q == 0 {
            return Err(AffineErr::ZeroDenominator);
        }
        if q > GREATEST || !all_small(&rows) {
            return Err(AffineErr::TooLarge);
        }
        Ok(Affine { q, rows })
    }

    /// The denominator.
    pub fn q(&self) -> u64
        ensures q { result ≡ self.now.q }
        ensures map { IsMap self.now }
    {
        self.q
    }

    /// What the numerator on an axis gains from one column, and from one row, to the next.
    pub fn step(&self, axis: u8) -> [i64; 2]
        requires { axis < 3 }
        ensures { result ≡ steps_of self.now axis }
    {
        let row = self.rows[axis as usize];
        [row[0], row[1]]
    }

    /// What the numerators gain from one column to the next, axis by axis.
    pub fn columns(&self) -> [i64; 3]
        ensures columns { result ≡ columns_of self.now }
        ensures small { IsSmallStep result }
    {
        [self.rows[0][0], self.rows[1][0], self.rows[2][0]]
    }

    /// The numerators of a pixel's point, axis by axis.
    pub fn at(&self, x: u32, y: u32) -> [i64; 3]
        requires x { x < 4096 }
        requires y { y < 4096 }
        ensures point { result ≡ point self.now x y }
        ensures small { IsSmallPoint result }
    {
        [
            numerator(self.rows[0], x, y),
            numerator(self.rows[1], x, y),
            numerator(self.rows[2], x, y),
        ]
    }
}

/// No entry is too large.
fn all_small(rows: &[[i64; 3]; 3]) -> bool
    ensures { result ≡ are_small rows.now }
{
    rows.iter().all(|row| is_small_row(row))
}

fn is_small_row(row: &[i64; 3]) -> bool
    ensures { result ≡ list_all is_small row.now }
{
    row.iter().all(|m| m.unsigned_abs() <= GREATEST)
}

/// The numerator of a pixel's coordinate on an axis.
fn numerator(row: [i64; 3], x: u32, y: u32) -> i64
    requires x { x < 4096 }
    requires y { y < 4096 }
    requires column { unsigned_abs (slice_index_or row 0 (pos 0)) ≤ 2 ^ 31 }
    requires row { unsigned_abs (slice_index_or row 1 (pos 0)) ≤ 2 ^ 31 }
    requires constant { unsigned_abs (slice_index_or row 2 (pos 0)) ≤ 2 ^ 31 }
    ensures numerator { result ≡ numerator_in row x y }
    ensures small { unsigned_abs result ≤ 2 ^ 45 }
{
    sum(scaled(x, row[0]), scaled(y, row[1]), row[2])
}

/// The sum of three parts.
fn sum(column: i64, row: i64, constant: i64) -> i64
    requires column { unsigned_abs column ≤ 2 ^ 43 }
    requires row { unsigned_abs row ≤ 2 ^ 43 }
    requires constant { unsigned_abs constant ≤ 2 ^ 31 }
    ensures sum { result ≡ column +ℤ row +ℤ constant }
    ensures small { unsigned_abs result ≤ 2 ^ 45 }
{
    column + row + constant
}

/// An entry times a coordinate.
fn scaled(x: u32, entry: i64) -> i64
    requires x { x < 4096 }
    requires entry { unsigned_abs entry ≤ 2 ^ 31 }
    ensures product { result ≡ pos x *ℤ entry }
    ensures small { unsigned_abs result ≤ 2 ^ 43 }
{
    x as i64 * entry
}
