// A coordinate that walks without a division.
ghost use Rattle.std.specs.Prelude.{◌≡◌, ◌⊎◌, ℕ, ◌+◌, ◌*◌, ◌<◌, ◌≤◌, ◌^◌, ℤ, pos, ◌+ℤ◌, ◌*ℤ◌, unsigned_abs, IfSome, IfNone};
ghost use Rattle.std.specs.Int.{int_div_euclid, int_rem_euclid};
ghost use Rattle.whole_affine.specs.Parts.{Parts, LiesIn};

/// A coordinate that walks: its quotient and its remainder by one divisor, its step, and the quotient and the remainder of that.
#[derive(Clone, Copy)]
pub(crate) struct Carry {
    pub voxel: i64,
    pub rest: u64,
    pub step: i64,
    pub by: i64,
    pub by_rest: u64,
    pub divisor: u64,
    ghost rest_below: { rest < divisor },
    ghost by_rest_below: { by_rest < divisor },
    ghost step_is: { Parts step divisor by by_rest },
    ghost step_small: { unsigned_abs step ≤ 2 ^ 33 },
    ghost by_small: { unsigned_abs by ≤ 2 ^ 33 },
}

impl Carry {
    /// The coordinate of `total`, that gains `step`, both over `divisor`. It makes the only divisions of a walk.
    pub(crate) fn new(total: i64, step: i64, divisor: u64) -> Carry
        requires divisor { 0 < divisor }
        requires total { unsigned_abs total ≤ 2 ^ 47 }
        requires step { unsigned_abs step ≤ 2 ^ 33 }
        ensures total { Parts total divisor result.voxel result.rest }
        ensures step { Parts step divisor result.by result.by_rest }
        ensures divisor { result.divisor ≡ divisor }
        ensures voxel { unsigned_abs result.voxel ≤ 2 ^ 47 }
        ensures by { unsigned_abs result.by ≤ 2 ^ 33 }
    {
        Carry {
            voxel: quotient(total, divisor),
            rest: remainder(total, divisor),
            step,
            by: quotient(step, divisor),
            by_rest: remainder(step, divisor),
            divisor,
        }
    }

    /// The coordinate of the next column.
    pub(crate) fn next(self) -> Carry
        requires small { unsigned_abs self.voxel + unsigned_abs self.by < 2 ^ 62 }
        ensures next { (t s : ℤ) → Parts t self.divisor self.voxel self.rest → Parts s self.divisor self.by self.by_rest → Parts (t +ℤ s) self.divisor result.voxel result.rest }
        ensures voxel { unsigned_abs result.voxel ≤ unsigned_abs self.voxel + unsigned_abs self.by + 1 }
        ensures by { result.by ≡ self.by }
        ensures by_rest { result.by_rest ≡ self.by_rest }
        ensures divisor { result.divisor ≡ self.divisor }
    {
        let gap = self.divisor - self.by_rest;
        if self.rest < gap {
            let voxel = self.voxel + self.by;
            let rest = self.rest + self.by_rest;
            return Carry {
                voxel,
                rest,
                step: self.step,
                by: self.by,
                by_rest: self.by_rest,
                divisor: self.divisor,
            };
        }
        let voxel = self.voxel + self.by + 1;
        let rest = self.rest - gap;
        Carry {
            voxel,
            rest,
            step: self.step,
            by: self.by,
            by_rest: self.by_rest,
            divisor: self.divisor,
        }
    }

    /// The coordinate so many columns further on. It divides only where the step leaves a remainder.
    pub(crate) fn ahead(self, columns: u32) -> Carry
        requires few { columns ≤ 4096 }
        requires small { unsigned_abs self.voxel ≤ 2 ^ 48 }
        ensures ahead { (t s : ℤ) → Parts t self.divisor self.voxel self.rest → Parts s self.divisor self.by self.by_rest → Parts (t +ℤ (pos columns *ℤ s)) self.divisor result.voxel result.rest }
        ensures voxel { unsigned_abs result.voxel ≤ unsigned_abs self.voxel + columns * (unsigned_abs self.by + 1) }
        ensures by { result.by ≡ self.by }
        ensures by_rest { result.by_rest ≡ self.by_rest }
        ensures divisor { result.divisor ≡ self.divisor }
    {
        let rests = together(self.rest, self.by_rest, columns, self.divisor);
        Carry {
            voxel: moved(self.voxel, columns, self.by, rests.whole),
            rest: rests.rest,
            step: self.step,
            by: self.by,
            by_rest: self.by_rest,
            divisor: self.divisor,
        }
    }

    /// How many columns from here on have the coordinate so near a low one, of at most so many.
    pub(crate) fn columns_in(self, low: u32, side: u32, most: u32) -> u32
        requires few { most ≤ 4096 }
        requires small { unsigned_abs self.voxel ≤ 2 ^ 48 }
        ensures few { result ≤ most }
        ensures inside { (t s : ℤ) → Parts t self.divisor self.voxel self.rest → Parts s self.divisor self.by self.by_rest → (k : ℕ) → k < result → LiesIn (int_div_euclid (t +ℤ (pos k *ℤ s)) (pos self.divisor)) low side }
        ensures end { (t s : ℤ) → Parts t self.divisor self.voxel self.rest → Parts s self.divisor self.by self.by_rest → (result ≡ most) ⊎ (¬ LiesIn (int_div_euclid (t +ℤ (pos result *ℤ s)) (pos self.divisor)) low side) }
    {
        let Some(far) = offset_in(self.voxel, low, side) else {
            return 0;
        };
        if self.step == 0 {
            return most;
        }
        let step = self.step.unsigned_abs();
        if self.step < 0 {
            return reach(far, self.divisor, self.rest, step, most);
        }
        reach(
            side - 1 - far,
            self.divisor,
            self.divisor - 1 - self.rest,
            step,
            most,
        )
    }
}

/// How far a coordinate is from the low one, where that is below the side. LLVM makes one comparison of the two.
fn offset_in(coordinate: i64, low: u32, side: u32) -> Option<u32>
    requires { unsigned_abs coordinate ≤ 2 ^ 48 }
    ensures at { IfSome result (λ at. coordinate ≡ pos (low + at)) }
    ensures below { IfSome result (λ at. at < side) }
    ensures beside { IfNone result (¬ LiesIn coordinate low side) }
{
    let far = coordinate - low as i64;
    if far < 0 || far >= side as i64 {
        return None;
    }
    Some(far as u32)
}

/// A sum of remainders: its quotient and its remainder.
#[derive(Clone, Copy)]
struct Rests {
    whole: u64,
    rest: u64,
}

/// A remainder and so many times another one.
fn together(rest: u64, by_rest: u64, columns: u32, divisor: u64) -> Rests
    requires rest { rest < divisor }
    requires by_rest { by_rest < divisor }
    requires few { columns ≤ 4096 }
    ensures whole { result.whole * divisor + result.rest ≡ rest + columns * by_rest }
    ensures below { result.rest < divisor }
    ensures few { result.whole ≤ columns }
{
    if by_rest == 0 {
        return Rests { whole: 0, rest };
    }
    let all = rest as u128 + columns as u128 * by_rest as u128;
    if all <= u64::MAX as u128 {
        let all = all as u64;
        return Rests {
            whole: all / divisor,
            rest: all % divisor,
        };
    }
    Rests {
        whole: (all / divisor as u128) as u64,
        rest: (all % divisor as u128) as u64,
    }
}

/// A coordinate that so many steps move.
fn moved(voxel: i64, columns: u32, by: i64, whole: u64) -> i64
    requires few { columns ≤ 4096 }
    requires small { unsigned_abs voxel ≤ 2 ^ 48 }
    requires slow { unsigned_abs by ≤ 2 ^ 33 }
    requires whole { whole ≤ columns }
    ensures moved { result ≡ voxel +ℤ (pos columns *ℤ by) +ℤ pos whole }
    ensures small { unsigned_abs result ≤ unsigned_abs voxel + columns * (unsigned_abs by + 1) }
    ensures bounded { unsigned_abs result ≤ 2 ^ 50 }
{
    voxel + steps(columns, by) + whole as i64
}

/// So many steps.
fn steps(columns: u32, by: i64) -> i64
    requires few { columns ≤ 4096 }
    requires slow { unsigned_abs by ≤ 2 ^ 33 }
    ensures product { result ≡ pos columns *ℤ by }
    ensures size { unsigned_abs result ≡ columns * unsigned_abs by }
    ensures small { unsigned_abs result ≤ 2 ^ 45 }
{
    columns as i64 * by
}

/// How many columns, of at most so many, there are from 0 on before steps of this length are together longer than so many divisors
/// and a rest.
fn reach(divisors: u32, divisor: u64, rest: u64, step: u64, most: u32) -> u32
    requires step { 0 < step }
    requires slow { step ≤ 2 ^ 33 }
    requires few { most ≤ 4096 }
    ensures few { result ≤ most }
    ensures within { (k : ℕ) → k < result → k * step ≤ divisors * divisor + rest }
    ensures end { (result ≡ most) ⊎ (divisors * divisor + rest < result * step) }
{
    let room = (divisors as u64)
        .saturating_mul(divisor)
        .saturating_add(rest);
    let columns = room / step;
    if columns < most as u64 {
        return columns as u32 + 1;
    }
    most
}

/// The quotient, rounded down.
fn quotient(total: i64, divisor: u64) -> i64
    requires divisor { 0 < divisor }
    ensures { result ≡ int_div_euclid total (pos divisor) }
{
    (total as i128).div_euclid(divisor as i128) as i64
}

/// What is left over the quotient.
fn remainder(total: i64, divisor: u64) -> u64
    requires divisor { 0 < divisor }
    ensures { pos result ≡ int_rem_euclid total (pos divisor) }
{
    (total as i128).rem_euclid(divisor as i128) as u64
}
