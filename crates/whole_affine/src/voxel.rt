// The voxel that is nearest to a point.
ghost use Rattle.std.specs.Prelude.{◌≡◌, ◌+◌, ◌*◌, ◌≤◌, ◌<◌, ◌^◌, pos, ◌+ℤ◌, unsigned_abs};
ghost use Rattle.std.specs.Int.{int_div_euclid};
ghost use Rattle.whole_affine.specs.Nearest.{nearest, halves_of};

/// The coordinate of the voxel that is nearest to `n / q` in a level of this factor: `(2n + q) / (2 * q * factor)`, rounded down.
///
/// A voxel of the finest level has its middle at a whole number, and a voxel of a coarser level begins where its first finest voxel begins.
pub fn nearest(n: i64, q: u64, factor: u32) -> i64
    requires q { 0 < q }
    requires bounded { q ≤ 2 ^ 31 }
    requires factor { 0 < factor }
    requires small { unsigned_abs n ≤ 2 ^ 45 }
    ensures formula { result ≡ nearest n q factor }
    ensures of_finest { result ≡ int_div_euclid (nearest n q 1) (pos factor) }
    ensures small { unsigned_abs result ≤ 2 ^ 47 }
{
    finest(n, q).div_euclid(factor as i64)
}

/// The nearest voxel in a level of factor 1.
fn finest(n: i64, q: u64) -> i64
    requires q { 0 < q }
    requires bounded { q ≤ 2 ^ 31 }
    requires small { unsigned_abs n ≤ 2 ^ 45 }
    ensures formula { result ≡ nearest n q 1 }
    ensures small { unsigned_abs result ≤ 2 ^ 47 }
{
    halves(n, q).div_euclid(2 * q as i64)
}

/// The point and half a voxel, in halves of the denominator's parts.
pub(crate) fn halves(n: i64, q: u64) -> i64
    requires bounded { q ≤ 2 ^ 31 }
    requires small { unsigned_abs n ≤ 2 ^ 45 }
    ensures sum { result ≡ halves_of n q }
    ensures small { unsigned_abs result ≤ 2 ^ 47 }
{
    n + n + q as i64
}
