// A run of pixels, painted from the numbers that an offset walks over.
ghost use Rattle.std.specs.Prelude.{◌≡◌, ◌⊎◌, ℕ, ◌+◌, ◌<◌, ◌≤◌, ◌^◌, length, slice_index};
ghost use Rattle.whole_affine.specs.Parts.{LiesIn};
ghost use Rattle.whole_affine.specs.Offsets.{offset_ahead, place_ahead, IsStraight};
ghost use Rattle.scale_pick.specs.Shade.{shown};
ghost use Rattle.scale_pick.specs.Runs.{IsBeside};

use crate::shade::Shades;
use whole_affine::OffsetWalk;

/// Pixels one after another, counted row by row: the place of the first, how many they are, and the level that they show.
#[derive(Clone, Copy, Debug, PartialEq, Eq)]
pub struct Run {
    pub first: usize,
    pub columns: u32,
    pub level: u8,
}

/// Sets a run of bytes to those that show the numbers at the offsets of a walk. There are two loops, since LLVM keeps all that the
/// straight one needs in registers.
pub(crate) fn show(values: &mut [u8], run: Run, frame: &[u64], walk: OffsetWalk, shades: Shades)
    requires inside { run.first + run.columns ≤ length values.old }
    requires small { length frame.now ≤ 2 ^ 32 }
    requires offsets { (k : ℕ) → k < run.columns → LiesIn (offset_ahead walk k) 0 (length frame.now) }
    ensures len { length values.new ≡ length values.old }
    ensures shown { (k : ℕ) → k < run.columns → slice_index values.new (run.first + k) ≡ shown (slice_index frame.now (place_ahead walk k)) shades.low shades.high }
    ensures beside { (i : ℕ) → IsBeside run i → slice_index values.new i ≡ slice_index values.old i }
{
    if walk.is_straight() {
        show_straight(values, run, frame, walk, shades);
    } else {
        show_turned(values, run, frame, walk, shades);
    }
}

/// The same by a walk that makes the same step at each column.
fn show_straight(values: &mut [u8], run: Run, frame: &[u64], walk: OffsetWalk, shades: Shades)
    requires inside { run.first + run.columns ≤ length values.old }
    requires small { length frame.now ≤ 2 ^ 32 }
    requires offsets { (k : ℕ) → k < run.columns → LiesIn (offset_ahead walk k) 0 (length frame.now) }
    requires straight { IsStraight walk }
    ensures len { length values.new ≡ length values.old }
    ensures shown { (k : ℕ) → k < run.columns → slice_index values.new (run.first + k) ≡ shown (slice_index frame.now (place_ahead walk k)) shades.low shades.high }
    ensures beside { (i : ℕ) → IsBeside run i → slice_index values.new i ≡ slice_index values.old i }
{
    let mut walk = walk;
    let end = run.first + run.columns as usize;
    for at in run.first..end {
        values[at] = shades.shown(frame[walk.at() as usize]);
        walk = walk.next_straight();
    }
}

/// The same by any walk.
fn show_turned(values: &mut [u8], run: Run, frame: &[u64], walk: OffsetWalk, shades: Shades)
    requires inside { run.first + run.columns ≤ length values.old }
    requires small { length frame.now ≤ 2 ^ 32 }
    requires offsets { (k : ℕ) → k < run.columns → LiesIn (offset_ahead walk k) 0 (length frame.now) }
    ensures len { length values.new ≡ length values.old }
    ensures shown { (k : ℕ) → k < run.columns → slice_index values.new (run.first + k) ≡ shown (slice_index frame.now (place_ahead walk k)) shades.low shades.high }
    ensures beside { (i : ℕ) → IsBeside run i → slice_index values.new i ≡ slice_index values.old i }
{
    let mut walk = walk;
    let end = run.first + run.columns as usize;
    for at in run.first..end {
        values[at] = shades.shown(frame[walk.at() as usize]);
        walk = walk.next();
    }
}

/// Sets a run of levels to the one that it shows.
pub(crate) fn fill(levels: &mut [u8], run: Run)
    requires inside { run.first + run.columns ≤ length levels.old }
    ensures len { length levels.new ≡ length levels.old }
    ensures filled { (k : ℕ) → k < run.columns → slice_index levels.new (run.first + k) ≡ run.level }
    ensures beside { (i : ℕ) → IsBeside run i → slice_index levels.new i ≡ slice_index levels.old i }
{
    let end = run.first + run.columns as usize;
    for at in run.first..end {
        levels[at] = run.level;
    }
}
