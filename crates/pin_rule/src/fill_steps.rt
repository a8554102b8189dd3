// The steps on a frame's words that fill it, and the load from a closed cell, over a seat.
ghost use Rattle.std.specs.Prelude.{◌≡◌, ℕ, ◌+◌, ◌<◌, ◌≤◌, true, [], ◌∷◌, ◌++◌, Some, length, take, slice_index};
ghost use Rattle.cell_grid.specs.Pyramid.{voxels_of, frame_of, kind_of};
ghost use Rattle.cell_grid.specs.Kind.{greatest_of};
ghost use Rattle.pin_words.specs.declared.lane.Taken.{Taken as TakenLane};
ghost use Rattle.pin_words.specs.Plan.{lane_of};
ghost use Rattle.pin_words.specs.Account.{filled_in};
ghost use Rattle.pin_words.specs.Layout.{frame_at};
ghost use Rattle.pin_words.specs.Finding.{has_claim, has_held, held_of, helds_without, left_of};
ghost use Rattle.pin_words.specs.Cells.{Stores, Fills, IsFilled, IsDue, IsFrameNumber};
ghost use Rattle.pin_rule.specs.Plans.{plan_of, IsPlanOf};
ghost use Rattle.pin_rule.specs.Calls.{SamePass, Rests, IsMyLeaving};

use crate::pin_steps::Place;
use crate::pins::Words;
use crate::plays::{About, LookAt, StoreLast, StoreNumber};
use cell_store::Store;

// Stores a number of a frame, after those that are there.
pub(crate) fn store_number<S: Store>(
    words: &Words<S>,
    seat: &mut Place<S>,
    slot: u32,
    at: usize,
    value: u64,
    word: usize,
)
    requires seat { (seat.old.table_id ≡ words.now.table_id) × (word < words.now.table_id.words) }
    requires rests { Rests seat.old.me words.now.key }
    requires made { IsPlanOf words.now.key }
    requires place { (word ≡ frame_at (plan_of S.contents (Some words.now.key)) slot at) × (at < frame_of words.now.key.levels.value) }
    requires held { (has_held slot seat.old.me.0 ≡ true) × (at ≤ length (held_of slot seat.old.me.0).words) }
    ensures seat { (seat.new.table_id ≡ seat.old.table_id) × (seat.new.id ≡ seat.old.id) × SamePass seat.old.me.0 seat.new.me.0 }
    ensures rests { Rests seat.new.me words.now.key }
    ensures done { Stores seat.old.me.0 slot (take at (held_of slot seat.old.me.0).words) value seat.new.me.0 }
{
    words.store::<StoreNumber<S>>(seat, word, value);
}

// Stores the last number of a frame, which fills it for the cell.
pub(crate) fn store_last<S: Store, W: About>(
    words: &Words<S>,
    seat: &mut Place<S>,
    cell: u32,
    slot: u32,
    at: usize,
    value: u64,
    word: usize,
)
    requires seat { (seat.old.table_id ≡ words.now.table_id) × (word < words.now.table_id.words) }
    requires rests { Rests seat.old.me words.now.key }
    requires made { IsPlanOf words.now.key }
    requires place { (word ≡ frame_at (plan_of S.contents (Some words.now.key)) slot at) × (at < frame_of words.now.key.levels.value) × (at + 1 ≡ voxels_of words.now.key.levels.value cell) }
    requires claim { has_claim cell seat.old.me.0 ≡ true }
    requires held { (has_held slot seat.old.me.0 ≡ true) × (at ≤ length (held_of slot seat.old.me.0).words) × (filled_in cell (helds_without slot seat.old.me.0) ≡ 0) }
    requires fits { (i : ℕ) → i < voxels_of words.now.key.levels.value cell → slice_index (take at (held_of slot seat.old.me.0).words ++ value ∷ []) i ≤ greatest_of (kind_of words.now.key.levels.value cell) }
    requires lane { (o : TakenLane _) × (seat.old.me.0.lane ≡ Some o) × (lane_of (plan_of S.contents (Some words.now.key)) cell ≡ o.lane) × IsDue (plan_of S.contents (Some words.now.key)) o cell (take at (held_of slot seat.old.me.0).words ++ value ∷ []) }
    requires picked { W.pin.cell ≡ cell }
    ensures seat { (seat.new.table_id ≡ seat.old.table_id) × (seat.new.id ≡ seat.old.id) × SamePass seat.old.me.0 seat.new.me.0 }
    ensures rests { Rests seat.new.me words.now.key }
    ensures done { (o : TakenLane _) × (seat.old.me.0.lane ≡ Some o) × Fills seat.old.me.0 cell slot (take at (held_of slot seat.old.me.0).words) value o seat.new.me.0 }
{
    words.store::<StoreLast<S, W>>(seat, word, value);
}

// Stores all numbers of a frame, whose first word is `first`.
pub(crate) fn fill_frame<S: Store, W: About>(
    words: &Words<S>,
    seat: &mut Place<S>,
    cell: u32,
    slot: u32,
    values: &[u64],
    first: usize,
)
    requires seat { (seat.old.table_id ≡ words.now.table_id) × (first + length values.now ≤ words.now.table_id.words) }
    requires rests { Rests seat.old.me words.now.key }
    requires made { IsPlanOf words.now.key }
    requires place { first ≡ frame_at (plan_of S.contents (Some words.now.key)) slot 0 }
    requires claim { has_claim cell seat.old.me.0 ≡ true }
    requires held { (has_held slot seat.old.me.0 ≡ true) × (filled_in cell (helds_without slot seat.old.me.0) ≡ 0) }
    requires values { (length values.now ≡ voxels_of words.now.key.levels.value cell) × (0 < length values.now) × (length values.now ≤ frame_of words.now.key.levels.value) }
    requires fits { (i : ℕ) → i < voxels_of words.now.key.levels.value cell → slice_index values.now i ≤ greatest_of (kind_of words.now.key.levels.value cell) }
    requires lane { (o : TakenLane _) × (seat.old.me.0.lane ≡ Some o) × (lane_of (plan_of S.contents (Some words.now.key)) cell ≡ o.lane) × IsDue (plan_of S.contents (Some words.now.key)) o cell values.now }
    requires picked { W.pin.cell ≡ cell }
    ensures seat { (seat.new.table_id ≡ seat.old.table_id) × (seat.new.id ≡ seat.old.id) × SamePass seat.old.me.0 seat.new.me.0 }
    ensures rests { Rests seat.new.me words.now.key }
    ensures done { IsFilled seat.old.me.0 cell slot values.now seat.new.me.0 }
{
    let last = values.len() - 1;
    for i in 0..last {
        store_number(words, seat, slot, i, values[i], first + i);
    }
    store_last::<S, W>(words, seat, cell, slot, last, values[last], first + last);
}

// The number at an offset of a closed cell, which lies at this word.
pub(crate) fn look_at<S: Store, W: About>(
    words: &Words<S>,
    seat: &mut Place<S>,
    cell: u32,
    slot: u32,
    marked: bool,
    at: u32,
    word: usize,
) -> u64
    requires seat { (seat.old.table_id ≡ words.now.table_id) × (word < words.now.table_id.words) }
    requires rests { Rests seat.old.me words.now.key }
    requires made { IsPlanOf words.now.key }
    requires place { (word ≡ frame_at (plan_of S.contents (Some words.now.key)) slot at) × (at < voxels_of words.now.key.levels.value cell) }
    requires leaving { IsMyLeaving seat.old.me.0 cell slot marked }
    requires picked { (W.pin.cell ≡ cell) × (W.at ≡ at) }
    ensures seat { (seat.new.table_id ≡ seat.old.table_id) × (seat.new.id ≡ seat.old.id) × (seat.new.me ≡ seat.old.me) }
    ensures done { IsFrameNumber (plan_of S.contents (Some words.now.key)) (left_of cell seat.old.me.0) at result }
{
    words.load::<LookAt<S, W>>(seat, word)
}
