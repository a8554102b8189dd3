// The steps of pins, over a seat.
ghost use Rattle.std.specs.Prelude.{◌≡◌, ℕ, ◌+◌, ◌<◌, ◌≤◌, ◌^◌, true, Some, length, MatchResult};
ghost use Rattle.cell_grid.specs.Pyramid.{cells_of, voxels_of};
ghost use Rattle.cell_grid.specs.Kind.{greatest_of};
ghost use Rattle.cell_grid.specs.Pyramid.{kind_of};
ghost use Rattle.pin_words.specs.declared.doing.Stage.TheVariants.{Idle};
ghost use Rattle.pin_words.specs.Finding.{pin as make_pin, has_pin};
ghost use Rattle.pin_words.specs.Layout.{frame_at};
ghost use Rattle.pin_words.specs.Pins.{IsPinned, IsMissed, IsUnpinned, IsMarked, IsRead, IsWritten};
ghost use Rattle.pin_rule.specs.Plans.{plan_of, IsPlanOf};
ghost use Rattle.pin_rule.specs.Calls.{SamePass, Rests, pin_of};

use crate::handles::Handle;
use crate::pass::View;
use crate::pins::Words;
use crate::plays::{About, Mark, Read, Unpin, Visit, WayBack, Write};
use atomic_table::Seat;
use cell_store::Store;

pub(crate) type Place<S> = Seat<Option<S>, View<S>>;

pub(crate) const MARK: u64 = 1 << 24;

pub(crate) const STATE: u64 = 1 << 25;

pub(crate) const SLOT: u64 = 1 << 32;

// Visits a cell. With its slot it is pinned, and else the visit is over; then the word is that which the visit found.
pub(crate) fn visit<S: Store>(words: &Words<S>, seat: &mut Place<S>, cell: u32) -> Result<u64, u64>
    requires seat { (seat.old.table_id ≡ words.now.table_id) × (1 + cell < words.now.table_id.words) }
    requires rests { Rests seat.old.me words.now.key }
    requires room { length seat.old.me.0.pins < 64 }
    requires cell { cell < cells_of words.now.key.levels.value }
    ensures seat { (seat.new.table_id ≡ seat.old.table_id) × (seat.new.id ≡ seat.old.id) × SamePass seat.old.me.0 seat.new.me.0 }
    ensures rests { Rests seat.new.me words.now.key }
    ensures done { MatchResult result (λ s. IsPinned (plan_of S.contents (Some words.now.key)) seat.old.me.0 cell s seat.new.me.0 × (s < 2 ^ 32)) (λ n. IsMissed (plan_of S.contents (Some words.now.key)) seat.old.me.0 cell n seat.new.me.0) }
{
    let found = words.fetch_add::<Visit<S>>(seat, 1 + cell as usize, 1);
    if (found / STATE) % 4 == 2 {
        return Ok(found / SLOT);
    }
    words.fetch_sub::<WayBack<S>>(seat, 1 + cell as usize, 1);
    Err(found)
}

// Ends a pin.
pub(crate) fn leave<S: Store, W: About>(words: &Words<S>, seat: &mut Place<S>, h: &Handle)
    requires seat { (seat.old.table_id ≡ words.now.table_id) × (1 + h.now.cell < words.now.table_id.words) }
    requires rests { Rests seat.old.me words.now.key }
    requires held { has_pin (pin_of h.now) seat.old.me.0 ≡ true }
    requires picked { W.pin ≡ pin_of h.now }
    ensures seat { (seat.new.table_id ≡ seat.old.table_id) × (seat.new.id ≡ seat.old.id) × SamePass seat.old.me.0 seat.new.me.0 }
    ensures rests { Rests seat.new.me words.now.key }
    ensures done { IsUnpinned (plan_of S.contents (Some words.now.key)) seat.old.me.0 (pin_of h.now) seat.new.me.0 }
{
    words.fetch_sub::<Unpin<S, W>>(seat, 1 + h.cell as usize, 1);
}

// Marks the cell of a pin.
pub(crate) fn set_mark<S: Store, W: About>(words: &Words<S>, seat: &mut Place<S>, h: &Handle)
    requires seat { (seat.old.table_id ≡ words.now.table_id) × (1 + h.now.cell < words.now.table_id.words) }
    requires rests { Rests seat.old.me words.now.key }
    requires held { has_pin (pin_of h.now) seat.old.me.0 ≡ true }
    requires picked { W.pin ≡ pin_of h.now }
    ensures seat { (seat.new.table_id ≡ seat.old.table_id) × (seat.new.id ≡ seat.old.id) × SamePass seat.old.me.0 seat.new.me.0 }
    ensures rests { Rests seat.new.me words.now.key }
    ensures done { IsMarked (plan_of S.contents (Some words.now.key)) seat.old.me.0 (pin_of h.now) seat.new.me.0 }
{
    words.fetch_or::<Mark<S, W>>(seat, 1 + h.cell as usize, 1 << 24);
}

// Reads the voxel at an offset, which lies at this word.
pub(crate) fn load_voxel<S: Store, W: About>(
    words: &Words<S>,
    seat: &mut Place<S>,
    h: &Handle,
    at: u32,
    word: usize,
) -> u64
    requires seat { (seat.old.table_id ≡ words.now.table_id) × (word < words.now.table_id.words) }
    requires rests { Rests seat.old.me words.now.key }
    requires held { has_pin (pin_of h.now) seat.old.me.0 ≡ true }
    requires place { (word ≡ frame_at (plan_of S.contents (Some words.now.key)) h.now.slot at) × (at < voxels_of words.now.key.levels.value h.now.cell) }
    requires picked { (W.pin ≡ pin_of h.now) × (W.at ≡ at) }
    ensures seat { (seat.new.table_id ≡ seat.old.table_id) × (seat.new.id ≡ seat.old.id) × SamePass seat.old.me.0 seat.new.me.0 }
    ensures rests { Rests seat.new.me words.now.key }
    ensures done { IsRead (plan_of S.contents (Some words.now.key)) seat.old.me.0 h.now.cell at result seat.new.me.0 }
{
    words.load::<Read<S, W>>(seat, word)
}

// Writes the voxel at an offset, which lies at this word.
pub(crate) fn store_voxel<S: Store, W: About>(
    words: &Words<S>,
    seat: &mut Place<S>,
    h: &Handle,
    at: u32,
    word: usize,
    value: u64,
)
    requires seat { (seat.old.table_id ≡ words.now.table_id) × (word < words.now.table_id.words) }
    requires rests { Rests seat.old.me words.now.key }
    requires made { IsPlanOf words.now.key }
    requires held { (has_pin (pin_of h.now) seat.old.me.0 ≡ true) × (h.now.marked ≡ true) }
    requires place { (word ≡ frame_at (plan_of S.contents (Some words.now.key)) h.now.slot at) × (at < voxels_of words.now.key.levels.value h.now.cell) }
    requires value { value ≤ greatest_of (kind_of words.now.key.levels.value h.now.cell) }
    requires picked { (W.pin ≡ pin_of h.now) × (W.at ≡ at) }
    ensures seat { (seat.new.table_id ≡ seat.old.table_id) × (seat.new.id ≡ seat.old.id) × SamePass seat.old.me.0 seat.new.me.0 }
    ensures rests { Rests seat.new.me words.now.key }
    ensures done { IsWritten (plan_of S.contents (Some words.now.key)) seat.old.me.0 h.now.cell at value seat.new.me.0 }
{
    words.store::<Write<S, W>>(seat, word, value);
}
