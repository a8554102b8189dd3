// The steps on a slot's word, over a seat.
ghost use Rattle.std.specs.Prelude.{◌≡◌, ◌+◌, ◌^◌, ◌<◌, ◌≤◌, true, false, Some, IsTrue, MatchOption};
ghost use Rattle.pin_words.specs.Layout.{slot_at};
ghost use Rattle.pin_words.specs.Finding.{has_held};
ghost use Rattle.pin_words.specs.Cells.{TakesSlot, MissesSlot, MissesSlots, TakesFirst, GivesSlot};
ghost use Rattle.pin_rule.specs.Plans.{plan_of};
ghost use Rattle.pin_rule.specs.Calls.{SamePass, Rests};

use crate::pin_steps::Place;
use crate::pins::Words;
use crate::plays::{GiveSlot, TakeSlot};
use cell_store::Store;

// Takes a slot where it is free, and says whether it was.
pub(crate) fn take_slot<S: Store>(
    words: &Words<S>,
    seat: &mut Place<S>,
    slot: u32,
    word: usize,
) -> bool
    requires seat { (seat.old.table_id ≡ words.now.table_id) × (word < words.now.table_id.words) }
    requires rests { Rests seat.old.me words.now.key }
    requires place { (word ≡ slot_at (plan_of S.contents (Some words.now.key)) slot) × (slot < words.now.key.slots) }
    ensures seat { (seat.new.table_id ≡ seat.old.table_id) × (seat.new.id ≡ seat.old.id) × SamePass seat.old.me.0 seat.new.me.0 }
    ensures rests { Rests seat.new.me words.now.key }
    ensures free { result ≡ true → TakesSlot (plan_of S.contents (Some words.now.key)) seat.old.me.0 slot seat.new.me.0 }
    ensures taken { result ≡ false → MissesSlot (plan_of S.contents (Some words.now.key)) seat.old.me.0 slot seat.new.me.0 }
{
    let found = words.compare_exchange::<TakeSlot<S>>(seat, word, 0, 1);
    found == 0
}

// Tries each slot in turn, until one is free; `first` is the word of slot 0.
pub(crate) fn scan_slots<S: Store>(
    words: &Words<S>,
    seat: &mut Place<S>,
    slots: u32,
    first: usize,
) -> Option<u32>
    requires seat { (seat.old.table_id ≡ words.now.table_id) × (first + slots ≤ words.now.table_id.words) }
    requires rests { Rests seat.old.me words.now.key }
    requires small { (0 < slots) × (first ≤ 2 ^ 19) }
    requires place { (first ≡ slot_at (plan_of S.contents (Some words.now.key)) 0) × (slots ≡ words.now.key.slots) }
    ensures seat { (seat.new.table_id ≡ seat.old.table_id) × (seat.new.id ≡ seat.old.id) × SamePass seat.old.me.0 seat.new.me.0 }
    ensures rests { Rests seat.new.me words.now.key }
    ensures done { MatchOption result (MissesSlots (plan_of S.contents (Some words.now.key)) seat.old.me.0 slots seat.new.me.0) (λ s. (s < slots) × TakesFirst (plan_of S.contents (Some words.now.key)) seat.old.me.0 s seat.new.me.0) }
{
    for slot in 0..slots {
        if take_slot(words, seat, slot, first + slot as usize) {
            return Some(slot);
        }
    }
    None
}

// Frees a slot of the pass.
pub(crate) fn free_slot<S: Store>(words: &Words<S>, seat: &mut Place<S>, slot: u32, word: usize)
    requires seat { (seat.old.table_id ≡ words.now.table_id) × (word < words.now.table_id.words) }
    requires rests { Rests seat.old.me words.now.key }
    requires place { word ≡ slot_at (plan_of S.contents (Some words.now.key)) slot }
    requires held { has_held slot seat.old.me.0 ≡ true }
    ensures seat { (seat.new.table_id ≡ seat.old.table_id) × (seat.new.id ≡ seat.old.id) × SamePass seat.old.me.0 seat.new.me.0 }
    ensures rests { Rests seat.new.me words.now.key }
    ensures done { GivesSlot seat.old.me.0 slot seat.new.me.0 }
{
    words.store::<GiveSlot<S>>(seat, word, 0);
}
