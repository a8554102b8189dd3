// The steps on a cell's word that load it or turn it out, over a seat.
ghost use Rattle.std.specs.Prelude.{◌≡◌, ℕ, ◌+◌, ◌*◌, ◌^◌, ◌<◌, ◌≤◌, true, Some, length, MatchResult};
ghost use Rattle.cell_grid.specs.Pyramid.{cells_of};
ghost use Rattle.pin_words.specs.declared.lane.Taken.{Taken as TakenLane};
ghost use Rattle.pin_words.specs.Plan.{lane_of};
ghost use Rattle.pin_words.specs.Account.{filled};
ghost use Rattle.pin_words.specs.Layout.{loading_word, live_word, leaving_word};
ghost use Rattle.pin_words.specs.Finding.{has_claim};
ghost use Rattle.pin_words.specs.Cells.{IsClaimed, IsTaken, IsDropped, IsPublished, IsClosed, IsBusy, IsGone, IsBack};
ghost use Rattle.pin_rule.specs.Plans.{plan_of, IsPlanOf};
ghost use Rattle.pin_rule.specs.Calls.{SamePass, Rests, IsMySlot, IsMyLeaving};

use crate::pin_steps::Place;
use crate::pins::Words;
use crate::plays::{ClaimCell, CloseCell, ComeBack, DropClaim, LetGo, Publish};
use cell_store::Store;

pub(crate) const LOADING: u64 = 1 << 25;

// Claims an absent cell, or says what word was found.
pub(crate) fn claim_cell<S: Store>(
    words: &Words<S>,
    seat: &mut Place<S>,
    cell: u32,
) -> Result<(), u64>
    requires seat { (seat.old.table_id ≡ words.now.table_id) × (1 + cell < words.now.table_id.words) }
    requires rests { Rests seat.old.me words.now.key }
    requires cell { cell < cells_of words.now.key.levels.value }
    ensures seat { (seat.new.table_id ≡ seat.old.table_id) × (seat.new.id ≡ seat.old.id) × SamePass seat.old.me.0 seat.new.me.0 }
    ensures rests { Rests seat.new.me words.now.key }
    ensures done { MatchResult result (λ _. IsClaimed (plan_of S.contents (Some words.now.key)) seat.old.me.0 cell seat.new.me.0) (λ n. IsTaken (plan_of S.contents (Some words.now.key)) seat.old.me.0 cell n seat.new.me.0) }
{
    let found = words.compare_exchange::<ClaimCell<S>>(seat, 1 + cell as usize, 0, LOADING);
    if found != 0 {
        return Err(found);
    }
    Ok(())
}

// Drops a claim.
pub(crate) fn drop_claim<S: Store>(words: &Words<S>, seat: &mut Place<S>, cell: u32)
    requires seat { (seat.old.table_id ≡ words.now.table_id) × (1 + cell < words.now.table_id.words) }
    requires rests { Rests seat.old.me words.now.key }
    requires claim { (has_claim cell seat.old.me.0 ≡ true) × (filled cell seat.old.me.0 ≡ 0) }
    ensures seat { (seat.new.table_id ≡ seat.old.table_id) × (seat.new.id ≡ seat.old.id) × SamePass seat.old.me.0 seat.new.me.0 }
    ensures rests { Rests seat.new.me words.now.key }
    ensures done { IsDropped (plan_of S.contents (Some words.now.key)) seat.old.me.0 cell seat.new.me.0 }
{
    words.fetch_sub::<DropClaim<S>>(seat, 1 + cell as usize, LOADING);
}

// Makes a claimed cell live in a slot; `number` is what its word grows by.
pub(crate) fn publish_cell<S: Store>(
    words: &Words<S>,
    seat: &mut Place<S>,
    cell: u32,
    slot: u32,
    number: u64,
)
    requires seat { (seat.old.table_id ≡ words.now.table_id) × (1 + cell < words.now.table_id.words) }
    requires rests { Rests seat.old.me words.now.key }
    requires made { IsPlanOf words.now.key }
    requires number { number ≡ loading_word + 1 + slot * 2 ^ 32 }
    requires room { length seat.old.me.0.pins < 64 }
    requires claim { has_claim cell seat.old.me.0 ≡ true }
    requires slot { IsMySlot seat.old.me.0 slot (Some cell) }
    ensures seat { (seat.new.table_id ≡ seat.old.table_id) × (seat.new.id ≡ seat.old.id) × SamePass seat.old.me.0 seat.new.me.0 }
    ensures rests { Rests seat.new.me words.now.key }
    ensures done { IsPublished (plan_of S.contents (Some words.now.key)) seat.old.me.0 cell slot seat.new.me.0 }
{
    words.fetch_add::<Publish<S>>(seat, 1 + cell as usize, number);
}

// Closes a live cell with no pin, whose word is `old`, or says what word was found.
pub(crate) fn close_cell<S: Store>(
    words: &Words<S>,
    seat: &mut Place<S>,
    cell: u32,
    slot: u32,
    marked: bool,
    old: u64,
    new: u64,
) -> Result<(), u64>
    requires seat { (seat.old.table_id ≡ words.now.table_id) × (1 + cell < words.now.table_id.words) }
    requires rests { Rests seat.old.me words.now.key }
    requires cell { cell < cells_of words.now.key.levels.value }
    requires numbers { (old ≡ live_word slot marked) × (new ≡ leaving_word slot marked) }
    ensures seat { (seat.new.table_id ≡ seat.old.table_id) × (seat.new.id ≡ seat.old.id) × SamePass seat.old.me.0 seat.new.me.0 }
    ensures rests { Rests seat.new.me words.now.key }
    ensures done { MatchResult result (λ _. IsClosed (plan_of S.contents (Some words.now.key)) seat.old.me.0 cell slot marked seat.new.me.0) (λ n. IsBusy (plan_of S.contents (Some words.now.key)) seat.old.me.0 cell slot marked n seat.new.me.0) }
{
    let found = words.compare_exchange::<CloseCell<S>>(seat, 1 + cell as usize, old, new);
    if found != old {
        return Err(found);
    }
    Ok(())
}

// Lets a closed cell go; `number` is the word of it without count.
pub(crate) fn go_cell<S: Store>(
    words: &Words<S>,
    seat: &mut Place<S>,
    cell: u32,
    slot: u32,
    marked: bool,
    number: u64,
)
    requires seat { (seat.old.table_id ≡ words.now.table_id) × (1 + cell < words.now.table_id.words) }
    requires rests { Rests seat.old.me words.now.key }
    requires made { IsPlanOf words.now.key }
    requires number { number ≡ leaving_word slot marked }
    requires leaving { IsMyLeaving seat.old.me.0 cell slot marked }
    requires lane { marked ≡ true → (o : TakenLane _) × (seat.old.me.0.lane ≡ Some o) × (lane_of (plan_of S.contents (Some words.now.key)) cell ≡ o.lane) }
    ensures seat { (seat.new.table_id ≡ seat.old.table_id) × (seat.new.id ≡ seat.old.id) × SamePass seat.old.me.0 seat.new.me.0 }
    ensures rests { Rests seat.new.me words.now.key }
    ensures done { IsGone (plan_of S.contents (Some words.now.key)) seat.old.me.0 cell seat.new.me.0 }
{
    words.fetch_sub::<LetGo<S>>(seat, 1 + cell as usize, number);
}

// Makes a closed and marked cell live again.
pub(crate) fn back_cell<S: Store>(words: &Words<S>, seat: &mut Place<S>, cell: u32, slot: u32)
    requires seat { (seat.old.table_id ≡ words.now.table_id) × (1 + cell < words.now.table_id.words) }
    requires rests { Rests seat.old.me words.now.key }
    requires made { IsPlanOf words.now.key }
    requires leaving { IsMyLeaving seat.old.me.0 cell slot true }
    ensures seat { (seat.new.table_id ≡ seat.old.table_id) × (seat.new.id ≡ seat.old.id) × SamePass seat.old.me.0 seat.new.me.0 }
    ensures rests { Rests seat.new.me words.now.key }
    ensures done { IsBack (plan_of S.contents (Some words.now.key)) seat.old.me.0 cell seat.new.me.0 }
{
    words.fetch_sub::<ComeBack<S>>(seat, 1 + cell as usize, LOADING);
}
