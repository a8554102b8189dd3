// The steps on a lane's word, over a seat.
ghost use Rattle.std.specs.Prelude.{◌≡◌, ◌+◌, ◌<◌, Some, None, [], ◌∷◌, length, MatchResult};
ghost use Rattle.pin_words.specs.declared.lane.Taken.{Taken as TakenLane};
ghost use Rattle.pin_words.specs.declared.doing.Stage.TheVariants.{Idle};
ghost use Rattle.pin_words.specs.Account.{Returns};
ghost use Rattle.pin_words.specs.Layout.{lane_at};
ghost use Rattle.pin_words.specs.Lanes.{TakesLane, MissesLane, GivesLane};
ghost use Rattle.pin_rule.specs.Plans.{plan_of};
ghost use Rattle.pin_rule.specs.Calls.{SamePass, Rests, carried};

use crate::pin_steps::Place;
use crate::pins::Words;
use crate::plays::{GiveLane, TakeLane};
use cell_store::Store;

// Takes the store of a lane, or says what word was found.
pub(crate) fn take_lane<S: Store>(
    words: &Words<S>,
    seat: &mut Place<S>,
    lane: u32,
    word: usize,
) -> Result<S, u64>
    requires seat { (seat.old.table_id ≡ words.now.table_id) × (word < words.now.table_id.words) × (lane < words.now.table_id.slots) }
    requires rests { Rests seat.old.me words.now.key }
    requires bare { seat.old.me.0.lane ≡ None }
    requires place { (word ≡ lane_at (plan_of S.contents (Some words.now.key)) lane) × (lane < length words.now.key.stores.value.items) }
    ensures seat { (seat.new.table_id ≡ seat.old.table_id) × (seat.new.id ≡ seat.old.id) × SamePass seat.old.me.0 seat.new.me.0 }
    ensures rests { Rests seat.new.me words.now.key }
    ensures taken { MatchResult result (λ x. TakesLane (plan_of S.contents (Some words.now.key)) seat.old.me.0 lane x seat.new.me.0) (λ n. MissesLane (plan_of S.contents (Some words.now.key)) seat.old.me.0 lane n seat.new.me.0) }
{
    let found = words.compare_exchange::<TakeLane<S>>(seat, word, 0, 1);
    if found != 0 {
        return Err(found);
    }
    let store = words.exchange(seat, lane as usize, None).unwrap();
    Ok(store)
}

// Puts the store of a lane back.
pub(crate) fn put_lane<S: Store>(
    words: &Words<S>,
    seat: &mut Place<S>,
    lane: u32,
    store: S,
    word: usize,
)
    requires seat { (seat.old.table_id ≡ words.now.table_id) × (word < words.now.table_id.words) × (lane < words.now.table_id.slots) }
    requires rests { Rests seat.old.me words.now.key }
    requires place { word ≡ lane_at (plan_of S.contents (Some words.now.key)) lane }
    requires rule { (o : TakenLane _) × (seat.old.me.0.lane ≡ Some o) × (lane ≡ o.lane) × Returns (plan_of S.contents (Some words.now.key)) o seat.old.me.0.seen store }
    ensures seat { (seat.new.table_id ≡ seat.old.table_id) × (seat.new.id ≡ seat.old.id) × SamePass seat.old.me.0 seat.new.me.0 }
    ensures rests { Rests seat.new.me words.now.key }
    ensures given { (o : TakenLane _) × (seat.old.me.0.lane ≡ Some o) × (lane ≡ o.lane) × GivesLane (plan_of S.contents (Some words.now.key)) seat.old.me.0 o store seat.new.me.0 }
{
    match words.exchange(seat, lane as usize, Some(store)) {
        None => {}
        Some(_) => unreachable!(),
    }
    words.store::<GiveLane<S>>(seat, word, 0);
}
