// What a pass does, on its seat.
ghost use Rattle.std.specs.Prelude.{◌≡◌, ◌+◌, [], ◌∷◌, length, Some, None};
ghost use Rattle.pass_roster.specs.Ends.{AllJoined, IsWhole};
ghost use Rattle.turn_cell.specs.declared.views.Stage.TheVariants.{Idle, Holds};
ghost use Rattle.turn_cell.specs.Entry.{entry, Leads};
ghost use Rattle.turn_cell.specs.PassView.{passes};
ghost use Rattle.turn_cell.specs.Plays.{Taken, adding, Rejoined};
ghost use Rattle.turn_cell.specs.Seats.{IsSeatOf, IsSameSeat};

use crate::plays::{Back, Give, InTurn, Said, Settle, Take};
use crate::seq::Seq;
use crate::views::PassView;
use atomic_table::{Seat, Shared, Table};
use std::alloc::Global;
use std::snapshot::Snapshot;
use std::sync::Wait;
use std::thread;

type View<T> = PassView<T, <T as Seq>::Call, <T as Seq>::Reply>;

pub(crate) type TurnTable<T> = Table<Option<T>, View<T>, Snapshot<T>, InTurn, Global>;

type Words<T> = Shared<Option<T>, View<T>, Snapshot<T>, InTurn>;

type Place<T> = Seat<Option<T>, View<T>>;

// Tries until the value is there, and takes it out.
pub(crate) fn take<T: Seq, R: Wait>(rt: &R, words: &Words<T>, seat: &mut Place<T>) -> T
    requires seat { IsSeatOf words.now.table_id seat.old }
    requires idle { (seat.old.me.0.stage ≡ Idle) × (seat.old.me.1 ≡ []) }
    ensures seat { IsSameSeat seat.old seat.new }
    ensures carries { seat.new.me.1 ≡ (0, None) ∷ [] }
    ensures taken { Taken T.steps seat.old.me.0 result seat.new.me.0 }
{
    for _ in rt.forever() {
        if words.compare_exchange::<Take<T>>(seat, 1, 0, 1) == 0 {
            return words.exchange(seat, 0, None).unwrap();
        }
        thread::yield_now();
    }
    unreachable!()
}

// Puts the value back. The pick `W` says which call was made.
pub(crate) fn give<T: Seq, W: Said<T::Call, T::Reply>>(
    words: &Words<T>,
    seat: &mut Place<T>,
    value: T,
    was: Snapshot<T>,
    call: Snapshot<T::Call>,
    reply: &T::Reply,
)
    requires seat { IsSeatOf words.now.table_id seat.old }
    requires holds { (seat.old.me.0.stage ≡ Holds was.value) × (seat.old.me.1 ≡ (0, None) ∷ []) }
    requires said { (W.call ≡ Some call.value) × (W.reply ≡ Some reply.now) }
    requires step { T.steps was.value seat.old.me.0.number call.value reply.now value }
    ensures seat { IsSameSeat seat.old seat.new }
    ensures carries { seat.new.me.1 ≡ [] }
    ensures given { seat.new.me.0 ≡ adding seat.old.me.0 (entry seat.old.me.0.number call.value reply.now) }
{
    match words.exchange(seat, 0, Some(value)) {
        None => {}
        Some(_) => unreachable!(),
    }
    words.fetch_sub::<Give<W>>(seat, 1, 1);
}

// Joins two seats, and loads word 0 to learn that each had seen a beginning of the history.
pub(crate) fn take_in<T: Seq>(words: &Words<T>, seat: &mut Place<T>, other: Place<T>)
    requires seat { IsSeatOf words.now.table_id seat.old }
    requires other { IsSeatOf words.now.table_id other × (other.me.1 ≡ []) }
    requires idle { (seat.old.me.0.stage ≡ Idle) × (other.me.0.stage ≡ Idle) }
    requires first { seat.old.me.0.number ≡ 0 }
    ensures seat { IsSameSeat seat.old seat.new }
    ensures carries { seat.new.me.1 ≡ seat.old.me.1 }
    ensures joined { Rejoined seat.old.me.0 other.me.0 seat.new.me.0 }
{
    words.join_seat::<Back>(seat, other);
    words.load::<Settle>(seat, 0);
}

// Closes the table with the first pass, and takes the value out.
pub(crate) fn shut<T: Seq>(table: TurnTable<T>, seat: Place<T>) -> T
    requires seat { IsSeatOf table.shared.table_id seat }
    requires first { (seat.me.0.stage ≡ Idle) × (seat.me.0.number ≡ 0) }
    requires all { AllJoined passes seat.me.0 }
    ensures led { Leads T.steps table.shared.key.value seat.me.0.seen result }
    ensures whole { IsWhole passes seat.me.0 }
{
    let mut closed = table.close_with(seat);
    let kept = closed.take(0);
    closed.free();
    kept.unwrap()
}
