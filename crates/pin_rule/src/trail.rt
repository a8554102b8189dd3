// The end of a table, and the whole history of it.
ghost use Rattle.std.specs.Prelude.{◌≡◌, ℕ, ◌<◌, ◌≤◌, [], Some, None, length, vec_capacity};
ghost use mathlib.Core.Option.{some};
ghost use lib.ListN.{get_elem?};
ghost use Rattle.pass_roster.specs.Ends.{AllJoined};
ghost use Rattle.pin_words.specs.Words.{passes};
ghost use Rattle.pin_words.specs.Tells.{IsLone};
ghost use Rattle.pin_words.specs.Ends.{IsBare, IsHistory, Settled};
ghost use Rattle.pin_rule.specs.Plans.{plan_of, IsTable};
ghost use Rattle.pin_rule.specs.Calls.{view, plan_at, made_of, IsPassOf, Rests, AreSettled};
ghost use Rattle.pin_rule.specs.Trails.{events_of};

use crate::ends::CellTable;
use crate::pass::{Pass, View};
use crate::pin_steps::Place;
use crate::pins::Pins;
use crate::plays::ForTrail;
use crate::stores::drain;
use atomic_table::Badge;
use cell_store::Store;

/// The whole history of a table that was closed, as clauses see it. It has no bytes.
pub struct Trail<S> {
    badge: Badge<View<S>>,
}

impl<S> Drop for Trail<S> {
    fn drop(self) {
        let Self { badge: _ } = self;
    }
}

impl<S: Store> Pins<S> {
    /// Ends the table, once all other passes were joined and nothing is held. The stores come back in the order of the lanes,
    /// in the list in which they came, and what the first pass has seen is the whole history.
    pub fn close(self, pass: Pass<S>) -> (Vec<S>, Trail<S>)
        requires pass { IsPassOf self pass }
        requires first { (view pass).number ≡ 0 }
        requires joined { AllJoined passes (view pass) }
        requires bare { IsBare (view pass) }
        ensures stores { AreSettled (plan_at S.contents self) (view pass) result.0.items }
        ensures trail { events_of result.1 ≡ (view pass).seen }
        ensures history { IsHistory (plan_at S.contents self) (view pass) }
    {
        let Pins {
            table,
            alloc: _,
            geometry: _,
            keys: _,
            cells: _,
            slots: _,
            lanes: _,
            frame: _,
        } = self;
        let (seat, mut list) = pass.into_parts();
        let trail = shut(table, seat, &mut list);
        (list, trail)
    }
}

// Closes the table with the first pass, and takes the stores out.
fn shut<S: Store>(table: CellTable<S>, mut seat: Place<S>, list: &mut Vec<S>) -> Trail<S>
    requires seat { seat.table_id ≡ table.shared.table_id }
    requires table { IsTable table.shared.key table.shared.table_id.words table.shared.table_id.slots }
    requires rests { Rests seat.me table.shared.key }
    requires lone { IsLone seat.me.0 }
    requires bare { IsBare seat.me.0 }
    requires list { (list.old.items ≡ []) × (length table.shared.key.stores.value.items ≤ vec_capacity list.old) }
    ensures stores { AreSettled (plan_of S.contents (Some table.shared.key)) seat.me.0 list.new.items }
    ensures trail { events_of result ≡ seat.me.0.seen }
    ensures history { IsHistory (plan_of S.contents (Some table.shared.key)) seat.me.0 }
{
    let badge = table.shared.split_seat::<ForTrail>(&mut seat).into_badge();
    let mut closed = table.close_with(seat);
    drain(&mut closed, list);
    closed.free();
    Trail { badge }
}
