ghost use Rattle.std.specs.Prelude.{◌≡◌, ◌+◌, ◌<◌, ◌^◌, length, IfOk, IfErr};
ghost use Rattle.turn_cell.specs.Seats.{IsTurnTable};

use crate::pass::{Pass, TurnPass};
use crate::plays::{Another, InTurn};
use crate::seat_steps::{give, shut, take, take_in};
use crate::seq::Seq;
use crate::views::PassView;
use atomic_table::{Refused, Table};
use std::alloc::{AllocFailed, Global};
use std::marker::Brand;
use std::snapshot::Snapshot;
use std::sync::Wait;

/// A value that passes use in turn, one whole call at a time. Threads share it by reference.
///
/// Clauses see the value that it was made with as `opened_at`, and what a pass knows as `view`.
pub struct Turn<T: Seq> {
    pub(crate) table: Table<Option<T>, PassView<T, T::Call, T::Reply>, Snapshot<T>, InTurn, Global>,
    ghost sized: { IsTurnTable table.shared.table_id },
}

impl<T: Seq> Turn<T> {
    ghost use Rattle.pass_roster.specs.Ends.{AllJoined, IsWhole};
    ghost use Rattle.turn_cell.specs.Entry.{Leads};
    ghost use Rattle.turn_cell.specs.PassView.{passes, starting, parent, child};
    ghost use Rattle.turn_cell.specs.Plays.{Rejoined};
    ghost use Rattle.turn_cell.specs.Turn.{opened_at, view, IsPassOf, AskedTurn};

    /// A turn with the value at home, and its first pass, which has the number 0. The value comes
    /// back where memory is wanting.
    pub fn new(alloc: Global, value: T) -> Result<(Turn<T>, TurnPass<T>), T>
        ensures pass { IfOk result (λ r. IsPassOf r.0 r.1) }
        ensures opened { IfOk result (λ r. opened_at r.0 ≡ value) }
        ensures first { IfOk result (λ r. view r.1 ≡ starting value) }
        ensures err { IfErr result (λ back. back ≡ value) }
    {
        let about = Snapshot::of(&value);
        let mut slots = Vec::new(alloc);
        if let Err(failed) = slots.push(Some(value)) {
            let AllocFailed { value } = failed;
            slots.destroy_empty();
            return Err(value.unwrap());
        }
        match Table::new(alloc, &[0, 0], slots, &about) {
            Ok((table, seat)) => Ok((
                Turn { table },
                Pass {
                    number: 0,
                    drawn: 1,
                    seat,
                },
            )),
            Err(Refused { mut slots }) => {
                let back = slots.pop();
                slots.destroy_empty();
                Err(back.unwrap().unwrap())
            }
        }
    }

    /// Makes a call as soon as the value is there, and gives its reply. The call is then the last
    /// that the pass has seen. It waits while other passes ask.
    pub fn ask<R: Wait>(&self, rt: &R, pass: &mut TurnPass<T>, call: T::Call) -> T::Reply
        requires { IsPassOf self.now pass.old }
        ensures pass { IsPassOf self.now pass.new }
        ensures asked { AskedTurn T.steps (opened_at self.now) call result (view pass.old) (view pass.new) }
    {
        let seat = &mut pass.seat;
        let words = &self.table.shared;
        let mut value = take(rt, words, seat);
        let was = Snapshot::of(&value);
        let said = Snapshot::of(&call);
        let reply = value.step(pass.number, call);
        give::<T, Brand>(words, seat, value, was, said, &reply);
        reply
    }

    /// Draws the next number for a new pass, which has seen as much as the first. At most 64 are
    /// out at once, the first among them. It takes no memory.
    pub fn split(&self, pass: &mut TurnPass<T>) -> TurnPass<T>
        requires pass { IsPassOf self.now pass.old }
        requires first { (view pass.old).number ≡ 0 }
        requires room { (view pass.old).drawn < length (view pass.old).ended + 64 }
        requires numbers { (view pass.old).drawn < 2 ^ 31 }
        ensures kept { IsPassOf self.now pass.new × (view pass.new ≡ parent (view pass.old)) }
        ensures given { IsPassOf self.now result × (view result ≡ child (view pass.old)) }
    {
        let number = pass.drawn;
        let seat = self.table.shared.split_seat::<Another>(&mut pass.seat);
        pass.drawn += 1;
        Pass {
            number,
            drawn: 0,
            seat,
        }
    }

    /// Takes a pass into the first one, which adds its number and calls to `ended`. What either
    /// had seen is a beginning of what the first has seen then. It takes no memory.
    pub fn join(&self, pass: &mut TurnPass<T>, other: TurnPass<T>)
        requires pass { IsPassOf self.now pass.old }
        requires other { IsPassOf self.now other }
        requires first { (view pass.old).number ≡ 0 }
        ensures pass { IsPassOf self.now pass.new }
        ensures joined { Rejoined (view pass.old) (view other) (view pass.new) }
    {
        take_in(&self.table.shared, &mut pass.seat, other.into_seat());
    }

    /// Ends the turn once all other passes were joined. What the first pass has seen is the whole
    /// history, which leads to the value that comes back. It takes no memory.
    pub fn close(self, pass: TurnPass<T>) -> T
        requires pass { IsPassOf self pass }
        requires first { (view pass).number ≡ 0 }
        requires joined { AllJoined passes (view pass) }
        ensures led { Leads T.steps (opened_at self) (view pass).seen result }
        ensures whole { IsWhole passes (view pass) }
    {
        let Turn { table } = self;
        shut(table, pass.into_seat())
    }
}
