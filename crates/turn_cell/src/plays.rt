// The rule of the table, and what each kind of step tells the pass that makes it.
use crate::seq::Seq;
use crate::views::PassView;
use atomic_table::{Join, Play, Split, TableRule};
use std::marker::{Brand, PhantomData};
use std::snapshot::Snapshot;

// The key is the value that the turn was made with.
pub struct InTurn;

impl<T: Seq> TableRule<Option<T>, PassView<T, T::Call, T::Reply>, Snapshot<T>> for InTurn {
    ghost use Rattle.turn_cell.specs.PassView.{starting};
    ghost use Rattle.turn_cell.specs.Rule.{Turned};

    ghost holds = { λ key. Turned T.steps key.value };

    ghost first = { λ key. starting key.value };
}

// The call that is made and its reply, for the proof alone. A caller at `Brand` picks them.
pub trait Said<C, R> {
    ghost use Rattle.std.specs.Prelude.{Option};

    ghost call: { Option C };

    ghost reply: { Option R };
}

impl<C, R> Said<C, R> for Brand {
    ghost use Rattle.std.specs.Prelude.{None};

    ghost call = { None };

    ghost reply = { None };
}

// The compare-exchange of word 1 from 0 to 1 that takes the value.
pub struct Take<T> {
    of: PhantomData<T>,
}

impl<T: Seq> Play<Option<T>, PassView<T, T::Call, T::Reply>> for Take<T> {
    ghost use Rattle.turn_cell.specs.Plays.{took};

    ghost then = { took T.steps };
}

// The subtraction from word 1 that gives the value back. It is the call's place in the history.
pub struct Give<W> {
    said: PhantomData<W>,
}

impl<T, C, R, W: Said<C, R>> Play<Option<T>, PassView<T, C, R>> for Give<W> {
    ghost use Rattle.turn_cell.specs.Plays.{gave};

    ghost then = { gave W.call W.reply };
}

// The load of word 0 after a join, which tells what the two passes had seen.
pub struct Settle;

impl<T, C, R> Play<Option<T>, PassView<T, C, R>> for Settle {
    ghost use Rattle.turn_cell.specs.Plays.{settled};

    ghost then = { settled };
}

pub struct Another;

impl<T, C, R> Split<PassView<T, C, R>> for Another {
    ghost use Rattle.turn_cell.specs.PassView.{parent, child};

    ghost left = { parent };

    ghost right = { child };
}

pub struct Back;

impl<T, C, R> Join<PassView<T, C, R>> for Back {
    ghost use Rattle.turn_cell.specs.PassView.{joined, spent};

    ghost both = { joined };

    ghost spent = { spent };
}
