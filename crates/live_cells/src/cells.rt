// The cells, and the passes by which threads reach them.
ghost use Rattle.std.specs.Prelude.{◌≡◌, ◌≤◌, [], vec_capacity};
ghost use Rattle.arr_history.specs.Tally.{plus};
ghost use Rattle.pin_rule.specs.Calls.{cell_count};

use crate::actor::Actor;
use crate::begin::Room;
use crate::hint::Hint;
use arr_history::{Tally, Unsaved};
use cell_grid::Geometry;
use cell_store::Store;
use pin_rule::{Pass, Pins};
use std::alloc::Global;
use turn_cell::{Turn, TurnPass};

/// The cells of a cache that threads share by reference.
pub struct Cells<S: Store> {
    pub(crate) alloc: Global,
    pub(crate) pins: Pins<S>,
    pub(crate) turn: Turn<Hint>,
    // room for the cells that can't be put at the end
    pub(crate) unsaved: Vec<Unsaved>,
    ghost roomy: { (unsaved.items ≡ []) × (cell_count pins ≤ vec_capacity unsaved) },
}

/// What a thread reaches cells with: its pass, and room for one frame and one block.
pub struct CellPass<S> {
    pub(crate) actor: Actor<S>,
    // the counts of the passes that were joined into it
    pub(crate) joined: Tally,
    pub(crate) asks: TurnPass<Hint>,
    pub(crate) got: Vec<u8>,
    pub(crate) block: Vec<u8>,
    pub(crate) frame: Vec<u64>,
    // how many cells it found live, cut to 32 bits
    pub(crate) hits: u32,
}

impl<S: Store> Cells<S> {
    ghost use Rattle.pin_rule.specs.Calls.{made_of};
    ghost use Rattle.live_cells.specs.Cells.{table};

    /// The pyramid.
    pub fn geometry(&self) -> &Geometry
        ensures { result.now ≡ (made_of (table self.now)).levels.value }
    {
        self.pins.geometry()
    }
}

impl<S> Drop for CellPass<S> {
    fn drop(self) {
        let Self {
            actor: _,
            joined: _,
            asks: _,
            got: _,
            block: _,
            frame: _,
            hits: _,
        } = self;
    }
}

impl<S> CellPass<S> {
    /// Its pass with its counts, and its pass of the hint.
    pub(crate) fn into_parts(self) -> (Actor<S>, TurnPass<Hint>)
        ensures { (result.0 ≡ self.actor) × (result.1 ≡ self.asks) }
    {
        let Self {
            actor,
            joined: _,
            asks,
            got: _,
            block: _,
            frame: _,
            hits: _,
        } = self;
        (actor, asks)
    }

    /// Its pass, the counts of all that were joined into it and of its own, its pass of the hint, and its room.
    pub(crate) fn into_all(self) -> (Pass<S>, Tally, TurnPass<Hint>, Room)
        ensures passes { (result.0 ≡ self.actor.pass) × (result.2 ≡ self.asks) }
        ensures tally { result.1 ≡ plus self.joined self.actor.tally }
        ensures room { (result.3.block ≡ self.block) × (result.3.frame ≡ self.frame) }
    {
        let Self {
            actor,
            joined,
            asks,
            got,
            block,
            frame,
            hits: _,
        } = self;
        let (pass, tally) = actor.into_parts();
        (pass, joined.plus(tally), asks, Room { got, block, frame })
    }
}
