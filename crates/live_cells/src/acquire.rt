// Acquiring a cell.
ghost use Rattle.std.specs.Prelude.{◌≡◌, ℕ, ◌+◌, ◌*◌, ◌<◌, ◌≤◌, true, false, [], ◌∷◌, None, length, IfOk, OnErr};
ghost use Rattle.cell_grid.specs.Pyramid.{frame_of};
ghost use Rattle.cell_file.specs.Standing.{width_of};
ghost use Rattle.pin_words.specs.Finding.{pin};
ghost use Rattle.pin_words.specs.Tells.{HasSeen};
ghost use Rattle.pin_rule.specs.Calls.{plan_at, made_of, cell_count, voxel_count, IsHeld};
ghost use Rattle.pin_rule.specs.Hands.{Hands};
ghost use Rattle.turn_cell.specs.Turn as turns;
ghost use Rattle.live_cells.specs.Loads.{Loads, refusal_of_fetch, refusal_of_save};
ghost use Rattle.live_cells.specs.Actors.{doing, IsActorOf};
ghost use Rattle.live_cells.specs.Cells.{IsLiveFor};
ghost use Rattle.live_cells.specs.Steps.{StaysInStep};

use crate::actor::Actor;
use crate::cells::{CellPass, Cells};
use crate::hint::{Ask, Hint, Place};
use crate::loads::load;
use crate::reach::reach;
use crate::room::make_room;
use crate::steps::abandon;
use cell_file::{AcquireErr, FetchErr, SaveErr};
use cell_store::Store;
use pin_rule::{Claim, Handle, Pins};
use std::sync::Wait;
use turn_cell::{Turn, TurnPass};

/// How many cells that were live a pass finds until it tells the hint of one.
const SAMPLE: u32 = 16;

/// The refusal of an acquire, by that of a fetch.
fn refused_fetch(err: FetchErr) -> AcquireErr
    ensures { result ≡ refusal_of_fetch err }
{
    match err {
        FetchErr::ReadFault => AcquireErr::ReadFault,
        FetchErr::Malformed { edited, err } => AcquireErr::Malformed { edited, err },
        FetchErr::TooLong { edited, len, limit } => AcquireErr::TooLong { edited, len, limit },
        FetchErr::Memory => AcquireErr::Memory,
    }
}

/// The refusal of an acquire, by that of a save.
fn refused_save(err: SaveErr) -> AcquireErr
    ensures { result ≡ refusal_of_save err }
{
    match err {
        SaveErr::WriteFault => AcquireErr::WriteFault,
        SaveErr::Memory => AcquireErr::Memory,
    }
}

/// Loads a claimed cell: into a free slot, or that of a cell that leaves.
fn load_claimed<S: Store, R: Wait>(
    rt: &R,
    pins: &Pins<S>,
    turn: &Turn<Hint>,
    actor: &mut Actor<S>,
    asks: &mut TurnPass<Hint>,
    got: &mut Vec<u8>,
    frame: &mut [u64],
    block: &mut [u8],
    claim: Claim,
) -> Result<Handle, AcquireErr>
    requires actor { IsActorOf pins.now actor.old }
    requires asks { turns.IsPassOf turn.now asks.old }
    requires claim { claim.cell < cell_count pins.now }
    requires hands { Hands (claim.cell ∷ []) [] [] None (doing actor.old) }
    requires room { length (doing actor.old).pins < 64 }
    requires frame { frame_of (made_of pins.now).levels.value ≤ length frame.old }
    requires block { (c : ℕ) → c < cell_count pins.now → 16 + width_of (made_of pins.now).levels.value c * voxel_count pins.now c ≤ length block.old }
    ensures actor { IsActorOf pins.now actor.new }
    ensures asks { turns.IsPassOf turn.now asks.new }
    ensures step { StaysInStep asks.old asks.new }
    ensures free { Hands [] [] [] None (doing actor.new) }
    ensures loads { Loads S.contents pins.now claim.cell (doing actor.old) (doing actor.new) result }
    ensures handle { IfOk result (λ h. (h.cell ≡ claim.cell) × (h.marked ≡ false) × (h.loaded ≡ true) × IsHeld pins.now actor.new.pass h × ((doing actor.new).pins ≡ pin claim.cell h.slot false ∷ (doing actor.old).pins)) }
    ensures live { IfOk result (λ h. IsLiveFor (plan_at S.contents pins.now) (doing actor.new) h) }
    ensures refused { OnErr result ((doing actor.new).pins ≡ (doing actor.old).pins) }
    ensures seen { HasSeen (plan_at S.contents pins.now) (doing actor.new) }
{
    let cell = claim.cell();
    match make_room(rt, pins, turn, actor, asks, frame, block) {
        Ok(slot) => {
            let place = Place {
                slot: slot.slot(),
                cell,
            };
            match load(rt, pins, actor, got, frame, claim, slot) {
                Ok(handle) => {
                    turn.ask(rt, asks, Ask::Live(place));
                    Ok(handle)
                }
                Err(err) => Err(refused_fetch(err)),
            }
        }
        Err(err) => {
            abandon(pins, &mut actor.pass, claim);
            Err(refused_save(err))
        }
    }
}

impl<S: Store> Cells<S> {
    ghost use Rattle.live_cells.specs.Cells.{table, knows, IsCellPassOf, IsHandleOf, IsLiveFor, Acquires};

    /// Pins a cell, which is loaded where it is absent. It waits while other passes are in the way: one that loads the cell,
    /// or turns it out, one that has its lane, or as long as each slot has a pin. Where no slot is free, a cell that nobody
    /// has pinned leaves its own; that cell is put first where it is marked. It takes no memory of its own.
    ///
    /// Where the cell is live, this is one step on its word.
    pub fn acquire<R: Wait>(
        &self,
        rt: &R,
        pass: &mut CellPass<S>,
        cell: u32,
    ) -> Result<Handle, AcquireErr>
        requires pass { IsCellPassOf self.now pass.old }
        requires cell { cell < cell_count (table self.now) }
        requires room { length (knows pass.old).pins < 64 }
        ensures pass { IsCellPassOf self.now pass.new }
        ensures acquires { Acquires S.contents (table self.now) cell (knows pass.old) (knows pass.new) result }
        ensures handle { IfOk result (λ h. (h.cell ≡ cell) × (h.marked ≡ false) × IsHandleOf self.now pass.new h) }
        ensures pinned { IfOk result (λ h. ((knows pass.new).pins ≡ pin cell h.slot false ∷ (knows pass.old).pins) × IsLiveFor (plan_at S.contents (table self.now)) (knows pass.new) h) }
        ensures refused { OnErr result ((knows pass.new).pins ≡ (knows pass.old).pins) }
        ensures seen { HasSeen (plan_at S.contents (table self.now)) (knows pass.new) }
    {
        match reach(rt, &self.pins, &mut pass.actor, cell) {
            Ok(handle) => {
                used(rt, &self.turn, &mut pass.asks, &mut pass.hits, &handle);
                Ok(handle)
            }
            Err(claim) => load_claimed(
                rt,
                &self.pins,
                &self.turn,
                &mut pass.actor,
                &mut pass.asks,
                &mut pass.got,
                pass.frame.as_mut_slice(),
                pass.block.as_mut_slice(),
                claim,
            ),
        }
    }
}

/// Tells the hint of one in so many cells that were live.
fn used<R: Wait>(
    rt: &R,
    turn: &Turn<Hint>,
    asks: &mut TurnPass<Hint>,
    hits: &mut u32,
    handle: &Handle,
)
    requires asks { turns.IsPassOf turn.now asks.old }
    ensures asks { turns.IsPassOf turn.now asks.new }
    ensures step { StaysInStep asks.old asks.new }
{
    *hits = hits.wrapping_add(1);
    if *hits % SAMPLE == 0 {
        let place = Place {
            slot: handle.slot(),
            cell: handle.cell(),
        };
        turn.ask(rt, asks, Ask::Used(place));
    }
}
