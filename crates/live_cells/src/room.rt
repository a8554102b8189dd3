// A slot for a claimed cell: a free one, or that of a cell that leaves.
ghost use Rattle.std.specs.Prelude.{◌≡◌, ℕ, ◌+◌, ◌*◌, ◌<◌, ◌≤◌, [], ◌∷◌, Some, None, length, IfOk, IfErr, OnOk, IfSome, IfNone};
ghost use Rattle.cell_grid.specs.Pyramid.{frame_of};
ghost use Rattle.cell_file.specs.Standing.{width_of};
ghost use Rattle.pin_words.specs.Cells.{held};
ghost use Rattle.pin_rule.specs.Calls.{plan_at, made_of, cell_count, slot_count, voxel_count};
ghost use Rattle.pin_rule.specs.Going.{Goes};
ghost use Rattle.pin_rule.specs.Hands.{Hands};
ghost use Rattle.turn_cell.specs.Turn as turns;
ghost use Rattle.live_cells.specs.Turning.{TurnsOut, StaysOut, MadeRoom, KeptOut};
ghost use Rattle.live_cells.specs.Actors.{doing, IsActorOf};
ghost use Rattle.live_cells.specs.Steps.{StaysInStep};

use crate::actor::Actor;
use crate::hint::{Ask, Hint, Place};
use crate::leaves::close;
use crate::patience::Patience;
use crate::steps::scan;
use crate::victims::turn_out;
use cell_file::SaveErr;
use cell_store::Store;
use pin_rule::{Pins, Slot};
use std::sync::Wait;
use turn_cell::{Turn, TurnPass};

/// Turns the cell of the place out, where it is there and has no pin.
fn replace<S: Store, R: Wait>(
    rt: &R,
    pins: &Pins<S>,
    actor: &mut Actor<S>,
    place: Place,
    frame: &mut [u64],
    block: &mut [u8],
) -> Option<Result<Slot, SaveErr>>
    requires actor { IsActorOf pins.now actor.old }
    requires place { (place.cell < cell_count pins.now) × (place.slot < slot_count pins.now) }
    requires hands { Hands (doing actor.old).claims [] [] None (doing actor.old) }
    requires frame { frame_of (made_of pins.now).levels.value ≤ length frame.old }
    requires room { (c : ℕ) → c < cell_count pins.now → 16 + width_of (made_of pins.now).levels.value c * voxel_count pins.now c ≤ length block.old }
    ensures actor { IsActorOf pins.now actor.new }
    ensures pins { (doing actor.new).pins ≡ (doing actor.old).pins }
    ensures slot { IfSome result (λ r. IfOk r (λ s. (s.slot < slot_count pins.now) × (s.filled ≡ None) × Hands (doing actor.old).claims (held s.slot None [] ∷ []) [] None (doing actor.new))) }
    ensures turned { IfSome result (λ r. OnOk r (TurnsOut (plan_at S.contents pins.now) (doing actor.old) (doing actor.new))) }
    ensures stays { IfSome result (λ r. IfErr r (λ e. Hands (doing actor.old).claims [] [] None (doing actor.new) × StaysOut (plan_at S.contents pins.now) (doing actor.old) (doing actor.new) e)) }
    ensures none { IfNone result (Hands (doing actor.old).claims [] [] None (doing actor.new) × Goes (plan_at S.contents pins.now) (doing actor.old) [] (doing actor.new)) }
{
    let leaving = close(pins, &mut actor.pass, place.cell, place.slot)?;
    Some(turn_out(rt, pins, actor, leaving, frame, block))
}

/// The place that is to leave next, where the hint has one.
fn next_place<S: Store, R: Wait>(
    rt: &R,
    pins: &Pins<S>,
    turn: &Turn<Hint>,
    asks: &mut TurnPass<Hint>,
) -> Option<Place>
    requires asks { turns.IsPassOf turn.now asks.old }
    ensures asks { turns.IsPassOf turn.now asks.new }
    ensures step { StaysInStep asks.old asks.new }
    ensures place { IfSome result (λ place. (place.cell < cell_count pins.now) × (place.slot < slot_count pins.now)) }
{
    let place = turn.ask(rt, asks, Ask::Next)?;
    if place.cell < pins.geometry().cells() && place.slot < pins.slots() {
        Some(place)
    } else {
        None
    }
}

/// Takes a free slot, or that of the place that is to leave next. None where another pass is in the way.
fn try_room<S: Store, R: Wait>(
    rt: &R,
    pins: &Pins<S>,
    turn: &Turn<Hint>,
    actor: &mut Actor<S>,
    asks: &mut TurnPass<Hint>,
    frame: &mut [u64],
    block: &mut [u8],
) -> Option<Result<Slot, SaveErr>>
    requires actor { IsActorOf pins.now actor.old }
    requires asks { turns.IsPassOf turn.now asks.old }
    requires hands { Hands (doing actor.old).claims [] [] None (doing actor.old) }
    requires frame { frame_of (made_of pins.now).levels.value ≤ length frame.old }
    requires room { (c : ℕ) → c < cell_count pins.now → 16 + width_of (made_of pins.now).levels.value c * voxel_count pins.now c ≤ length block.old }
    ensures actor { IsActorOf pins.now actor.new }
    ensures asks { turns.IsPassOf turn.now asks.new }
    ensures step { StaysInStep asks.old asks.new }
    ensures pins { (doing actor.new).pins ≡ (doing actor.old).pins }
    ensures slot { IfSome result (λ r. IfOk r (λ s. (s.slot < slot_count pins.now) × (s.filled ≡ None) × Hands (doing actor.old).claims (held s.slot None [] ∷ []) [] None (doing actor.new))) }
    ensures made { IfSome result (λ r. OnOk r (MadeRoom (plan_at S.contents pins.now) (doing actor.old) (doing actor.new))) }
    ensures kept_out { IfSome result (λ r. IfErr r (λ e. Hands (doing actor.old).claims [] [] None (doing actor.new) × KeptOut (plan_at S.contents pins.now) (doing actor.old) (doing actor.new) e)) }
    ensures none { IfNone result (Hands (doing actor.old).claims [] [] None (doing actor.new) × Goes (plan_at S.contents pins.now) (doing actor.old) [] (doing actor.new)) }
{
    if let Ok(slot) = scan(pins, &mut actor.pass) {
        return Some(Ok(slot));
    }
    let place = next_place(rt, pins, turn, asks)?;
    match replace(rt, pins, actor, place, frame, block) {
        Some(room) => {
            if room.is_err() {
                turn.ask(rt, asks, Ask::Used(place));
            }
            Some(room)
        }
        None => {
            turn.ask(rt, asks, Ask::Used(place));
            None
        }
    }
}

/// Takes a free slot, or that of a cell that leaves, as soon as there is one. Refused where that cell can't be put.
pub(crate) fn make_room<S: Store, R: Wait>(
    rt: &R,
    pins: &Pins<S>,
    turn: &Turn<Hint>,
    actor: &mut Actor<S>,
    asks: &mut TurnPass<Hint>,
    frame: &mut [u64],
    block: &mut [u8],
) -> Result<Slot, SaveErr>
    requires actor { IsActorOf pins.now actor.old }
    requires asks { turns.IsPassOf turn.now asks.old }
    requires hands { Hands (doing actor.old).claims [] [] None (doing actor.old) }
    requires frame { frame_of (made_of pins.now).levels.value ≤ length frame.old }
    requires room { (c : ℕ) → c < cell_count pins.now → 16 + width_of (made_of pins.now).levels.value c * voxel_count pins.now c ≤ length block.old }
    ensures actor { IsActorOf pins.now actor.new }
    ensures asks { turns.IsPassOf turn.now asks.new }
    ensures step { StaysInStep asks.old asks.new }
    ensures pins { (doing actor.new).pins ≡ (doing actor.old).pins }
    ensures slot { IfOk result (λ s. (s.slot < slot_count pins.now) × (s.filled ≡ None) × Hands (doing actor.old).claims (held s.slot None [] ∷ []) [] None (doing actor.new)) }
    ensures made { OnOk result (MadeRoom (plan_at S.contents pins.now) (doing actor.old) (doing actor.new)) }
    ensures kept_out { IfErr result (λ e. Hands (doing actor.old).claims [] [] None (doing actor.new) × KeptOut (plan_at S.contents pins.now) (doing actor.old) (doing actor.new) e) }
{
    let mut patience = Patience::new();
    for _ in rt.forever() {
        if let Some(room) = try_room(rt, pins, turn, actor, asks, frame, block) {
            return room;
        }
        patience.wait(rt);
    }
    unreachable!()
}
