// The steps of the table that an actor makes, each with what it adds to what the pass has made, and what the pass holds then.
ghost use Rattle.std.specs.Prelude.{◌≡◌, ◌≢◌, ℕ, ◌<◌, true, false, List, [], ◌∷◌, Some, None, length, IfOk, IfErr, OnOk, OnErr};
ghost use Rattle.arr_history.specs.declared.event.Event.TheVariants as event;
ghost use Rattle.arr_history.specs.declared.cell_state.Seen.TheVariants as seen;
ghost use Rattle.arr_history.specs.History.{after};
ghost use Rattle.pin_words.specs.Plan.{start_of};
ghost use Rattle.pin_words.specs.Pins.{seen_of};
ghost use Rattle.pin_words.specs.Finding.{pin};
ghost use Rattle.pin_words.specs.Cells.{held, scanned};
ghost use Rattle.pin_words.specs.Tells.{HasSeen};
ghost use Rattle.pin_rule.specs.Calls.{view, plan_at, cell_count, slot_count, IsPassOf, IsHeld};
ghost use Rattle.pin_rule.specs.Going.{Goes};
ghost use Rattle.pin_rule.specs.Hands.{Hands};
ghost use Rattle.live_cells.specs.Actors.{doing, IsActorOf};
ghost use Rattle.live_cells.specs.Cells.{IsLiveFor};

use crate::actor::{Actor, count};
use arr_history::Event;
use cell_store::Store;
use pin_rule::{Claim, Handle, NoFree, NotLive, Pass, Pins, Slot, Taken};

/// Pins a live cell, or misses it.
pub(crate) fn visit<S: Store>(
    pins: &Pins<S>,
    actor: &mut Actor<S>,
    cell: u32,
) -> Result<Handle, NotLive>
    requires actor { IsActorOf pins.now actor.old }
    requires cell { cell < cell_count pins.now }
    requires room { length (doing actor.old).pins < 64 }
    requires free { Hands [] [] [] None (doing actor.old) }
    ensures actor { IsActorOf pins.now actor.new }
    ensures free { Hands [] [] [] None (doing actor.new) }
    ensures handle { IfOk result (λ h. (h.cell ≡ cell) × (h.marked ≡ false) × (h.loaded ≡ false) × IsHeld pins.now actor.new.pass h) }
    ensures pinned { IfOk result (λ h. (doing actor.new).pins ≡ pin cell h.slot false ∷ (doing actor.old).pins) }
    ensures hit { OnOk result (Goes (plan_at S.contents pins.now) (doing actor.old) (event.Pin (doing actor.old).number cell ∷ []) (doing actor.new)) }
    ensures missed { OnErr result (Goes (plan_at S.contents pins.now) (doing actor.old) (event.Miss (doing actor.old).number cell ∷ []) (doing actor.new) × ((doing actor.new).pins ≡ (doing actor.old).pins)) }
    ensures state { IfErr result (λ e. e.state ≡ seen_of ((after (start_of (plan_at S.contents pins.now)) (doing actor.new).seen).cells cell)) }
    ensures not_live { IfErr result (λ e. e.state ≢ seen.Live) }
    ensures live { IfOk result (λ h. IsLiveFor (plan_at S.contents pins.now) (doing actor.new) h) }
    ensures seen { HasSeen (plan_at S.contents pins.now) (doing actor.new) }
{
    match pins.try_pin(&mut actor.pass, cell) {
        Ok(handle) => {
            count(&mut actor.tally, &Event::Pin { k: 0, cell });
            Ok(handle)
        }
        Err(refused) => {
            count(&mut actor.tally, &Event::Miss { k: 0, cell });
            Err(refused)
        }
    }
}

/// Claims an absent cell.
pub(crate) fn claim<S: Store>(pins: &Pins<S>, pass: &mut Pass<S>, cell: u32) -> Result<Claim, Taken>
    requires pass { IsPassOf pins.now pass.old }
    requires cell { cell < cell_count pins.now }
    requires free { Hands [] [] [] None (view pass.old) }
    ensures pass { IsPassOf pins.now pass.new }
    ensures pins { (view pass.new).pins ≡ (view pass.old).pins }
    ensures claim { IfOk result (λ c. c.cell ≡ cell) }
    ensures claiming { OnOk result (Hands (cell ∷ []) [] [] None (view pass.new)) }
    ensures claimed { OnOk result (Goes (plan_at S.contents pins.now) (view pass.old) (event.Claim (view pass.old).number cell ∷ []) (view pass.new)) }
    ensures free { OnErr result (Hands [] [] [] None (view pass.new)) }
    ensures taken { OnErr result (Goes (plan_at S.contents pins.now) (view pass.old) [] (view pass.new)) }
{
    match pins.try_claim(pass, cell) {
        Ok(claim) => Ok(claim),
        Err(taken) => Err(taken),
    }
}

/// Takes the first slot that is free, where there is one.
pub(crate) fn scan<S: Store>(pins: &Pins<S>, pass: &mut Pass<S>) -> Result<Slot, NoFree>
    requires pass { IsPassOf pins.now pass.old }
    requires hands { Hands (view pass.old).claims [] [] None (view pass.old) }
    ensures pass { IsPassOf pins.now pass.new }
    ensures pins { (view pass.new).pins ≡ (view pass.old).pins }
    ensures slot { IfOk result (λ s. (s.slot < slot_count pins.now) × (s.filled ≡ None)) }
    ensures hands { IfOk result (λ s. Hands (view pass.old).claims (held s.slot None [] ∷ []) [] None (view pass.new)) }
    ensures none { OnErr result (Hands (view pass.old).claims [] [] None (view pass.new)) }
    ensures tried { OnErr result ((view pass.new).tries ≡ scanned (slot_count pins.now) (view pass.old).tries) }
    ensures went { Goes (plan_at S.contents pins.now) (view pass.old) [] (view pass.new) }
{
    match pins.try_slot(pass) {
        Ok(slot) => Ok(slot),
        Err(none) => Err(none),
    }
}

/// Frees the one slot that the pass has.
pub(crate) fn give_slot<S: Store>(pins: &Pins<S>, pass: &mut Pass<S>, slot: Slot)
    requires pass { IsPassOf pins.now pass.old }
    requires slot { slot.slot < slot_count pins.now }
    requires hands { Hands (view pass.old).claims (held slot.slot slot.filled [] ∷ []) [] None (view pass.old) }
    ensures pass { IsPassOf pins.now pass.new }
    ensures pins { (view pass.new).pins ≡ (view pass.old).pins }
    ensures hands { Hands (view pass.old).claims [] [] None (view pass.new) }
    ensures went { Goes (plan_at S.contents pins.now) (view pass.old) [] (view pass.new) }
{
    pins.give_slot(pass, slot);
}

/// Drops the one claim that the pass has.
pub(crate) fn abandon<S: Store>(pins: &Pins<S>, pass: &mut Pass<S>, claim: Claim)
    requires pass { IsPassOf pins.now pass.old }
    requires claim { claim.cell < cell_count pins.now }
    requires hands { Hands (claim.cell ∷ []) [] [] None (view pass.old) }
    ensures pass { IsPassOf pins.now pass.new }
    ensures pins { (view pass.new).pins ≡ (view pass.old).pins }
    ensures free { Hands [] [] [] None (view pass.new) }
    ensures dropped { Goes (plan_at S.contents pins.now) (view pass.old) (event.Drop (view pass.old).number claim.cell ∷ []) (view pass.new) }
    ensures seen { HasSeen (plan_at S.contents pins.now) (view pass.new) }
{
    pins.abandon(pass, claim);
}

/// Makes the claimed cell live in the slot that is filled for it.
pub(crate) fn publish<S: Store>(
    pins: &Pins<S>,
    actor: &mut Actor<S>,
    claim: Claim,
    slot: Slot,
) -> Handle
    requires actor { IsActorOf pins.now actor.old }
    requires claim { claim.cell < cell_count pins.now }
    requires slot { (slot.slot < slot_count pins.now) × (slot.filled ≡ Some claim.cell) }
    requires hands { (words : List ℕ) × Hands (claim.cell ∷ []) (held slot.slot (Some claim.cell) words ∷ []) [] None (doing actor.old) }
    requires room { length (doing actor.old).pins < 64 }
    ensures actor { IsActorOf pins.now actor.new }
    ensures pins { (doing actor.new).pins ≡ pin claim.cell slot.slot false ∷ (doing actor.old).pins }
    ensures handle { (result.cell ≡ claim.cell) × (result.slot ≡ slot.slot) × (result.marked ≡ false) × (result.loaded ≡ true) }
    ensures free { Hands [] [] [] None (doing actor.new) }
    ensures loaded { Goes (plan_at S.contents pins.now) (doing actor.old) (event.Live (doing actor.old).number claim.cell slot.slot ∷ []) (doing actor.new) }
    ensures live { IsLiveFor (plan_at S.contents pins.now) (doing actor.new) result }
    ensures seen { HasSeen (plan_at S.contents pins.now) (doing actor.new) }
{
    let cell = claim.cell();
    let place = slot.slot();
    let handle = pins.publish(&mut actor.pass, claim, slot);
    count(
        &mut actor.tally,
        &Event::Live {
            k: 0,
            cell,
            slot: place,
        },
    );
    handle
}
