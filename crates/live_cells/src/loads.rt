// Loading a claimed cell into a slot.
ghost use Rattle.std.specs.Prelude.{◌≡◌, ℕ, ◌<◌, ◌≤◌, true, false, [], ◌∷◌, Some, None, length, take, slice_index, IfOk, IfErr, OnOk, OnErr};
ghost use Rattle.cell_store.specs.Faults.{Rose};
ghost use Rattle.arr_history.specs.declared.event.Event.TheVariants as event;
ghost use Rattle.pin_words.specs.declared.doing.Doing.{Doing};
ghost use Rattle.pin_words.specs.declared.lane.Taken.{Taken};
ghost use Rattle.pin_words.specs.Account.{rise};
ghost use Rattle.pin_words.specs.Finding.{pin};
ghost use Rattle.pin_words.specs.Cells.{held, IsFilled};
ghost use Rattle.pin_words.specs.Tells.{HasSeen};
ghost use Rattle.pin_rule.specs.Calls.{view, plan_at, made_of, cell_count, slot_count, lane_count, voxel_count, greatest_in, IsPassOf, IsHeld, MayFill, MayReturn};
ghost use Rattle.pin_rule.specs.Going.{Goes};
ghost use Rattle.pin_rule.specs.Hands.{Hands};
ghost use Rattle.live_cells.specs.Actors.{doing, IsActorOf};
ghost use Rattle.live_cells.specs.Cells.{IsLiveFor};
ghost use Rattle.live_cells.specs.Loads.{IsCauseOfFetch};
ghost use Rattle.live_cells.specs.Fetching.{HasGot, HasGotNone};

use crate::actor::Actor;
use crate::lanes::{give_lane, take_lane};
use crate::steps::{abandon, give_slot, publish};
use arr_history::histories_hold_from_the_opening;
use cell_file::{FetchErr, cells_have_keys_of_their_own, fetch, stores_stand_for_what_they_hold};
use cell_grid::lane;
use cell_store::Store;
use pin_rule::{Claim, Handle, Lane, Pass, Pins, Slot};
use std::sync::Wait;
use stood_arrays::fetches_move;

/// Fetches a cell's values to the front of the frame, from the store of the lane.
fn fetch_into<S: Store>(
    pins: &Pins<S>,
    lane: &mut Lane<S>,
    cell: u32,
    got: &mut Vec<u8>,
    frame: &mut [u64],
) -> Result<(), FetchErr>
    requires cell { cell < cell_count pins.now }
    requires frame { voxel_count pins.now cell ≤ length frame.old }
    ensures lane { lane.new.lane ≡ lane.old.lane }
    ensures got { OnOk result (HasGot (made_of pins.now).levels.value (made_of pins.now).keys.value cell (S.contents lane.old.store) (S.contents lane.new.store) (take (voxel_count pins.now cell) frame.new)) }
    ensures fits { OnOk result ((i : ℕ) → slice_index (take (voxel_count pins.now cell) frame.new) i ≤ greatest_in pins.now cell) }
    ensures not_got { IfErr result (λ err. HasGotNone (made_of pins.now).levels.value (made_of pins.now).keys.value cell (S.contents lane.old.store) (S.contents lane.new.store) err) }
{
    fetches_move();
    fetch(
        &mut lane.store,
        pins.keys(),
        pins.geometry(),
        cell,
        got,
        frame,
    )
}

/// Fills the slot and gives the lane back.
fn fill<S: Store>(
    pins: &Pins<S>,
    pass: &mut Pass<S>,
    claim: &Claim,
    slot: &mut Slot,
    lane: Lane<S>,
    values: &[u64],
)
    requires pass { IsPassOf pins.now pass.old }
    requires place { (claim.now.cell < cell_count pins.now) × (slot.old.slot < slot_count pins.now) × (slot.old.filled ≡ None) × (lane.lane < lane_count pins.now) }
    requires hands { (o : Taken _) × Hands (claim.now.cell ∷ []) (held slot.old.slot None [] ∷ []) [] (Some o) (view pass.old) }
    requires values { length values.now ≡ voxel_count pins.now claim.now.cell }
    requires fits { (i : ℕ) → slice_index values.now i ≤ greatest_in pins.now claim.now.cell }
    requires lane { MayFill (plan_at S.contents pins.now) (view pass.old) claim.now.cell lane values.now }
    requires home { (d : Doing _ _) → IsFilled (view pass.old) claim.now.cell slot.old.slot values.now d → MayReturn (plan_at S.contents pins.now) d lane }
    ensures pass { IsPassOf pins.now pass.new }
    ensures pins { (view pass.new).pins ≡ (view pass.old).pins }
    ensures slot { (slot.new.slot ≡ slot.old.slot) × (slot.new.filled ≡ Some claim.now.cell) }
    ensures hands { Hands (claim.now.cell ∷ []) (held slot.old.slot (Some claim.now.cell) values.now ∷ []) [] None (view pass.new) }
    ensures went { Goes (plan_at S.contents pins.now) (view pass.old) [] (view pass.new) }
{
    fill_slot(pins, pass, claim, slot, &lane, values);
    give_lane(pins, pass, lane);
}

/// Fills the slot.
fn fill_slot<S: Store>(
    pins: &Pins<S>,
    pass: &mut Pass<S>,
    claim: &Claim,
    slot: &mut Slot,
    lane: &Lane<S>,
    values: &[u64],
)
    requires pass { IsPassOf pins.now pass.old }
    requires place { (claim.now.cell < cell_count pins.now) × (slot.old.slot < slot_count pins.now) × (slot.old.filled ≡ None) }
    requires hands { (o : Taken _) × Hands (claim.now.cell ∷ []) (held slot.old.slot None [] ∷ []) [] (Some o) (view pass.old) }
    requires values { length values.now ≡ voxel_count pins.now claim.now.cell }
    requires fits { (i : ℕ) → slice_index values.now i ≤ greatest_in pins.now claim.now.cell }
    requires lane { MayFill (plan_at S.contents pins.now) (view pass.old) claim.now.cell lane.now values.now }
    ensures pass { IsPassOf pins.now pass.new }
    ensures pins { (view pass.new).pins ≡ (view pass.old).pins }
    ensures slot { (slot.new.slot ≡ slot.old.slot) × (slot.new.filled ≡ Some claim.now.cell) }
    ensures hands { (o : Taken _) × Hands (claim.now.cell ∷ []) (held slot.old.slot (Some claim.now.cell) values.now ∷ []) [] (Some o) (view pass.new) }
    ensures filled { IsFilled (view pass.old) claim.now.cell slot.old.slot values.now (view pass.new) }
    ensures went { Goes (plan_at S.contents pins.now) (view pass.old) [] (view pass.new) }
{
    pins.fill(pass, claim, slot, lane, values);
}

/// Lets the lane, the slot and the claim go.
fn let_go<S: Store>(pins: &Pins<S>, pass: &mut Pass<S>, claim: Claim, slot: Slot, lane: Lane<S>)
    requires pass { IsPassOf pins.now pass.old }
    requires place { (claim.cell < cell_count pins.now) × (slot.slot < slot_count pins.now) × (slot.filled ≡ None) × (lane.lane < lane_count pins.now) }
    requires hands { (o : Taken _) × Hands (claim.cell ∷ []) (held slot.slot None [] ∷ []) [] (Some o) (view pass.old) }
    requires home { MayReturn (plan_at S.contents pins.now) (view pass.old) lane }
    ensures pass { IsPassOf pins.now pass.new }
    ensures pins { (view pass.new).pins ≡ (view pass.old).pins }
    ensures free { Hands [] [] [] None (view pass.new) }
    ensures raised { (o : Taken _) → (view pass.old).lane ≡ Some o → Rose (S.contents o.store).faults (S.contents lane.store).faults → rise lane.lane (view pass.old) < rise lane.lane (view pass.new) }
    ensures dropped { Goes (plan_at S.contents pins.now) (view pass.old) (event.Drop (view pass.old).number claim.cell ∷ []) (view pass.new) }
    ensures seen { HasSeen (plan_at S.contents pins.now) (view pass.new) }
{
    give_lane(pins, pass, lane);
    give_slot(pins, pass, slot);
    abandon(pins, pass, claim);
}

/// Fills the slot, gives the lane back, makes the cell live, and counts it.
fn finish<S: Store>(
    pins: &Pins<S>,
    actor: &mut Actor<S>,
    claim: Claim,
    mut slot: Slot,
    lane: Lane<S>,
    values: &[u64],
) -> Handle
    requires actor { IsActorOf pins.now actor.old }
    requires place { (claim.cell < cell_count pins.now) × (slot.slot < slot_count pins.now) × (slot.filled ≡ None) × (lane.lane < lane_count pins.now) }
    requires hands { (o : Taken _) × Hands (claim.cell ∷ []) (held slot.slot None [] ∷ []) [] (Some o) (doing actor.old) }
    requires room { length (doing actor.old).pins < 64 }
    requires values { length values.now ≡ voxel_count pins.now claim.cell }
    requires fits { (i : ℕ) → slice_index values.now i ≤ greatest_in pins.now claim.cell }
    requires lane { MayFill (plan_at S.contents pins.now) (doing actor.old) claim.cell lane values.now }
    requires home { (d : Doing _ _) → IsFilled (doing actor.old) claim.cell slot.slot values.now d → MayReturn (plan_at S.contents pins.now) d lane }
    ensures actor { IsActorOf pins.now actor.new }
    ensures free { Hands [] [] [] None (doing actor.new) }
    ensures handle { (result.cell ≡ claim.cell) × (result.slot ≡ slot.slot) × (result.marked ≡ false) × (result.loaded ≡ true) × IsHeld pins.now actor.new.pass result }
    ensures pins { (doing actor.new).pins ≡ pin claim.cell slot.slot false ∷ (doing actor.old).pins }
    ensures loaded { Goes (plan_at S.contents pins.now) (doing actor.old) (event.Live (doing actor.old).number claim.cell slot.slot ∷ []) (doing actor.new) }
    ensures live { IsLiveFor (plan_at S.contents pins.now) (doing actor.new) result }
    ensures seen { HasSeen (plan_at S.contents pins.now) (doing actor.new) }
{
    fill(pins, &mut actor.pass, &claim, &mut slot, lane, values);
    publish(pins, actor, claim, slot)
}

/// How many voxels a cell has.
pub(crate) fn voxels_in<S: Store>(pins: &Pins<S>, cell: u32) -> u32
    requires { cell < cell_count pins.now }
    ensures { result ≡ voxel_count pins.now cell }
{
    pins.geometry().voxels(cell)
}

/// Loads the claimed cell into the slot. Where it can't be got the slot is free again, and the claim is dropped.
pub(crate) fn load<S: Store, R: Wait>(
    rt: &R,
    pins: &Pins<S>,
    actor: &mut Actor<S>,
    got: &mut Vec<u8>,
    frame: &mut [u64],
    claim: Claim,
    slot: Slot,
) -> Result<Handle, FetchErr>
    requires actor { IsActorOf pins.now actor.old }
    requires place { (claim.cell < cell_count pins.now) × (slot.slot < slot_count pins.now) × (slot.filled ≡ None) }
    requires hands { Hands (claim.cell ∷ []) (held slot.slot None [] ∷ []) [] None (doing actor.old) }
    requires room { length (doing actor.old).pins < 64 }
    requires frame { voxel_count pins.now claim.cell ≤ length frame.old }
    ensures actor { IsActorOf pins.now actor.new }
    ensures free { Hands [] [] [] None (doing actor.new) }
    ensures handle { IfOk result (λ h. (h.cell ≡ claim.cell) × (h.slot ≡ slot.slot) × (h.marked ≡ false) × (h.loaded ≡ true) × IsHeld pins.now actor.new.pass h × ((doing actor.new).pins ≡ pin claim.cell slot.slot false ∷ (doing actor.old).pins)) }
    ensures loaded { OnOk result (Goes (plan_at S.contents pins.now) (doing actor.old) (event.Live (doing actor.old).number claim.cell slot.slot ∷ []) (doing actor.new)) }
    ensures dropped { OnErr result (Goes (plan_at S.contents pins.now) (doing actor.old) (event.Drop (doing actor.old).number claim.cell ∷ []) (doing actor.new) × ((doing actor.new).pins ≡ (doing actor.old).pins)) }
    ensures cause { IfErr result (λ err. IsCauseOfFetch S.contents pins.now claim.cell (doing actor.old) (doing actor.new) err) }
    ensures live { IfOk result (λ h. IsLiveFor (plan_at S.contents pins.now) (doing actor.new) h) }
    ensures seen { HasSeen (plan_at S.contents pins.now) (doing actor.new) }
{
    let cell = claim.cell();
    let mut lane = take_lane(rt, pins, &mut actor.pass, lane(cell, pins.lanes()));
    match fetch_into(pins, &mut lane, cell, got, frame) {
        Ok(()) => {
            let voxels = voxels_in(pins, cell) as usize;
            Ok(finish(pins, actor, claim, slot, lane, &frame[..voxels]))
        }
        Err(err) => {
            cells_have_keys_of_their_own();
            stores_stand_for_what_they_hold();
            histories_hold_from_the_opening();
            let keys = pins.keys();
            let _plain = keys.plain(); // read for what its contract tells the proof
            let_go(pins, &mut actor.pass, claim, slot, lane);
            Err(err)
        }
    }
}
