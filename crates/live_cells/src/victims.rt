// Turning a cell out for another, before the shutting.
ghost use Rattle.std.specs.Prelude.{◌≡◌, ◌+◌, ◌*◌, ◌<◌, ◌≤◌, true, Err, [], ◌∷◌, None, length, IfOk, OnOk, OnErr};
ghost use Rattle.arr_history.specs.declared.event.Event.TheVariants as event;
ghost use Rattle.cell_file.specs.Standing.{width_of};
ghost use Rattle.pin_words.specs.Account.{rise};
ghost use Rattle.pin_words.specs.Plan.{lane_of};
ghost use Rattle.pin_words.specs.Cells.{held};
ghost use Rattle.pin_rule.specs.Calls.{view, plan_at, made_of, cell_count, slot_count, voxel_count, IsPassOf};
ghost use Rattle.pin_rule.specs.Going.{Goes};
ghost use Rattle.pin_rule.specs.Hands.{Hands};
ghost use Rattle.live_cells.specs.Lanes.{IsTurning};
ghost use Rattle.live_cells.specs.Actors.{doing, IsActorOf};

use crate::actor::{Actor, count};
use crate::lanes::take_lane;
use crate::leaves::{copy_frame, forget, put_out};
use crate::loads::voxels_in;
use arr_history::Event;
use cell_file::SaveErr;
use cell_grid::lane;
use cell_store::Store;
use pin_rule::{Leaving, Pass, Pins, Slot};
use std::sync::Wait;

/// Puts a closed and marked cell as soon as no other pass has its lane, and lets it go. Where it can't be put it comes back.
fn put_marked<S: Store, R: Wait>(
    rt: &R,
    pins: &Pins<S>,
    pass: &mut Pass<S>,
    leaving: Leaving,
    frame: &mut [u64],
    block: &mut [u8],
) -> Result<Slot, SaveErr>
    requires pass { IsPassOf pins.now pass.old }
    requires place { (leaving.cell < cell_count pins.now) × (leaving.slot < slot_count pins.now) × (leaving.marked ≡ true) }
    requires hands { Hands (view pass.old).claims [] (view pass.old).leaving None (view pass.old) }
    requires turning { IsTurning (plan_at S.contents pins.now) leaving.cell leaving.slot leaving.marked (view pass.old) }
    requires frame { voxel_count pins.now leaving.cell ≤ length frame.old }
    requires room { 16 + width_of (made_of pins.now).levels.value leaving.cell * voxel_count pins.now leaving.cell ≤ length block.old }
    ensures pass { IsPassOf pins.now pass.new }
    ensures pins { (view pass.new).pins ≡ (view pass.old).pins }
    ensures slot { IfOk result (λ s. (s.slot ≡ leaving.slot) × (s.filled ≡ None)) }
    ensures gone { OnOk result (Hands (view pass.old).claims (held leaving.slot None [] ∷ []) [] None (view pass.new) × Goes (plan_at S.contents pins.now) (view pass.old) (event.Gone (view pass.old).number leaving.cell leaving.marked ∷ []) (view pass.new)) }
    ensures back { OnErr result (Hands (view pass.old).claims [] [] None (view pass.new) × Goes (plan_at S.contents pins.now) (view pass.old) (event.Back (view pass.old).number leaving.cell ∷ []) (view pass.new)) }
    ensures write_fault { result ≡ Err SaveErr.WriteFault → rise (lane_of (plan_at S.contents pins.now) leaving.cell) (view pass.old) < rise (lane_of (plan_at S.contents pins.now) leaving.cell) (view pass.new) }
{
    let cell = leaving.cell();
    copy_frame(pins, pass, &leaving, frame);
    let lane = take_lane(rt, pins, pass, lane(cell, pins.lanes()));
    let voxels = voxels_in(pins, cell) as usize;
    put_out(pins, pass, leaving, lane, &frame[..voxels], block)
}

/// Turns a closed cell out, by its lane where it is marked, and counts that it left. Its slot is the pass's then; where it can't
/// be put it comes back.
pub(crate) fn turn_out<S: Store, R: Wait>(
    rt: &R,
    pins: &Pins<S>,
    actor: &mut Actor<S>,
    leaving: Leaving,
    frame: &mut [u64],
    block: &mut [u8],
) -> Result<Slot, SaveErr>
    requires actor { IsActorOf pins.now actor.old }
    requires place { (leaving.cell < cell_count pins.now) × (leaving.slot < slot_count pins.now) }
    requires hands { Hands (doing actor.old).claims [] (doing actor.old).leaving None (doing actor.old) }
    requires turning { IsTurning (plan_at S.contents pins.now) leaving.cell leaving.slot leaving.marked (doing actor.old) }
    requires frame { voxel_count pins.now leaving.cell ≤ length frame.old }
    requires room { 16 + width_of (made_of pins.now).levels.value leaving.cell * voxel_count pins.now leaving.cell ≤ length block.old }
    ensures actor { IsActorOf pins.now actor.new }
    ensures pins { (doing actor.new).pins ≡ (doing actor.old).pins }
    ensures slot { IfOk result (λ s. (s.slot ≡ leaving.slot) × (s.filled ≡ None)) }
    ensures gone { OnOk result (Hands (doing actor.old).claims (held leaving.slot None [] ∷ []) [] None (doing actor.new) × Goes (plan_at S.contents pins.now) (doing actor.old) (event.Gone (doing actor.old).number leaving.cell leaving.marked ∷ []) (doing actor.new)) }
    ensures back { OnErr result (Hands (doing actor.old).claims [] [] None (doing actor.new) × Goes (plan_at S.contents pins.now) (doing actor.old) (event.Back (doing actor.old).number leaving.cell ∷ []) (doing actor.new)) }
    ensures write_fault { result ≡ Err SaveErr.WriteFault → rise (lane_of (plan_at S.contents pins.now) leaving.cell) (doing actor.old) < rise (lane_of (plan_at S.contents pins.now) leaving.cell) (doing actor.new) }
{
    let cell = leaving.cell();
    let saved = leaving.marked();
    if !saved {
        let slot = forget(pins, &mut actor.pass, leaving);
        count(&mut actor.tally, &Event::Gone { k: 0, cell, saved });
        return Ok(slot);
    }
    let slot = put_marked(rt, pins, &mut actor.pass, leaving, frame, block)?;
    count(&mut actor.tally, &Event::Gone { k: 0, cell, saved });
    Ok(slot)
}
