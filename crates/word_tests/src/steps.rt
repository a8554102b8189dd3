// What the tests do with a cell, call by call.
ghost use Rattle.std.specs.Prelude.{◌≡◌, ℕ, ◌<◌, ◌≤◌, true, false, None, length, slice_index};
ghost use Rattle.cell_grid.specs.Pyramid.{cells_of};
ghost use Rattle.pin_words.specs.declared.doing.Doing.{Doing};
ghost use Rattle.pin_words.specs.Cells.{IsFilled};
ghost use Rattle.pin_rule.specs.Calls.{view, plan_at, made_of, cell_count, slot_count, lane_count, voxel_count, greatest_in, IsPassOf, MayFill, MayReturn};
ghost use Rattle.pin_rule.specs.Trying.{SameRoster, StaysBare, IsLoading, IsUsing, IsLeaving, HasLane};
ghost use Rattle.word_tests.specs.Tried.{IsSmallTry, IsTried};

use crate::quiet::Quiet;
use cell_file::{Keys, SaveErr, save};
use cell_grid::{Geometry, Kind};
use cell_store::Store;
use pin_rule::{Claim, Handle, Lane, Leaving, Pass, Pins, Slot};
use std::process::Abort;

pub type Grid = (Geometry, Keys);

/// Ends the test where a cell isn't one of eight voxels of one byte.
pub fn measure(rt: &impl Abort, geometry: &Geometry, cell: u32)
    requires cell { cell < cells_of geometry.now }
    ensures { IsSmallTry geometry.now cell }
{
    assert!(rt; geometry.voxels(cell) == 8);
    assert!(rt; geometry.kind(cell) == Kind::U8);
}

/// Fills the slot, gives the lane back and makes the cell live.
pub fn publish<S: Store>(
    pins: &Pins<S>,
    pass: &mut Pass<S>,
    claim: Claim,
    mut slot: Slot,
    lane: Lane<S>,
    values: &[u64],
) -> Handle
    requires pass { IsPassOf pins.now pass.old }
    requires tried { (claim.cell < cell_count pins.now) × (slot.slot < slot_count pins.now) × (lane.lane < lane_count pins.now) }
    requires loading { IsLoading claim.cell slot.slot (view pass.old) × (slot.filled ≡ None) }
    requires lane { MayFill (plan_at S.contents pins.now) (view pass.old) claim.cell lane values.now }
    requires home { (d : Doing _ _) → IsFilled (view pass.old) claim.cell slot.slot values.now d → MayReturn (plan_at S.contents pins.now) d lane }
    requires values { length values.now ≡ voxel_count pins.now claim.cell }
    requires fits { (i : ℕ) → slice_index values.now i ≤ greatest_in pins.now claim.cell }
    ensures pass { IsPassOf pins.now pass.new × SameRoster (view pass.old) (view pass.new) }
    ensures handle { (result.cell ≡ claim.cell) × (result.slot ≡ slot.slot) × (result.marked ≡ false) }
    ensures using { IsUsing claim.cell slot.slot false (view pass.new) × ((view pass.new).lane ≡ None) }
{
    pins.fill(pass, &claim, &mut slot, &lane, values);
    pins.give_lane(pass, lane);
    pins.publish(pass, claim, slot)
}

/// The numbers of a closed cell.
pub fn frame(
    rt: &impl Abort,
    geometry: &Geometry,
    pins: &Pins<Quiet>,
    pass: &mut Pass<Quiet>,
    leaving: &Leaving,
) -> [u64; 8]
    requires pass { IsPassOf pins.now pass.old }
    requires over { (made_of pins.now).levels.value ≡ geometry.now }
    requires leaving { (leaving.now.cell < cell_count pins.now) × (leaving.now.slot < slot_count pins.now) × IsLeaving leaving.now.cell leaving.now.slot leaving.now.marked (view pass.old) }
    ensures pass { IsPassOf pins.now pass.new × (view pass.new ≡ view pass.old) }
    ensures bytes { (i : ℕ) → slice_index result i ≤ 255 }
{
    measure(rt, geometry, leaving.cell());
    let mut values = [0u64; 8];
    for at in 0..8u32 {
        values[at as usize] = pins.frame_word(pass, leaving, at);
    }
    values
}

/// Lets a saved cell go, and frees its slot.
fn let_go(pins: &Pins<Quiet>, pass: &mut Pass<Quiet>, leaving: Leaving, lane: Lane<Quiet>)
    requires pass { IsPassOf pins.now pass.old }
    requires tried { (leaving.cell < cell_count pins.now) × (leaving.slot < slot_count pins.now) × (lane_count pins.now ≡ 1) }
    requires leaving { (leaving.marked ≡ true) × IsLeaving leaving.cell leaving.slot true (view pass.old) }
    requires lane { HasLane ⟦<Quiet as Store>⟧.contents 0 lane (view pass.old) }
    ensures pass { IsPassOf pins.now pass.new × StaysBare (view pass.old) (view pass.new) }
{
    let slot = pins.gone_saved(pass, leaving, &lane);
    pins.give_slot(pass, slot);
    pins.give_lane(pass, lane);
}

/// Saves the marked cell, which is gone then. Where its put fails it comes back.
pub fn turn_out(
    rt: &impl Abort,
    grid: &Grid,
    pins: &Pins<Quiet>,
    pass: &mut Pass<Quiet>,
    leaving: Leaving,
    mut lane: Lane<Quiet>,
) -> Result<(), SaveErr>
    requires pass { IsPassOf pins.now pass.old }
    requires tried { IsTried grid.now.0 grid.now.1 pins.now × (leaving.cell < 3) × (leaving.slot < 2) }
    requires leaving { (leaving.marked ≡ true) × IsLeaving leaving.cell leaving.slot true (view pass.old) }
    requires lane { HasLane ⟦<Quiet as Store>⟧.contents 0 lane (view pass.old) }
    ensures pass { IsPassOf pins.now pass.new × StaysBare (view pass.old) (view pass.new) }
{
    let (geometry, keys) = grid;
    let cell = leaving.cell();
    let values = frame(rt, geometry, pins, pass, &leaving);
    measure(rt, geometry, cell);
    let mut block = [0u8; 24];
    match save(&mut lane.store, keys, geometry, cell, &values, &mut block) {
        Ok(()) => {
            let_go(pins, pass, leaving, lane);
            Ok(())
        }
        Err(fault) => {
            pins.back(pass, leaving);
            pins.give_lane(pass, lane);
            Err(fault)
        }
    }
}
