// A cell is loaded and turned out.
ghost use Rattle.std.specs.Prelude.{◌≡◌, ℕ, ◌<◌, ◌≤◌, false, None, MatchOption, slice_index};
ghost use Rattle.pin_words.specs.Ends.{IsBare};
ghost use Rattle.pin_rule.specs.Calls.{view, cell_count, slot_count, IsPassOf};
ghost use Rattle.pin_rule.specs.Trying.{StaysBare, SameRoster, IsLoading, IsUsing, IsLeaving, HasLane};
ghost use Rattle.pin_time.specs.Timed.{IsTimed};

use crate::table::{Quiet, ones};
use cell_store::Store;
use pin_rule::{Claim, Handle, Lane, Leaving, Pass, Pins, Slot};

/// Fills the slot, gives the lane back and makes the cell live.
fn publish(
    pins: &Pins<Quiet>,
    pass: &mut Pass<Quiet>,
    claim: Claim,
    mut slot: Slot,
    lane: Lane<Quiet>,
    values: &[u64; 64],
) -> Handle
    requires pass { IsPassOf pins.now pass.old }
    requires timed { IsTimed pins.now claim.cell × (slot.slot < 2) }
    requires loading { IsLoading claim.cell slot.slot (view pass.old) × (slot.filled ≡ None) }
    requires lane { HasLane ⟦<Quiet as Store>⟧.contents claim.cell lane (view pass.old) }
    requires bytes { (i : ℕ) → slice_index values.now i ≤ 255 }
    ensures pass { IsPassOf pins.now pass.new × SameRoster (view pass.old) (view pass.new) }
    ensures handle { (result.cell ≡ claim.cell) × (result.slot ≡ slot.slot) × (result.marked ≡ false) }
    ensures using { IsUsing claim.cell slot.slot false (view pass.new) × ((view pass.new).lane ≡ None) }
{
    pins.fill(pass, &claim, &mut slot, &lane, values);
    pins.give_lane(pass, lane);
    pins.publish(pass, claim, slot)
}

/// Claims an absent cell and makes it live. None where another pass is in the way, and nothing is held then.
pub fn load(pins: &Pins<Quiet>, pass: &mut Pass<Quiet>, cell: u32) -> Option<Handle>
    requires pass { IsPassOf pins.now pass.old }
    requires bare { IsBare (view pass.old) }
    requires timed { IsTimed pins.now cell }
    ensures pass { IsPassOf pins.now pass.new × SameRoster (view pass.old) (view pass.new) }
    ensures done { MatchOption result (IsBare (view pass.new)) (λ h. (h.cell ≡ cell) × (h.slot < 2) × (h.marked ≡ false) × IsUsing h.cell h.slot false (view pass.new) × ((view pass.new).lane ≡ None)) }
{
    let Ok(claim) = pins.try_claim(pass, cell) else {
        return None;
    };
    let Ok(slot) = pins.try_slot(pass) else {
        pins.abandon(pass, claim);
        return None;
    };
    match pins.try_lane(pass, cell) {
        Ok(lane) => Some(publish(pins, pass, claim, slot, lane, &ones())),
        Err(_) => {
            pins.give_slot(pass, slot);
            pins.abandon(pass, claim);
            None
        }
    }
}

/// Pins a live cell. None where it isn't live.
fn pin(pins: &Pins<Quiet>, pass: &mut Pass<Quiet>, cell: u32) -> Option<Handle>
    requires pass { IsPassOf pins.now pass.old }
    requires bare { IsBare (view pass.old) }
    requires timed { IsTimed pins.now cell }
    ensures pass { IsPassOf pins.now pass.new × SameRoster (view pass.old) (view pass.new) }
    ensures done { MatchOption result (IsBare (view pass.new)) (λ h. (h.cell ≡ cell) × (h.slot < 2) × (h.marked ≡ false) × IsUsing h.cell h.slot false (view pass.new) × ((view pass.new).lane ≡ None)) }
{
    match pins.try_pin(pass, cell) {
        Ok(handle) => Some(handle),
        Err(_) => None,
    }
}

/// A pin on the cell, which is loaded where it is absent. None where another pass is in the way, and nothing is held then.
pub fn reach(pins: &Pins<Quiet>, pass: &mut Pass<Quiet>, cell: u32) -> Option<Handle>
    requires pass { IsPassOf pins.now pass.old }
    requires bare { IsBare (view pass.old) }
    requires timed { IsTimed pins.now cell }
    ensures pass { IsPassOf pins.now pass.new × SameRoster (view pass.old) (view pass.new) }
    ensures done { MatchOption result (IsBare (view pass.new)) (λ h. (h.cell ≡ cell) × (h.slot < 2) × (h.marked ≡ false) × IsUsing h.cell h.slot false (view pass.new) × ((view pass.new).lane ≡ None)) }
{
    match load(pins, pass, cell) {
        Some(handle) => Some(handle),
        None => pin(pins, pass, cell),
    }
}

/// Closes a live cell that isn't marked. None where it isn't there, or has a pin.
fn close(pins: &Pins<Quiet>, pass: &mut Pass<Quiet>, cell: u32, slot: u32) -> Option<Leaving>
    requires pass { IsPassOf pins.now pass.old }
    requires bare { IsBare (view pass.old) }
    requires place { (cell < cell_count pins.now) × (slot < slot_count pins.now) }
    ensures pass { IsPassOf pins.now pass.new × SameRoster (view pass.old) (view pass.new) }
    ensures done { MatchOption result (IsBare (view pass.new)) (λ l. (l.cell ≡ cell) × (l.slot ≡ slot) × (l.marked ≡ false) × IsLeaving cell slot false (view pass.new) × ((view pass.new).lane ≡ None)) }
{
    match pins.try_close(pass, cell, slot, false) {
        Ok(leaving) => Some(leaving),
        Err(_) => None,
    }
}

/// Turns the cell out of the slot, and frees it. Says whether it was there with no pin.
pub fn turn_out(pins: &Pins<Quiet>, pass: &mut Pass<Quiet>, cell: u32, slot: u32) -> bool
    requires pass { IsPassOf pins.now pass.old }
    requires bare { IsBare (view pass.old) }
    requires timed { IsTimed pins.now cell × (slot < 2) }
    ensures pass { IsPassOf pins.now pass.new × StaysBare (view pass.old) (view pass.new) }
{
    match close(pins, pass, cell, slot) {
        Some(leaving) => {
            let slot = pins.gone_clean(pass, leaving);
            pins.give_slot(pass, slot);
            true
        }
        None => false,
    }
}
