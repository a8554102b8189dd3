// A frame is filled, over and over.
ghost use Rattle.std.specs.Prelude.{◌≡◌, ℕ, ◌<◌, ◌≤◌, None, slice_index};
ghost use Rattle.pin_words.specs.Ends.{IsBare};
ghost use Rattle.pin_rule.specs.Calls.{view, IsPassOf};
ghost use Rattle.pin_rule.specs.Trying.{StaysBare, SameRoster, IsLoading, HasLane};
ghost use Rattle.pin_time.specs.Timed.{IsTimed, IsFilling};

use crate::table::{Quiet, ones};
use cell_store::Store;
use pin_rule::{Claim, Lane, Pass, Pins, Slot};

/// Fills a frame for an absent cell, which stays so, and tries again where a visitor is in the way. How many voxels were
/// filled, 64 in each round.
pub fn voxels_filled(pins: &Pins<Quiet>, pass: &mut Pass<Quiet>, cell: u32, rounds: u32) -> u64
    requires pass { IsPassOf pins.now pass.old }
    requires bare { IsBare (view pass.old) }
    requires timed { IsTimed pins.now cell }
    ensures pass { IsPassOf pins.now pass.new × StaysBare (view pass.old) (view pass.new) }
{
    for _try in 0..u32::MAX {
        if let Some(done) = claim_and_fill(pins, pass, cell, rounds) {
            return done;
        }
    }
    0
}

/// How many voxels were filled. None where another pass was in the way.
fn claim_and_fill(pins: &Pins<Quiet>, pass: &mut Pass<Quiet>, cell: u32, rounds: u32) -> Option<u64>
    requires pass { IsPassOf pins.now pass.old }
    requires bare { IsBare (view pass.old) }
    requires timed { IsTimed pins.now cell }
    ensures pass { IsPassOf pins.now pass.new × StaysBare (view pass.old) (view pass.new) }
{
    let Ok(claim) = pins.try_claim(pass, cell) else {
        return None;
    };
    let Ok(slot) = pins.try_slot(pass) else {
        pins.abandon(pass, claim);
        return None;
    };
    match pins.try_lane(pass, cell) {
        Ok(lane) => Some(fill_and_drop(pins, pass, claim, slot, lane, rounds)),
        Err(_) => {
            pins.give_slot(pass, slot);
            pins.abandon(pass, claim);
            None
        }
    }
}

/// Fills the slot over and over, and lets all go.
fn fill_and_drop(
    pins: &Pins<Quiet>,
    pass: &mut Pass<Quiet>,
    claim: Claim,
    mut slot: Slot,
    lane: Lane<Quiet>,
    rounds: u32,
) -> u64
    requires pass { IsPassOf pins.now pass.old }
    requires timed { IsTimed pins.now claim.cell × (slot.slot < 2) }
    requires loading { IsLoading claim.cell slot.slot (view pass.old) × (slot.filled ≡ None) }
    requires lane { HasLane ⟦<Quiet as Store>⟧.contents claim.cell lane (view pass.old) }
    ensures pass { IsPassOf pins.now pass.new × StaysBare (view pass.old) (view pass.new) }
{
    let done = fills_done(pins, pass, &claim, &mut slot, &lane, rounds);
    pins.give_lane(pass, lane);
    pins.give_slot(pass, slot);
    pins.abandon(pass, claim);
    done
}

/// Fills the slot.
fn fill_once(
    pins: &Pins<Quiet>,
    pass: &mut Pass<Quiet>,
    claim: &Claim,
    slot: &mut Slot,
    lane: &Lane<Quiet>,
    values: &[u64; 64],
)
    requires pass { IsPassOf pins.now pass.old }
    requires timed { IsTimed pins.now claim.now.cell × (slot.old.slot < 2) }
    requires filling { IsFilling claim.now.cell slot.old.slot slot.old.filled (view pass.old) }
    requires lane { HasLane ⟦<Quiet as Store>⟧.contents claim.now.cell lane.now (view pass.old) }
    requires bytes { (i : ℕ) → slice_index values.now i ≤ 255 }
    ensures pass { IsPassOf pins.now pass.new × SameRoster (view pass.old) (view pass.new) }
    ensures slot { slot.new.slot ≡ slot.old.slot }
    ensures filling { IsFilling claim.now.cell slot.old.slot slot.new.filled (view pass.new) }
    ensures lane { HasLane ⟦<Quiet as Store>⟧.contents claim.now.cell lane.now (view pass.new) }
{
    pins.fill(pass, claim, slot, lane, values);
}

/// How many voxels were filled.
fn fills_done(
    pins: &Pins<Quiet>,
    pass: &mut Pass<Quiet>,
    claim: &Claim,
    slot: &mut Slot,
    lane: &Lane<Quiet>,
    rounds: u32,
) -> u64
    requires pass { IsPassOf pins.now pass.old }
    requires timed { IsTimed pins.now claim.now.cell × (slot.old.slot < 2) }
    requires filling { IsFilling claim.now.cell slot.old.slot slot.old.filled (view pass.old) }
    requires lane { HasLane ⟦<Quiet as Store>⟧.contents claim.now.cell lane.now (view pass.old) }
    ensures pass { IsPassOf pins.now pass.new × SameRoster (view pass.old) (view pass.new) }
    ensures slot { slot.new.slot ≡ slot.old.slot }
    ensures filling { IsFilling claim.now.cell slot.old.slot slot.new.filled (view pass.new) }
    ensures lane { HasLane ⟦<Quiet as Store>⟧.contents claim.now.cell lane.now (view pass.new) }
{
    let values = ones();
    let mut done: u64 = 0;
    for _round in 0..rounds {
        fill_once(pins, pass, claim, slot, lane, &values);
        done = done.wrapping_add(64);
    }
    done
}
