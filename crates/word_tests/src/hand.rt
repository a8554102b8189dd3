// The pins, slots and lanes worked by hand.
ghost use Rattle.std.specs.Prelude.{◌≡◌, ◌<◌, true, false, None};
ghost use Rattle.pin_words.specs.Ends.{IsBare};
ghost use Rattle.pin_rule.specs.Calls.{view, cell_count, slot_count, IsPassOf};
ghost use Rattle.pin_rule.specs.Trying.{SameRoster, StaysBare, IsLoading, IsUsing, IsLeaving};
ghost use Rattle.word_tests.specs.Tried.{IsTried};

use crate::fixture::{grid, table};
use crate::quiet::Quiet;
use crate::steps::{Grid, measure, publish};
use arr_history::Seen;
use cell_file::fetch;
use pin_rule::{Claim, Handle, Leaving, Pass, Pins, Slot};
use std::alloc::Global;
use std::process::Abort;
use std::test::Fail;

/// Claims cell 0 and slot 0.
pub fn claim(rt: &impl Abort, pins: &Pins<Quiet>, pass: &mut Pass<Quiet>) -> (Claim, Slot)
    requires pass { IsPassOf pins.now pass.old }
    requires bare { IsBare (view pass.old) }
    requires cells { 0 < cell_count pins.now }
    ensures pass { IsPassOf pins.now pass.new × SameRoster (view pass.old) (view pass.new) }
    ensures given { (result.0.cell ≡ 0) × (result.1.slot ≡ 0) × (result.1.filled ≡ None) }
    ensures loading { IsLoading 0 0 (view pass.new) × ((view pass.new).lane ≡ None) }
{
    let refused = match pins.try_pin(pass, 0) {
        Ok(_pinned) => panic!(rt; "the cell is live"),
        Err(refused) => refused,
    };
    assert_eq!(rt; refused.state, Seen::Absent);
    let Ok(claim) = pins.try_claim(pass, 0) else {
        panic!(rt; "the cell is taken");
    };
    let taken = match pins.try_claim(pass, 0) {
        Ok(_claim) => panic!(rt; "the cell was claimed twice"),
        Err(taken) => taken,
    };
    assert_eq!(rt; taken.word, 33554432);
    let Ok(slot) = pins.try_slot(pass) else {
        panic!(rt; "no slot is free");
    };
    assert_eq!(rt; slot.slot(), 0);
    (claim, slot)
}

/// Fills the slot with what the store gives, and publishes the cell.
pub fn load(
    rt: &impl Abort,
    alloc: Global,
    grid: &Grid,
    pins: &Pins<Quiet>,
    pass: &mut Pass<Quiet>,
    other: &mut Pass<Quiet>,
    claim: Claim,
    slot: Slot,
) -> Handle
    requires pass { IsPassOf pins.now pass.old × IsPassOf pins.now other.old }
    requires bare { IsBare (view other.old) }
    requires loading { IsLoading 0 0 (view pass.old) × ((view pass.old).lane ≡ None) }
    requires given { (claim.cell ≡ 0) × (slot.slot ≡ 0) × (slot.filled ≡ None) }
    requires tried { IsTried grid.now.0 grid.now.1 pins.now }
    ensures pass { IsPassOf pins.now pass.new × SameRoster (view pass.old) (view pass.new) }
    ensures other { IsPassOf pins.now other.new × StaysBare (view other.old) (view other.new) }
    ensures handle { (result.cell ≡ 0) × (result.slot ≡ 0) × (result.marked ≡ false) }
    ensures using { IsUsing 0 0 false (view pass.new) × ((view pass.new).lane ≡ None) }
{
    let (geometry, keys) = grid;
    let Ok(mut lane) = pins.try_lane(pass, 0) else {
        panic!(rt; "the lane is taken");
    };
    let taken = match pins.try_lane(other, 0) {
        Ok(_lane) => panic!(rt; "the lane was taken twice"),
        Err(taken) => taken,
    };
    assert_eq!(rt; taken.word, 1);
    let mut buf = Vec::new(alloc);
    let mut out = [7u64; 8];
    measure(rt, geometry, 0);
    let fetched = fetch(&mut lane.store, keys, geometry, 0, &mut buf, &mut out);
    assert_eq!(rt; fetched, Ok(()));
    assert_eq!(rt; out, [0; 8]);
    publish(pins, pass, claim, slot, lane, &[0; 8])
}

/// Marks the cell and writes to it, while its pin keeps it from being closed.
pub fn edit(
    rt: &impl Abort,
    grid: &Grid,
    pins: &Pins<Quiet>,
    pass: &mut Pass<Quiet>,
    mut handle: Handle,
)
    requires pass { IsPassOf pins.now pass.old }
    requires handle { (handle.cell ≡ 0) × (handle.slot ≡ 0) × (handle.marked ≡ false) }
    requires using { IsUsing 0 0 false (view pass.old) × ((view pass.old).lane ≡ None) }
    requires tried { IsTried grid.now.0 grid.now.1 pins.now }
    ensures pass { IsPassOf pins.now pass.new × StaysBare (view pass.old) (view pass.new) }
{
    measure(rt, &grid.0, 0);
    let busy = match pins.try_close(pass, 0, 0, false) {
        Ok(_leaving) => panic!(rt; "a pinned cell was closed"),
        Err(busy) => busy,
    };
    assert_eq!(rt; busy.word, 67108865);
    pins.mark(pass, &mut handle);
    let busy = match pins.try_close(pass, 0, 0, true) {
        Ok(_leaving) => panic!(rt; "a pinned cell was closed"),
        Err(busy) => busy,
    };
    assert_eq!(rt; busy.word, 83886081);
    pins.write(pass, &handle, 0, 9);
    assert_eq!(rt; pins.read(pass, &handle, 0), 9);
    pins.unpin(pass, handle);
}

/// Closes the marked cell.
pub fn close(rt: &impl Abort, pins: &Pins<Quiet>, pass: &mut Pass<Quiet>) -> Leaving
    requires pass { IsPassOf pins.now pass.old }
    requires bare { IsBare (view pass.old) }
    requires sizes { (0 < cell_count pins.now) × (0 < slot_count pins.now) }
    ensures pass { IsPassOf pins.now pass.new × SameRoster (view pass.old) (view pass.new) }
    ensures leaving { (result.cell ≡ 0) × (result.slot ≡ 0) × (result.marked ≡ true) × IsLeaving 0 0 true (view pass.new) × ((view pass.new).lane ≡ None) }
{
    match pins.try_close(pass, 0, 0, true) {
        Ok(leaving) => leaving,
        Err(_) => panic!(rt; "the cell is in use"),
    }
}

#[test]
fn pins_by_hand(rt: HostRuntime) -> Result<(), Fail> {
    let alloc = rt.alloc();
    let grid = grid(&rt, alloc)?;
    let (pins, mut pass) = table(alloc, &grid, Vec::new(alloc))?;
    let mut other = pins.split(&mut pass);
    let (claim, slot) = claim(&rt, &pins, &mut pass);
    let handle = load(&rt, alloc, &grid, &pins, &mut pass, &mut other, claim, slot);
    edit(&rt, &grid, &pins, &mut pass, handle);
    let leaving = close(&rt, &pins, &mut pass);
    measure(&rt, &grid.0, 0);
    assert_eq!(rt; pins.frame_word(&mut pass, &leaving, 0), 9);
    pins.back(&mut pass, leaving);
    pins.join(&mut pass, other);
    let (stores, _trail) = pins.close(pass);
    assert_eq!(rt; stores.len(), 1);
    Ok(())
}
