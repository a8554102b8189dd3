// A cell is loaded from a store that tells what it holds.
ghost use Rattle.std.specs.Prelude.{◌≡◌, ◌<◌, false, None};
ghost use Rattle.pin_words.specs.Ends.{IsBare};
ghost use Rattle.pin_rule.specs.Calls.{view, IsPassOf};
ghost use Rattle.pin_rule.specs.Trying.{SameRoster, StaysBare, IsLoading, IsUsing};
ghost use Rattle.word_tests.specs.Tried.{IsTried};

use crate::fixture::{grid, table_over};
use crate::steps::{Grid, measure, publish};
use cell_file::fetch;
use cell_store::MemStore;
use pin_rule::{Claim, Handle, Pass, Pins, Slot};
use std::alloc::Global;
use std::collections::BTreeMap;
use std::process::Abort;
use std::test::Fail;

/// Loads a claimed cell with the lane.
fn load(
    rt: &impl Abort,
    alloc: Global,
    grid: &Grid,
    pins: &Pins<MemStore>,
    pass: &mut Pass<MemStore>,
    claim: Claim,
    slot: Slot,
) -> Handle
    requires pass { IsPassOf pins.now pass.old }
    requires tried { IsTried grid.now.0 grid.now.1 pins.now × (claim.cell < 3) × (slot.slot < 2) }
    requires loading { IsLoading claim.cell slot.slot (view pass.old) × (slot.filled ≡ None) × ((view pass.old).lane ≡ None) }
    ensures pass { IsPassOf pins.now pass.new × SameRoster (view pass.old) (view pass.new) }
    ensures handle { (result.cell ≡ claim.cell) × (result.slot ≡ slot.slot) × (result.marked ≡ false) }
    ensures using { IsUsing claim.cell slot.slot false (view pass.new) × ((view pass.new).lane ≡ None) }
{
    let (geometry, keys) = grid;
    let cell = claim.cell();
    let Ok(mut lane) = pins.try_lane(pass, 0) else {
        panic!(rt; "the lane is taken");
    };
    measure(rt, geometry, cell);
    let mut buf = Vec::new(alloc);
    let mut out = [7u64; 8];
    match fetch(&mut lane.store, keys, geometry, cell, &mut buf, &mut out) {
        Ok(()) => publish(pins, pass, claim, slot, lane, &out[..8]),
        Err(_) => panic!(rt; "the store failed"),
    }
}

/// Loads cell 0, reads it and lets go of it.
fn visit(
    rt: &impl Abort,
    alloc: Global,
    grid: &Grid,
    pins: &Pins<MemStore>,
    pass: &mut Pass<MemStore>,
)
    requires pass { IsPassOf pins.now pass.old }
    requires bare { IsBare (view pass.old) }
    requires tried { IsTried grid.now.0 grid.now.1 pins.now }
    ensures pass { IsPassOf pins.now pass.new × StaysBare (view pass.old) (view pass.new) }
{
    let Ok(claim) = pins.try_claim(pass, 0) else {
        panic!(rt; "the cell isn't absent");
    };
    let Ok(slot) = pins.try_slot(pass) else {
        panic!(rt; "no slot is free");
    };
    let handle = load(rt, alloc, grid, pins, pass, claim, slot);
    measure(rt, &grid.0, 0);
    assert_eq!(rt; pins.read(pass, &handle, 7), 0);
    pins.unpin(pass, handle);
}

#[test]
fn a_cell_is_loaded_from_a_store_that_tells(rt: HostRuntime) -> Result<(), Fail> {
    let alloc = rt.alloc();
    let grid = grid(&rt, alloc)?;
    let store = MemStore::new(alloc, BTreeMap::new(alloc), Vec::new(alloc));
    let (pins, mut pass) = table_over(alloc, &grid, vec![in alloc; store]?)?;
    visit(&rt, alloc, &grid, &pins, &mut pass);
    let (stores, _trail) = pins.close(pass);
    assert_eq!(rt; stores.len(), 1);
    Ok(())
}
