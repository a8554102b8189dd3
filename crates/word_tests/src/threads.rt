// Threads that load, write, evict and read back through a table of two slots.
ghost use Rattle.std.specs.Prelude.{◌≡◌, ◌<◌, true, false, None, MatchOption};
ghost use Rattle.pin_words.specs.Ends.{IsBare};
ghost use Rattle.pin_rule.specs.Calls.{view, cell_count, slot_count, IsPassOf};
ghost use Rattle.pin_rule.specs.Trying.{StaysBare, SameRoster, IsLoading, IsUsing, IsLeaving, HasLane};
ghost use Rattle.word_tests.specs.Tried.{IsTried};

use crate::fixture::{grid, table};
use crate::quiet::Quiet;
use crate::steps::{Grid, measure, publish, turn_out};
use cell_file::fetch;
use cell_store::{Got, Store};
use pin_rule::{Claim, Handle, Lane, Leaving, Pass, Pins, Slot};
use std::alloc::Global;
use std::process::Abort;
use std::test::Fail;
use std::thread::{Threads, join};

/// Loads a claimed cell with the lane. None where the store fails, and nothing is held then.
fn load(
    rt: &impl Abort,
    alloc: Global,
    grid: &Grid,
    pins: &Pins<Quiet>,
    pass: &mut Pass<Quiet>,
    claim: Claim,
    slot: Slot,
    mut lane: Lane<Quiet>,
) -> Option<Handle>
    requires pass { IsPassOf pins.now pass.old }
    requires tried { IsTried grid.now.0 grid.now.1 pins.now × (claim.cell < 3) × (slot.slot < 2) }
    requires loading { IsLoading claim.cell slot.slot (view pass.old) × (slot.filled ≡ None) }
    requires lane { HasLane ⟦<Quiet as Store>⟧.contents 0 lane (view pass.old) }
    ensures pass { IsPassOf pins.now pass.new × SameRoster (view pass.old) (view pass.new) }
    ensures done { MatchOption result (IsBare (view pass.new)) (λ h. (h.cell ≡ claim.cell) × (h.slot < 2) × (h.marked ≡ false) × IsUsing h.cell h.slot false (view pass.new) × ((view pass.new).lane ≡ None)) }
{
    let (geometry, keys) = grid;
    let cell = claim.cell();
    measure(rt, geometry, cell);
    let mut buf = Vec::new(alloc);
    let mut out = [0u64; 8];
    match fetch(&mut lane.store, keys, geometry, cell, &mut buf, &mut out) {
        Ok(()) => Some(publish(pins, pass, claim, slot, lane, &out[..8])),
        Err(_) => {
            pins.give_lane(pass, lane);
            pins.give_slot(pass, slot);
            pins.abandon(pass, claim);
            None
        }
    }
}

/// Claims a cell and loads it. None where another pass is in the way, and nothing is held then.
fn claim_and_load(
    rt: &impl Abort,
    alloc: Global,
    grid: &Grid,
    pins: &Pins<Quiet>,
    pass: &mut Pass<Quiet>,
    cell: u32,
) -> Option<Handle>
    requires pass { IsPassOf pins.now pass.old }
    requires bare { IsBare (view pass.old) }
    requires tried { IsTried grid.now.0 grid.now.1 pins.now × (cell < 3) }
    ensures pass { IsPassOf pins.now pass.new × SameRoster (view pass.old) (view pass.new) }
    ensures done { MatchOption result (IsBare (view pass.new)) (λ h. (h.cell ≡ cell) × (h.slot < 2) × (h.marked ≡ false) × IsUsing h.cell h.slot false (view pass.new) × ((view pass.new).lane ≡ None)) }
{
    let Ok(claim) = pins.try_claim(pass, cell) else {
        return None;
    };
    let Ok(slot) = pins.try_slot(pass) else {
        pins.abandon(pass, claim);
        return None;
    };
    match pins.try_lane(pass, 0) {
        Ok(lane) => load(rt, alloc, grid, pins, pass, claim, slot, lane),
        Err(_) => {
            pins.give_slot(pass, slot);
            pins.abandon(pass, claim);
            None
        }
    }
}

/// Pins a cell, which is loaded first where it is absent. None where another pass is in the way.
pub fn acquire(
    rt: &impl Abort,
    alloc: Global,
    grid: &Grid,
    pins: &Pins<Quiet>,
    pass: &mut Pass<Quiet>,
    cell: u32,
) -> Option<Handle>
    requires pass { IsPassOf pins.now pass.old }
    requires bare { IsBare (view pass.old) }
    requires tried { IsTried grid.now.0 grid.now.1 pins.now × (cell < 3) }
    ensures pass { IsPassOf pins.now pass.new × SameRoster (view pass.old) (view pass.new) }
    ensures done { MatchOption result (IsBare (view pass.new)) (λ h. (h.cell ≡ cell) × (h.slot < 2) × (h.marked ≡ false) × IsUsing h.cell h.slot false (view pass.new) × ((view pass.new).lane ≡ None)) }
{
    match pins.try_pin(pass, cell) {
        Ok(handle) => Some(handle),
        Err(_) => claim_and_load(rt, alloc, grid, pins, pass, cell),
    }
}

/// Reads a voxel of a cell and writes to it. None where another pass is in the way.
fn exchange(
    rt: &impl Abort,
    alloc: Global,
    grid: &Grid,
    pins: &Pins<Quiet>,
    pass: &mut Pass<Quiet>,
    cell: u32,
    at: u32,
    value: u8,
) -> Option<u64>
    requires pass { IsPassOf pins.now pass.old }
    requires bare { IsBare (view pass.old) }
    requires tried { IsTried grid.now.0 grid.now.1 pins.now × (cell < 3) × (at < 8) }
    ensures pass { IsPassOf pins.now pass.new × StaysBare (view pass.old) (view pass.new) }
{
    measure(rt, &grid.0, cell);
    let mut handle = acquire(rt, alloc, grid, pins, pass, cell)?;
    let old = pins.read(pass, &handle, at);
    pins.mark(pass, &mut handle);
    pins.write(pass, &handle, at, value as u64);
    pins.unpin(pass, handle);
    Some(old)
}

/// Closes a marked cell in a slot. None where it isn't there, or has a pin.
fn close(pins: &Pins<Quiet>, pass: &mut Pass<Quiet>, cell: u32, slot: u32) -> Option<Leaving>
    requires pass { IsPassOf pins.now pass.old }
    requires bare { IsBare (view pass.old) }
    requires place { (cell < cell_count pins.now) × (slot < slot_count pins.now) }
    ensures pass { IsPassOf pins.now pass.new × SameRoster (view pass.old) (view pass.new) }
    ensures done { MatchOption result (IsBare (view pass.new)) (λ l. (l.cell ≡ cell) × (l.slot ≡ slot) × (l.marked ≡ true) × IsLeaving cell slot true (view pass.new) × ((view pass.new).lane ≡ None)) }
{
    match pins.try_close(pass, cell, slot, true) {
        Ok(leaving) => Some(leaving),
        Err(_) => None,
    }
}

/// Turns a marked cell out of a slot, where it is there and nobody is in the way.
fn evict(
    rt: &impl Abort,
    grid: &Grid,
    pins: &Pins<Quiet>,
    pass: &mut Pass<Quiet>,
    cell: u32,
    slot: u32,
)
    requires pass { IsPassOf pins.now pass.old }
    requires bare { IsBare (view pass.old) }
    requires tried { IsTried grid.now.0 grid.now.1 pins.now × (cell < 3) × (slot < 2) }
    ensures pass { IsPassOf pins.now pass.new × StaysBare (view pass.old) (view pass.new) }
{
    let Some(leaving) = close(pins, pass, cell, slot) else {
        return;
    };
    match pins.try_lane(pass, 0) {
        Ok(lane) => {
            let saved = turn_out(rt, grid, pins, pass, leaving, lane);
            assert!(rt; saved.is_ok());
        }
        Err(_) => pins.back(pass, leaving),
    }
}

/// Writes to a voxel of each cell by turns, evicts, and reads back what it wrote. Tells what it wrote last to each cell.
fn work(
    rt: &impl Abort,
    alloc: Global,
    grid: &Grid,
    pins: &Pins<Quiet>,
    mut pass: Pass<Quiet>,
    at: u32,
) -> (Pass<Quiet>, [u8; 3])
    requires pass { IsPassOf pins.now pass × IsBare (view pass) }
    requires tried { IsTried grid.now.0 grid.now.1 pins.now × (at < 8) }
    ensures pass { IsPassOf pins.now result.0 × StaysBare (view pass) (view result.0) }
{
    let mut last = [0u8; 3];
    for turn in 0..3000u32 {
        let cell = turn % 3;
        let value = (turn % 251) as u8;
        if let Some(old) = exchange(rt, alloc, grid, pins, &mut pass, cell, at, value) {
            assert_eq!(rt; old, last[cell as usize] as u64);
            last[cell as usize] = value;
        }
        evict(rt, grid, pins, &mut pass, cell, turn / 3 % 2);
    }
    (pass, last)
}

/// Two threads at work on the same cells.
fn work_twice<R: Threads + Abort + Sync>(
    rt: &R,
    alloc: Global,
    grid: &Grid,
    pins: &Pins<Quiet>,
    one: Pass<Quiet>,
    two: Pass<Quiet>,
) -> ((Pass<Quiet>, [u8; 3]), (Pass<Quiet>, [u8; 3]))
    requires one { IsPassOf pins.now one × IsBare (view one) }
    requires two { IsPassOf pins.now two × IsBare (view two) }
    requires tried { IsTried grid.now.0 grid.now.1 pins.now }
    ensures one { IsPassOf pins.now result.0.0 × StaysBare (view one) (view result.0.0) }
    ensures two { IsPassOf pins.now result.1.0 × StaysBare (view two) (view result.1.0) }
{
    join(
        rt,
        move ||
            requires { IsPassOf pins.now one × IsBare (view one) × IsTried grid.now.0 grid.now.1 pins.now }
            ensures { IsPassOf pins.entry.now result.0 × StaysBare (view one) (view result.0) }
        { work(rt, alloc, grid, pins, one, 0) },
        move ||
            requires { IsPassOf pins.now two × IsBare (view two) × IsTried grid.now.0 grid.now.1 pins.now }
            ensures { IsPassOf pins.entry.now result.0 × StaysBare (view two) (view result.0) }
        { work(rt, alloc, grid, pins, two, 5) },
    )
}

/// Evicts a cell, reads it back and evicts it again.
fn read_back(
    rt: &impl Abort,
    alloc: Global,
    grid: &Grid,
    pins: &Pins<Quiet>,
    pass: &mut Pass<Quiet>,
    cell: u32,
    last: u8,
)
    requires pass { IsPassOf pins.now pass.old }
    requires bare { IsBare (view pass.old) }
    requires tried { IsTried grid.now.0 grid.now.1 pins.now × (cell < 3) }
    ensures pass { IsPassOf pins.now pass.new × StaysBare (view pass.old) (view pass.new) }
{
    evict(rt, grid, pins, pass, cell, 0);
    evict(rt, grid, pins, pass, cell, 1);
    let found = exchange(rt, alloc, grid, pins, pass, cell, 0, last);
    assert_eq!(rt; found, Some(last as u64));
    evict(rt, grid, pins, pass, cell, 0);
    evict(rt, grid, pins, pass, cell, 1);
}

/// What the store holds of a cell at the two voxels.
fn stored(rt: &impl Abort, alloc: Global, stores: &mut Vec<Quiet>, key: &str) -> (u8, u8) {
    let Some(store) = stores.get_mut(0) else {
        return (0, 0);
    };
    let mut bytes = Vec::new(alloc);
    assert_eq!(rt; store.get(key, 24, &mut bytes), Got::Found);
    assert!(rt; bytes.len() == 24);
    (bytes[16], bytes[21])
}

#[test]
fn two_threads_write_through_two_slots(rt: HostRuntime) -> Result<(), Fail> {
    let alloc = rt.alloc();
    let grid = grid(&rt, alloc)?;
    let (pins, mut pass) = table(alloc, &grid, Vec::new(alloc))?;
    let other = pins.split(&mut pass);
    let (first, second) = work_twice(&rt, alloc, &grid, &pins, pass, other);
    let (mut pass, one) = first;
    let (other, two) = second;
    pins.join(&mut pass, other);
    evict(&rt, &grid, &pins, &mut pass, 1, 0);
    evict(&rt, &grid, &pins, &mut pass, 1, 1);
    evict(&rt, &grid, &pins, &mut pass, 2, 0);
    evict(&rt, &grid, &pins, &mut pass, 2, 1);
    read_back(&rt, alloc, &grid, &pins, &mut pass, 0, one[0]);
    read_back(&rt, alloc, &grid, &pins, &mut pass, 1, one[1]);
    read_back(&rt, alloc, &grid, &pins, &mut pass, 2, one[2]);
    let (mut stores, _trail) = pins.close(pass);
    let cell = stored(&rt, alloc, &mut stores, "cells/s0/0/0/0");
    assert_eq!(rt; cell, (one[0], two[0]));
    let cell = stored(&rt, alloc, &mut stores, "cells/s0/1/0/0");
    assert_eq!(rt; cell, (one[1], two[1]));
    let cell = stored(&rt, alloc, &mut stores, "cells/s0/2/0/0");
    assert_eq!(rt; cell, (one[2], two[2]));
    Ok(())
}
