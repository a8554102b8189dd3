// A marked cell leaves, saved at once or after its put failed.
ghost use Rattle.std.specs.Prelude.{◌≡◌, true, None, IfOk};
ghost use Rattle.cell_grid.specs.Pyramid.{cells_of, frame_of};
ghost use Rattle.pin_rule.specs.Calls.{view, IsPassOf};
ghost use Rattle.pin_rule.specs.Trying.{StaysBare, IsLeaving, IsLast};
ghost use Rattle.word_tests.specs.Tried.{IsTried};

use crate::fixture::{grid, table};
use crate::hand::{claim, close, edit, load};
use crate::quiet::Quiet;
use crate::steps::{Grid, measure, turn_out};
use arr_history::Seen;
use cell_file::SaveErr;
use cell_store::{Got, Store};
use pin_rule::{Leaving, Pass, Pins};
use std::alloc::Global;
use std::process::Abort;
use std::test::Fail;

/// A table whose cell 0 was loaded, and edited to 9 at its first voxel.
fn edited(
    rt: &impl Abort,
    alloc: Global,
    grid: &Grid,
    fail: Vec<u64>,
) -> Result<(Pins<Quiet>, Pass<Quiet>), Fail>
    requires sizes { (cells_of grid.now.0 ≡ 3) × (frame_of grid.now.0 ≡ 8) × (grid.now.1.levels ≡ grid.now.0) }
    ensures tried { IfOk result (λ r. IsTried grid.now.0 grid.now.1 r.0) }
    ensures pass { IfOk result (λ r. IsPassOf r.0 r.1 × IsLast (view r.1)) }
{
    let (pins, mut pass) = table(alloc, grid, fail)?;
    let mut other = pins.split(&mut pass);
    let (claim, slot) = claim(rt, &pins, &mut pass);
    let handle = load(rt, alloc, grid, &pins, &mut pass, &mut other, claim, slot);
    edit(rt, grid, &pins, &mut pass, handle);
    pins.join(&mut pass, other);
    Ok((pins, pass))
}

/// Takes the lane and saves the closed cell.
fn save_closed(
    rt: &impl Abort,
    grid: &Grid,
    pins: &Pins<Quiet>,
    pass: &mut Pass<Quiet>,
    leaving: Leaving,
) -> Result<(), SaveErr>
    requires pass { IsPassOf pins.now pass.old }
    requires tried { IsTried grid.now.0 grid.now.1 pins.now }
    requires leaving { (leaving.cell ≡ 0) × (leaving.slot ≡ 0) × (leaving.marked ≡ true) × IsLeaving 0 0 true (view pass.old) × ((view pass.old).lane ≡ None) }
    ensures pass { IsPassOf pins.now pass.new × StaysBare (view pass.old) (view pass.new) }
{
    match pins.try_lane(pass, 0) {
        Ok(lane) => turn_out(rt, grid, pins, pass, leaving, lane),
        Err(_) => panic!(rt; "the lane is taken"),
    }
}

/// Closes a table whose store holds the edited cell.
fn shut(rt: &impl Abort, alloc: Global, pins: Pins<Quiet>, pass: Pass<Quiet>)
    requires pass { IsPassOf pins pass × IsLast (view pass) }
{
    let (mut stores, _trail) = pins.close(pass);
    let mut bytes = Vec::new(alloc);
    let got = match stores.get_mut(0) {
        Some(store) => store.get("cells/s0/0/0/0", 64, &mut bytes),
        None => Got::Missing,
    };
    assert_eq!(rt; got, Got::Found);
    let block = [
        0, 0, 0, 3, 0, 0, 0, 2, 0, 0, 0, 2, 0, 0, 0, 2, 9, 0, 0, 0, 0, 0, 0, 0,
    ];
    assert_eq!(rt; bytes.as_slice(), block.as_slice());
}

#[test]
fn a_marked_cell_is_saved_and_gone(rt: HostRuntime) -> Result<(), Fail> {
    let alloc = rt.alloc();
    let grid = grid(&rt, alloc)?;
    let (pins, mut pass) = edited(&rt, alloc, &grid, Vec::new(alloc))?;
    let leaving = close(&rt, &pins, &mut pass);
    let refused = match pins.try_pin(&mut pass, 0) {
        Ok(_handle) => panic!(rt; "a closed cell was pinned"),
        Err(refused) => refused,
    };
    assert_eq!(rt; refused.state, Seen::Leaving);
    assert_eq!(rt; save_closed(&rt, &grid, &pins, &mut pass, leaving), Ok(()));
    let Ok(claim) = pins.try_claim(&mut pass, 0) else {
        panic!(rt; "the cell isn't absent");
    };
    pins.abandon(&mut pass, claim);
    shut(&rt, alloc, pins, pass);
    Ok(())
}

#[test]
fn a_cell_whose_put_failed_comes_back_and_is_saved(rt: HostRuntime) -> Result<(), Fail> {
    let alloc = rt.alloc();
    let grid = grid(&rt, alloc)?;
    let (pins, mut pass) = edited(&rt, alloc, &grid, [3].to_vec(alloc)?)?;
    let leaving = close(&rt, &pins, &mut pass);
    let fault = save_closed(&rt, &grid, &pins, &mut pass, leaving);
    assert_eq!(rt; fault, Err(SaveErr::WriteFault));
    let Ok(handle) = pins.try_pin(&mut pass, 0) else {
        panic!(rt; "the cell didn't come back");
    };
    measure(&rt, &grid.0, 0);
    assert_eq!(rt; pins.read(&mut pass, &handle, 0), 9);
    pins.unpin(&mut pass, handle);
    let leaving = close(&rt, &pins, &mut pass);
    assert_eq!(rt; save_closed(&rt, &grid, &pins, &mut pass, leaving), Ok(()));
    shut(&rt, alloc, pins, pass);
    Ok(())
}
