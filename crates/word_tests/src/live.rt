// A live cell is used by two passes.
ghost use Rattle.std.specs.Prelude.{◌<◌};
ghost use Rattle.pin_words.specs.Ends.{IsBare};
ghost use Rattle.pin_rule.specs.Calls.{view, IsPassOf};
ghost use Rattle.pin_rule.specs.Trying.{StaysBare};
ghost use Rattle.word_tests.specs.Tried.{IsTried};

use crate::fixture::{grid, table};
use crate::quiet::Quiet;
use crate::steps::{Grid, measure};
use crate::threads::acquire;
use arr_history::Seen;
use pin_rule::{Pass, Pins};
use std::alloc::Global;
use std::process::Abort;
use std::test::Fail;

/// Makes an absent cell live in the slot of its number, with no pin.
fn open(
    rt: &impl Abort,
    alloc: Global,
    grid: &Grid,
    pins: &Pins<Quiet>,
    pass: &mut Pass<Quiet>,
    cell: u32,
)
    requires pass { IsPassOf pins.now pass.old }
    requires bare { IsBare (view pass.old) }
    requires tried { IsTried grid.now.0 grid.now.1 pins.now × (cell < 3) }
    ensures pass { IsPassOf pins.now pass.new × StaysBare (view pass.old) (view pass.new) }
{
    let Some(handle) = acquire(rt, alloc, grid, pins, pass, cell) else {
        panic!(rt; "the cell isn't live");
    };
    assert_eq!(rt; handle.slot(), cell);
    assert!(rt; handle.loaded());
    pins.unpin(pass, handle);
}

/// One pass writes to cell 0, and the other reads it, while both have a pin on it.
fn share(
    rt: &impl Abort,
    grid: &Grid,
    pins: &Pins<Quiet>,
    pass: &mut Pass<Quiet>,
    other: &mut Pass<Quiet>,
)
    requires pass { IsPassOf pins.now pass.old × IsBare (view pass.old) }
    requires other { IsPassOf pins.now other.old × IsBare (view other.old) }
    requires tried { IsTried grid.now.0 grid.now.1 pins.now }
    ensures pass { IsPassOf pins.now pass.new × StaysBare (view pass.old) (view pass.new) }
    ensures other { IsPassOf pins.now other.new × StaysBare (view other.old) (view other.new) }
{
    measure(rt, &grid.0, 0);
    let Ok(mut first) = pins.try_pin(other, 0) else {
        panic!(rt; "the cell isn't live");
    };
    pins.mark(other, &mut first);
    assert!(rt; first.marked());
    pins.write(other, &first, 0, 5);
    let Ok(second) = pins.try_pin(pass, 0) else {
        panic!(rt; "the cell isn't live");
    };
    assert_eq!(rt; pins.read(pass, &second, 0), 5);
    let refused = match pins.try_pin(pass, 2) {
        Ok(_pinned) => panic!(rt; "an absent cell was pinned"),
        Err(refused) => refused,
    };
    assert_eq!(rt; refused.state, Seen::Absent);
    pins.unpin(pass, second);
    pins.unpin(other, first);
}

#[test]
fn a_live_cell_is_shared(rt: HostRuntime) -> Result<(), Fail> {
    let alloc = rt.alloc();
    let grid = grid(&rt, alloc)?;
    let (pins, mut pass) = table(alloc, &grid, Vec::new(alloc))?;
    open(&rt, alloc, &grid, &pins, &mut pass, 0);
    open(&rt, alloc, &grid, &pins, &mut pass, 1);
    let mut other = pins.split(&mut pass);
    share(&rt, &grid, &pins, &mut pass, &mut other);
    pins.join(&mut pass, other);
    let (stores, _trail) = pins.close(pass);
    assert_eq!(rt; stores.len(), 1);
    Ok(())
}
