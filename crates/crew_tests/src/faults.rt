// Two threads over a store some of whose calls fail.
ghost use Rattle.std.specs.Prelude.{◌≡◌, []};
ghost use Rattle.live_cells.specs.Cells.{knows, IsCellPassOf};

use crate::fixture::empty;
use crate::pairs::{join_and_shut, two_passes};
use crate::single::{get, set};
use arr_history::Closed;
use cell_file::{AcquireErr, CellErr};
use cell_store::MemStore;
use live_cells::{CellPass, Cells};
use std::alloc::Global;
use std::process::Abort;
use std::sync::Wait;
use std::test::Fail;
use std::thread::{Threads, join};

/// What a thread wrote last to each cell, as far as it wasn't refused, and how many of its calls were refused for a fault.
#[derive(Clone, Copy)]
struct Told {
    last: [u64; 3],
    reads: u64,
    writes: u64,
}

impl Told {
    /// Counts a refusal, which is for a fault.
    fn count(&mut self, rt: &impl Abort, err: CellErr) {
        match err {
            CellErr::Acquire(AcquireErr::ReadFault) => self.reads = self.reads.wrapping_add(1),
            CellErr::Acquire(AcquireErr::WriteFault) => self.writes = self.writes.wrapping_add(1),
            _ => panic!(rt; "refused, and not for a fault"),
        }
    }
}

/// Sets a voxel of a cell.
fn set_told<R: Abort + Wait>(
    rt: &R,
    cells: &Cells<MemStore>,
    pass: &mut CellPass<MemStore>,
    told: &mut Told,
    cell: usize,
    row: u64,
)
    requires pass { IsCellPassOf cells.now pass.old }
    requires free { (knows pass.old).pins ≡ [] }
    ensures pass { IsCellPassOf cells.now pass.new }
    ensures free { (knows pass.new).pins ≡ [] }
{
    let value = row.wrapping_add(1);
    match set(rt, cells, pass, [2 * (cell % 3) as u64, row, 0], value) {
        Ok(()) => told.last[cell % 3] = value,
        Err(err) => told.count(rt, err),
    }
}

/// Gets a voxel of a cell, and finds what was set.
fn get_told<R: Abort + Wait>(
    rt: &R,
    cells: &Cells<MemStore>,
    pass: &mut CellPass<MemStore>,
    told: &mut Told,
    cell: usize,
    row: u64,
)
    requires pass { IsCellPassOf cells.now pass.old }
    requires free { (knows pass.old).pins ≡ [] }
    ensures pass { IsCellPassOf cells.now pass.new }
    ensures free { (knows pass.new).pins ≡ [] }
{
    match get(rt, cells, pass, [2 * (cell % 3) as u64, row, 0]) {
        Ok(value) => assert_eq!(rt; value, told.last[cell % 3]),
        Err(err) => told.count(rt, err),
    }
}

/// Sets the number of a row and one more in the first voxel of that row in each cell, and gets it back in each.
fn set_and_get<R: Abort + Wait>(
    rt: &R,
    cells: &Cells<MemStore>,
    mut pass: CellPass<MemStore>,
    row: u64,
) -> (CellPass<MemStore>, Told)
    requires pass { IsCellPassOf cells.now pass }
    requires free { (knows pass).pins ≡ [] }
    ensures pass { IsCellPassOf cells.now result.0 }
    ensures free { (knows result.0).pins ≡ [] }
{
    let mut told = Told {
        last: [0; 3],
        reads: 0,
        writes: 0,
    };
    for cell in 0..3 {
        set_told(rt, cells, &mut pass, &mut told, cell, row);
    }
    for cell in 0..3 {
        get_told(rt, cells, &mut pass, &mut told, cell, row);
    }
    (pass, told)
}

/// Two threads that do so at once, over a store whose calls of these numbers fail.
fn set_and_get_at_once<R: Abort + Threads + Wait + Sync>(
    rt: &R,
    alloc: Global,
    fail: Vec<u64>,
) -> Result<(Closed<MemStore>, [Told; 2]), Fail> {
    let (kept, one, two) = two_passes(rt, alloc, empty(alloc, fail))?;
    let shared = &kept.0;
    let ((one, told), (two, others)) = join(
        rt,
        move ||
            requires { IsCellPassOf shared.now one × ((knows one).pins ≡ []) }
            ensures { IsCellPassOf shared.entry.now result.0 × ((knows result.0).pins ≡ []) }
        { set_and_get(rt, shared, one, 0) },
        move ||
            requires { IsCellPassOf shared.now two × ((knows two).pins ≡ []) }
            ensures { IsCellPassOf shared.entry.now result.0 × ((knows result.0).pins ≡ []) }
        { set_and_get(rt, shared, two, 1) },
    );
    Ok((join_and_shut(kept, one, two), [told, others]))
}

const CELL_KEYS: [&str; 3] = ["cells/s0/0/0/0", "cells/s0/1/0/0", "cells/s0/2/0/0"];

/// Compares the block of a cell: the last number of each thread in its row, and zeros.
fn expect_block(
    rt: &impl Abort,
    store: &MemStore,
    cell: usize,
    told: [Told; 2],
) -> Result<(), Fail> {
    let held = store.held().get(CELL_KEYS[cell % 3]).ok_or("not held")?;
    let [one, two] = told;
    let block = [
        0,
        0,
        0,
        3,
        0,
        0,
        0,
        2,
        0,
        0,
        0,
        2,
        0,
        0,
        0,
        2,
        one.last[cell % 3],
        0,
        two.last[cell % 3],
        0,
        0,
        0,
        0,
        0,
    ];
    assert_eq!(rt; held.len(), 24);
    for at in 0..24 {
        let byte = held.get(at).ok_or("too short")?;
        assert_eq!(rt; u64::from(*byte), block[at], "cell {cell}, byte {at}");
    }
    Ok(())
}

/// Compares how often calls were refused, and which cells are named, with what the call of this number was that failed, if it was made.
fn expect_causes(
    rt: &impl Abort,
    store: &MemStore,
    number: usize,
    told: [Told; 2],
    unsaved: usize,
) -> Result<(), Fail> {
    let [one, two] = told;
    let reads = one.reads.wrapping_add(two.reads);
    let writes = one
        .writes
        .wrapping_add(two.writes)
        .wrapping_add(unsaved as u64);
    let wanted = match store.log().get(number) {
        None => (0, 0),
        Some(line) => {
            assert!(rt; !line.ok);
            if line.put { (0, 1) } else { (1, 0) }
        }
    };
    assert_eq!(rt; (reads, writes), wanted, "behind {number} calls");
    Ok(())
}

/// Two threads at work over a store whose call behind so many fails: no edit is lost but where its cell is named.
fn lose_nothing<R: Abort + Threads + Wait + Sync>(
    rt: &R,
    alloc: Global,
    number: usize,
) -> Result<(), Fail> {
    let fail = vec![in alloc; (number as u64).wrapping_add(1)]?;
    let (closed, told) = set_and_get_at_once(rt, alloc, fail)?;
    let store = closed.stores.get(0).ok_or("the store didn't come back")?;
    expect_causes(rt, store, number, told, closed.unsaved.len())?;
    let mut named = [false; 3];
    for unsaved in &closed.unsaved {
        assert!(rt; !unsaved.memory);
        named[unsaved.cell as usize % 3] = true;
    }
    for cell in 0..3 {
        if !named[cell] {
            expect_block(rt, store, cell, told)?;
        }
    }
    Ok(())
}

#[test]
fn no_edit_is_lost_where_a_call_of_the_store_fails(rt: HostRuntime) -> Result<(), Fail> {
    for number in 0..24 {
        lose_nothing(&rt, rt.alloc(), number)?;
    }
    Ok(())
}
