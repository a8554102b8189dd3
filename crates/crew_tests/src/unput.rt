// Two threads over a store whose puts fail.
ghost use Rattle.std.specs.Prelude.{◌≡◌, []};
ghost use Rattle.live_cells.specs.Cells.{knows, IsCellPassOf};

use crate::fixture::empty;
use crate::pairs::{join_and_shut, two_passes};
use crate::single::{get, set};
use arr_history::{Closed, Unsaved};
use cell_file::{AcquireErr, CellErr};
use cell_store::MemStore;
use live_cells::{CellPass, Cells};
use std::alloc::Global;
use std::process::Abort;
use std::sync::Wait;
use std::test::Fail;
use std::thread::{Threads, join};

/// The numbers of the calls that fail, the cells that are named at the end, and the lengths of the blocks of the two edited cells.
#[derive(Clone, Copy)]
struct Case<'a> {
    fail: &'a [u64],
    named: &'a [u32],
    lens: [usize; 2],
}

/// Each of the first two cells is got under two keys, and then each thread has a put that fails. A put that fails leaves half of the
/// 24 bytes of a block.
const CASES: [Case; 3] = [
    Case {
        fail: &[5, 6],
        named: &[],
        lens: [24, 24],
    },
    Case {
        fail: &[5, 6, 7],
        named: &[0],
        lens: [12, 24],
    },
    Case {
        fail: &[5, 6, 7, 8],
        named: &[0, 1],
        lens: [12, 12],
    },
];

/// Sets a voxel in two cells. Neither can be put for the third cell, so that both are live still.
fn edit_two<R: Abort + Wait>(
    rt: &R,
    cells: &Cells<MemStore>,
    mut pass: CellPass<MemStore>,
    row: u64,
) -> CellPass<MemStore>
    requires pass { IsCellPassOf cells.now pass }
    requires free { (knows pass).pins ≡ [] }
    ensures pass { IsCellPassOf cells.now result }
    ensures free { (knows result).pins ≡ [] }
{
    assert_eq!(rt; set(rt, cells, &mut pass, [0, row, 0], 7), Ok(()));
    assert_eq!(rt; set(rt, cells, &mut pass, [2, row, 0], 8), Ok(()));
    let fault = Err(CellErr::Acquire(AcquireErr::WriteFault));
    assert_eq!(rt; get(rt, cells, &mut pass, [4, row, 0]), fault);
    assert_eq!(rt; get(rt, cells, &mut pass, [0, row, 0]), Ok(7));
    assert_eq!(rt; get(rt, cells, &mut pass, [2, row, 0]), Ok(8));
    pass
}

/// Two threads that do so at once, over a store whose calls of these numbers fail.
fn edit_two_at_once<R: Abort + Threads + Wait + Sync>(
    rt: &R,
    alloc: Global,
    fail: Vec<u64>,
) -> Result<Closed<MemStore>, Fail> {
    let (kept, one, two) = two_passes(rt, alloc, empty(alloc, fail))?;
    let shared = &kept.0;
    let (one, two) = join(
        rt,
        move ||
            requires { IsCellPassOf shared.now one × ((knows one).pins ≡ []) }
            ensures { IsCellPassOf shared.entry.now result × ((knows result).pins ≡ []) }
        { edit_two(rt, shared, one, 0) },
        move ||
            requires { IsCellPassOf shared.now two × ((knows two).pins ≡ []) }
            ensures { IsCellPassOf shared.entry.now result × ((knows result).pins ≡ []) }
        { edit_two(rt, shared, two, 1) },
    );
    Ok(join_and_shut(kept, one, two))
}

/// The key's bytes in a store.
fn len_of(store: &MemStore, key: &str) -> Result<usize, Fail> {
    Ok(store.held().get(key).ok_or("not held")?.len())
}

/// Compares the cells that are named.
fn expect_named(rt: &impl Abort, unsaved: &[Unsaved], named: &[u32]) {
    assert_eq!(rt; unsaved.len(), named.len());
    for (one, cell) in unsaved.iter().zip(named) {
        assert_eq!(rt; one.cell, *cell);
        assert!(rt; !one.memory);
    }
}

#[test]
fn a_cell_that_can_not_be_put_stays_live_and_is_named(rt: HostRuntime) -> Result<(), Fail> {
    for case in CASES {
        let Case { fail, named, lens } = case;
        let closed = edit_two_at_once(&rt, rt.alloc(), Vec::from_slice(rt.alloc(), fail)?)?;
        expect_named(&rt, closed.unsaved.as_slice(), named);
        let store = closed.stores.get(0).ok_or("the store didn't come back")?;
        assert_eq!(rt; store.log().len(), 8);
        let found = [
            len_of(store, "cells/s0/0/0/0")?,
            len_of(store, "cells/s0/1/0/0")?,
        ];
        assert_eq!(rt; found, lens);
        assert_eq!(rt; closed.tally.loads, 2);
        assert_eq!(rt; closed.tally.evictions, 0);
    }
    Ok(())
}
