// One pass gets and sets voxels of three cells in two slots.
ghost use Rattle.std.specs.Prelude.{◌≡◌};

use crate::fixture::{empty, tally, three_cells};
use crate::single::{get, set};
use arr_history::{Closed, Unsaved};
use cell_file::{AcquireErr, CellErr};
use cell_store::MemStore;
use std::alloc::Global;
use std::process::Abort;
use std::sync::Wait;
use std::test::Fail;

/// What comes of a set in the first cell, a get in each other one, and a get of what was set; and the counts of the run.
#[derive(Clone, Copy)]
struct Outcome {
    set: Result<(), CellErr>,
    gets: [Result<u64, CellErr>; 3],
    counts: [u64; 6],
}

const READ_FAULT: CellErr = CellErr::Acquire(AcquireErr::ReadFault);

const WRITE_FAULT: CellErr = CellErr::Acquire(AcquireErr::WriteFault);

/// Where no call of the store fails, the first cell leaves for the third, and comes back.
const ALL_WELL: Outcome = Outcome {
    set: Ok(()),
    gets: [Ok(0), Ok(0), Ok(9)],
    counts: [0, 4, 4, 2, 1, 2],
};

/// The first cell's block could not be got, so that nothing was set.
const UNSET: Outcome = Outcome {
    set: Err(READ_FAULT),
    gets: [Ok(0), Ok(0), Ok(0)],
    counts: [0, 4, 3, 1, 0, 2],
};

/// The second cell's block could not be got, so that the first one stayed.
const SECOND_UNREAD: Outcome = Outcome {
    set: Ok(()),
    gets: [Err(READ_FAULT), Ok(0), Ok(9)],
    counts: [1, 3, 2, 0, 1, 2],
};

/// The first cell could not be put for the third, and came back.
const UNPUT: Outcome = Outcome {
    set: Ok(()),
    gets: [Ok(0), Err(WRITE_FAULT), Ok(9)],
    counts: [1, 3, 2, 0, 1, 2],
};

/// The same, where it can't be put at the end either.
const NEVER_PUT: Outcome = Outcome {
    set: Ok(()),
    gets: [Ok(0), Err(WRITE_FAULT), Ok(9)],
    counts: [1, 3, 2, 0, 0, 1],
};

/// The third cell's block could not be got, once the first had left for it.
const THIRD_UNREAD: Outcome = Outcome {
    set: Ok(()),
    gets: [Ok(0), Err(READ_FAULT), Ok(9)],
    counts: [0, 4, 3, 1, 1, 2],
};

/// The first cell's own block could not be got, once the second had left for it.
const UNREAD: Outcome = Outcome {
    set: Ok(()),
    gets: [Ok(0), Ok(0), Err(READ_FAULT)],
    counts: [0, 4, 3, 2, 1, 1],
};

/// What comes of each single call of the store that fails. A load makes two gets, but one where the cell was put before.
const ONE_FAILING_CALL: [Outcome; 8] = [
    UNSET,
    UNSET,
    SECOND_UNREAD,
    SECOND_UNREAD,
    UNPUT,
    THIRD_UNREAD,
    THIRD_UNREAD,
    UNREAD,
];

/// Sets a voxel of the first cell, gets one of each other cell, and gets what was set, over a store whose calls of these numbers fail.
fn evict_and_return<R: Abort + Wait>(
    rt: &R,
    alloc: Global,
    fail: Vec<u64>,
    wanted: Outcome,
) -> Result<Closed<MemStore>, Fail> {
    let (cells, mut pass) = three_cells(rt, alloc, empty(alloc, fail))?;
    let [second, third, first] = wanted.gets;
    assert_eq!(rt; set(rt, &cells, &mut pass, [0, 0, 0], 9), wanted.set);
    assert_eq!(rt; get(rt, &cells, &mut pass, [2, 0, 0]), second);
    assert_eq!(rt; get(rt, &cells, &mut pass, [4, 0, 0]), third);
    assert_eq!(rt; get(rt, &cells, &mut pass, [0, 0, 0]), first);
    let (closed, _trail) = cells.shut(pass);
    assert_eq!(rt; closed.tally, tally(wanted.counts));
    Ok(closed)
}

#[test]
fn a_cell_is_got_twice(rt: HostRuntime) -> Result<(), Fail> {
    let alloc = rt.alloc();
    let (cells, mut pass) = three_cells(&rt, alloc, empty(alloc, Vec::new(alloc)))?;
    assert_eq!(rt; get(&rt, &cells, &mut pass, [0, 0, 0]), Ok(0));
    assert_eq!(rt; get(&rt, &cells, &mut pass, [0, 0, 0]), Ok(0));
    let (closed, _trail) = cells.shut(pass);
    assert_eq!(rt; closed.tally, tally([1, 1, 1, 0, 0, 1]));
    Ok(())
}

#[test]
fn what_is_outside_or_too_large_is_refused(rt: HostRuntime) -> Result<(), Fail> {
    let alloc = rt.alloc();
    let (cells, mut pass) = three_cells(&rt, alloc, empty(alloc, Vec::new(alloc)))?;
    assert_eq!(rt;
        get(&rt, &cells, &mut pass, [6, 0, 0]),
        Err(CellErr::Outside)
    );
    assert_eq!(rt; set(&rt, &cells, &mut pass, [0, 0, 0], 255), Ok(()));
    let large = CellErr::TooLarge { value: 256 };
    assert_eq!(rt; set(&rt, &cells, &mut pass, [0, 0, 0], 256), Err(large));
    let (closed, _trail) = cells.shut(pass);
    assert_eq!(rt; closed.tally, tally([0, 1, 1, 0, 1, 1]));
    Ok(())
}

#[test]
fn a_cell_is_evicted_and_returns(rt: HostRuntime) -> Result<(), Fail> {
    let alloc = rt.alloc();
    let closed = evict_and_return(&rt, alloc, Vec::new(alloc), ALL_WELL)?;
    assert_eq!(rt; closed.unsaved.len(), 0);
    let Some(store) = closed.stores.get(0) else {
        panic!(rt; "the store didn't come back")
    };
    assert_eq!(rt; store.held().len(), 1);
    let block = [
        0, 0, 0, 3, 0, 0, 0, 2, 0, 0, 0, 2, 0, 0, 0, 2, 9, 0, 0, 0, 0, 0, 0, 0,
    ];
    let held = store.held().get("cells/s0/0/0/0").ok_or("not held")?;
    assert_eq!(rt; held.as_slice(), block.as_slice());
    Ok(())
}

#[test]
fn each_call_of_the_store_fails_once(rt: HostRuntime) -> Result<(), Fail> {
    let alloc = rt.alloc();
    for before in 0..8 {
        let fail = vec![in alloc; before as u64 + 1]?;
        let closed = evict_and_return(&rt, alloc, fail, ONE_FAILING_CALL[before])?;
        assert_eq!(rt; closed.unsaved.len(), 0, "after {before} calls");
    }
    Ok(())
}

#[test]
fn a_cell_that_is_never_put_is_named(rt: HostRuntime) -> Result<(), Fail> {
    let alloc = rt.alloc();
    let closed = evict_and_return(&rt, alloc, vec![in alloc; 5, 6]?, NEVER_PUT)?;
    let unsaved = Unsaved {
        cell: 0,
        memory: false,
    };
    assert_eq!(rt; closed.unsaved.as_slice(), [unsaved].as_slice());
    let store = closed.stores.get(0).ok_or("the store didn't come back")?;
    let held = store.held().get("cells/s0/0/0/0").ok_or("not held")?;
    assert_eq!(rt; held.len(), 12);
    Ok(())
}
