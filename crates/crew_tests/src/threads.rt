// Two threads get and set voxels of the same cells, of which two have a slot at a time.
ghost use Rattle.std.specs.Prelude.{◌≡◌, []};
ghost use Rattle.live_cells.specs.Cells.{knows, IsCellPassOf};

use crate::fixture::empty;
use crate::pairs::{join_and_shut, two_passes};
use crate::single::{get, set};
use arr_history::Closed;
use cell_store::MemStore;
use live_cells::{CellPass, Cells};
use std::alloc::Global;
use std::process::Abort;
use std::sync::Wait;
use std::test::Fail;
use std::thread::{Threads, join};

/// How often a thread sets a voxel.
const TURNS: u64 = 3000;

/// Which cells two threads set voxels of by turns, and what each wrote last to each of them.
#[derive(Clone, Copy)]
struct Case<'a> {
    shows: &'a str,
    /// Where the cells begin along the first axis.
    columns: [u64; 3],
    /// The key of each cell that was set, and the last numbers of both threads.
    last: &'a [(&'a str, [u8; 2])],
}

/// Thread 0 sets the number of the turn modulo 251, and thread 1 that of the turn and 100 more. There are 3000 turns, and the
/// last one of the three cells is turn 2997, 2998 and 2999.
const CASES: [Case; 2] = [
    Case {
        shows: "one cell",
        columns: [0, 0, 0],
        last: &[("cells/s0/0/0/0", [238, 87])],
    },
    Case {
        shows: "more cells than slots",
        columns: [0, 2, 4],
        last: &[
            ("cells/s0/0/0/0", [236, 85]),
            ("cells/s0/1/0/0", [237, 86]),
            ("cells/s0/2/0/0", [238, 87]),
        ],
    },
];

/// Sets one voxel of each cell by turns, each time to what this turn gives, and finds what the turn before gave.
fn work<R: Abort + Wait>(
    rt: &R,
    cells: &Cells<MemStore>,
    mut pass: CellPass<MemStore>,
    columns: [u64; 3],
    row: u64,
    more: u64,
) -> CellPass<MemStore>
    requires pass { IsCellPassOf cells.now pass }
    requires free { (knows pass).pins ≡ [] }
    ensures pass { IsCellPassOf cells.now result }
    ensures free { (knows result).pins ≡ [] }
{
    let mut last = [0u64; 3];
    for turn in 0..TURNS {
        let column = columns[(turn % 3) as usize];
        let cell = (column / 2 % 3) as usize;
        let value = turn.wrapping_add(more) % 251;
        assert_eq!(rt; get(rt, cells, &mut pass, [column, row, 0]), Ok(last[cell]));
        assert_eq!(rt; set(rt, cells, &mut pass, [column, row, 0], value), Ok(()));
        last[cell] = value;
    }
    pass
}

/// Two threads at work on the same cells. Thread 0 has the voxels in row 0, thread 1 those in row 1.
fn work_at_once<R: Abort + Threads + Wait + Sync>(
    rt: &R,
    alloc: Global,
    columns: [u64; 3],
) -> Result<Closed<MemStore>, Fail> {
    let (kept, one, two) = two_passes(rt, alloc, empty(alloc, Vec::new(alloc)))?;
    let shared = &kept.0;
    let (one, two) = join(
        rt,
        move ||
            requires { IsCellPassOf shared.now one × ((knows one).pins ≡ []) }
            ensures { IsCellPassOf shared.entry.now result × ((knows result).pins ≡ []) }
        { work(rt, shared, one, columns, 0, 0) },
        move ||
            requires { IsCellPassOf shared.now two × ((knows two).pins ≡ []) }
            ensures { IsCellPassOf shared.entry.now result × ((knows result).pins ≡ []) }
        { work(rt, shared, two, columns, 1, 100) },
    );
    Ok(join_and_shut(kept, one, two))
}

/// Compares the blocks that a store holds.
fn expect_held(
    rt: &impl Abort,
    store: &MemStore,
    last: &[(&str, [u8; 2])],
    shows: &str,
) -> Result<(), Fail> {
    assert_eq!(rt; store.held().len(), last.len(), "{shows}");
    for (key, numbers) in last {
        let [one, two] = *numbers;
        let block = [
            0, 0, 0, 3, 0, 0, 0, 2, 0, 0, 0, 2, 0, 0, 0, 2, one, 0, two, 0, 0, 0, 0, 0,
        ];
        let held = store.held().get(*key).ok_or("not held")?;
        assert_eq!(rt; held.as_slice(), block.as_slice(), "{shows}: {key}");
    }
    Ok(())
}

#[test]
fn each_thread_finds_what_it_wrote_last(rt: HostRuntime) -> Result<(), Fail> {
    for case in CASES {
        let Case {
            shows,
            columns,
            last,
        } = case;
        let closed = work_at_once(&rt, rt.alloc(), columns)?;
        assert_eq!(rt; closed.unsaved.len(), 0, "{shows}");
        let store = closed.stores.get(0).ok_or("the store didn't come back")?;
        expect_held(&rt, store, last, shows)?;
    }
    Ok(())
}
