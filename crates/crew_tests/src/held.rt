// A cell that one thread holds, while another one loads others.
ghost use Rattle.std.specs.Prelude.{◌≡◌, []};
ghost use Rattle.live_cells.specs.Cells.{knows, IsCellPassOf};

use crate::fixture::{empty, tally};
use crate::pairs::{join_and_shut, two_passes};
use crate::single::{get, set};
use arr_history::Closed;
use cell_store::MemStore;
use live_cells::{CellPass, Cells};
use std::alloc::Global;
use std::process::Abort;
use std::sync::Wait;
use std::sync::atomic::{AtomicBool, Ordering};
use std::test::Fail;
use std::thread::{Threads, join, yield_now};

/// How many turns a thread waits for the other one at most.
const TURNS: u32 = 10_000_000;

/// Waits until a word shows true, and tells whether it did.
fn shows_true(word: &AtomicBool) -> bool {
    for _ in 0..TURNS {
        if word.load(Ordering::SeqCst) {
            return true;
        }
        yield_now();
    }
    false
}

/// Holds the first cell until the other thread is done, and then reads a voxel of it.
fn hold<R: Wait>(
    rt: &R,
    cells: &Cells<MemStore>,
    pass: &mut CellPass<MemStore>,
    held: &AtomicBool,
    done: &AtomicBool,
) -> Option<u64>
    requires pass { IsCellPassOf cells.now pass.old }
    requires free { (knows pass.old).pins ≡ [] }
    ensures pass { IsCellPassOf cells.now pass.new }
    ensures free { (knows pass.new).pins ≡ [] }
{
    let Some(place) = cells.geometry().place(0, [0, 0, 0]) else {
        return None;
    };
    match cells.acquire(rt, pass, place.cell) {
        Ok(handle) => {
            held.store(true, Ordering::SeqCst);
            let was_done = shows_true(done);
            let value = cells.read(pass, &handle, place.at);
            cells.release(pass, handle);
            was_done.then_some(value)
        }
        Err(_) => None,
    }
}

/// Sets a voxel of the first cell, and holds the cell until the other thread is done.
fn set_and_hold<R: Abort + Wait>(
    rt: &R,
    cells: &Cells<MemStore>,
    mut pass: CellPass<MemStore>,
    held: &AtomicBool,
    done: &AtomicBool,
) -> CellPass<MemStore>
    requires pass { IsCellPassOf cells.now pass }
    requires free { (knows pass).pins ≡ [] }
    ensures pass { IsCellPassOf cells.now result }
    ensures free { (knows result).pins ≡ [] }
{
    assert_eq!(rt; set(rt, cells, &mut pass, [0, 0, 0], 9), Ok(()));
    assert_eq!(rt; hold(rt, cells, &mut pass, held, done), Some(9));
    pass
}

/// Gets a voxel of the second and of the third cell by turns, a hundred times each, while the first cell is held.
fn load_others<R: Abort + Wait>(
    rt: &R,
    cells: &Cells<MemStore>,
    mut pass: CellPass<MemStore>,
    held: &AtomicBool,
    done: &AtomicBool,
) -> CellPass<MemStore>
    requires pass { IsCellPassOf cells.now pass }
    requires free { (knows pass).pins ≡ [] }
    ensures pass { IsCellPassOf cells.now result }
    ensures free { (knows result).pins ≡ [] }
{
    assert!(rt; shows_true(held));
    for _ in 0..100 {
        assert_eq!(rt; get(rt, cells, &mut pass, [2, 0, 0]), Ok(0));
        assert_eq!(rt; get(rt, cells, &mut pass, [4, 0, 0]), Ok(0));
    }
    done.store(true, Ordering::SeqCst);
    pass
}

/// Both at once.
fn hold_and_load<R: Abort + Threads + Wait + Sync>(
    rt: &R,
    alloc: Global,
) -> Result<Closed<MemStore>, Fail> {
    let (kept, one, two) = two_passes(rt, alloc, empty(alloc, Vec::new(alloc)))?;
    let shared = &kept.0;
    let held = AtomicBool::new(false);
    let done = AtomicBool::new(false);
    let (is_held, is_done) = (&held, &done);
    let (one, two) = join(
        rt,
        move ||
            requires { IsCellPassOf shared.now one × ((knows one).pins ≡ []) }
            ensures { IsCellPassOf shared.entry.now result × ((knows result).pins ≡ []) }
        { set_and_hold(rt, shared, one, is_held, is_done) },
        move ||
            requires { IsCellPassOf shared.now two × ((knows two).pins ≡ []) }
            ensures { IsCellPassOf shared.entry.now result × ((knows result).pins ≡ []) }
        { load_others(rt, shared, two, is_held, is_done) },
    );
    Ok(join_and_shut(kept, one, two))
}

/// The other slot is that of the second and the third cell by turns, so that each of their 200 gets loads, and all but the first evict.
#[test]
fn a_held_cell_stays_while_another_thread_loads(rt: HostRuntime) -> Result<(), Fail> {
    let closed = hold_and_load(&rt, rt.alloc())?;
    assert_eq!(rt; closed.tally, tally([1, 201, 201, 199, 1, 2]));
    assert_eq!(rt; closed.unsaved.len(), 0);
    Ok(())
}
