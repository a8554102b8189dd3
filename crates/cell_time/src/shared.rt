// Cells that threads share. The first pass waits, while each thread has a pass of its own.
ghost use Rattle.std.specs.Prelude.{◌≡◌, ◌≤◌, [], IfSome};
ghost use Rattle.live_cells.specs.Cells.{knows, IsCellPassOf};
ghost use Rattle.cell_time.specs.Passes.{IsFree, IsSole, IsFirstOfThree};

use crate::blank::Blank;
use crate::grid::{geometry, keys, stores};
use crate::request::{Hands, Request, What, is_set, voxel_for};
use live_cells::{CellPass, Cells};
use std::alloc::Global;
use std::sync::Wait;
use std::thread::{Threads, join};

/// The cells, and their first pass.
type Shared = (Cells<Blank>, CellPass<Blank>);

/// How often it was done. None where memory wanted.
pub fn done_by_threads<R: Threads + Wait + Sync>(
    rt: &R,
    alloc: Global,
    request: Request,
) -> Option<u64>
    requires slots { (2 ≤ request.slots) × (request.slots ≤ 4096) }
{
    let (kept, one, two) = two_passes(alloc, request.slots)?;
    let (one, two, done) = threads_at_work(rt, &kept.0, one, two, request);
    join_and_shut(kept, one, two);
    Some(done)
}

fn cells(alloc: Global, slots: u32) -> Option<Shared>
    requires slots { (2 ≤ slots) × (slots ≤ 4096) }
    ensures first { IfSome result (λ r. IsCellPassOf r.0 r.1 × IsSole (knows r.1)) }
{
    let geometry = geometry(alloc)?;
    let keys = keys(&geometry)?;
    Cells::new(alloc, &geometry, &keys, slots, stores(alloc)?).ok()
}

/// The cells, their first pass, and two more passes. None where memory wanted.
fn two_passes(alloc: Global, slots: u32) -> Option<(Shared, CellPass<Blank>, CellPass<Blank>)>
    requires slots { (2 ≤ slots) × (slots ≤ 4096) }
    ensures first { IfSome result (λ r. IsCellPassOf r.0.0 r.0.1 × IsFirstOfThree (knows r.0.1)) }
    ensures one { IfSome result (λ r. IsFree r.0.0 r.1) }
    ensures two { IfSome result (λ r. IsFree r.0.0 r.2) }
{
    let (cells, mut first) = cells(alloc, slots)?;
    let Ok(one) = cells.split(&mut first) else {
        let _closed = cells.shut(first);
        return None;
    };
    let Ok(two) = cells.split(&mut first) else {
        cells.join(&mut first, one);
        let _closed = cells.shut(first);
        return None;
    };
    Some(((cells, first), one, two))
}

/// Joins both passes, and shuts the cells.
fn join_and_shut(shared: Shared, one: CellPass<Blank>, two: CellPass<Blank>)
    requires first { IsCellPassOf shared.0 shared.1 × IsFirstOfThree (knows shared.1) }
    requires one { IsFree shared.0 one }
    requires two { IsFree shared.0 two }
{
    let (cells, mut first) = shared;
    cells.join(&mut first, one);
    cells.join(&mut first, two);
    let _closed = cells.shut(first);
}

/// One thread at work, or two. How often it was done.
fn threads_at_work<R: Threads + Wait + Sync>(
    rt: &R,
    cells: &Cells<Blank>,
    one: CellPass<Blank>,
    two: CellPass<Blank>,
    request: Request,
) -> (CellPass<Blank>, CellPass<Blank>, u64)
    requires one { IsFree cells.now one }
    requires two { IsFree cells.now two }
    ensures one { IsFree cells.now result.0 }
    ensures two { IsFree cells.now result.1 }
{
    match request.hands {
        Hands::One => {
            let (one, done) = at_work(rt, cells, one, request, 0);
            (one, two, done)
        }
        Hands::Two => two_at_work(rt, cells, one, two, request),
    }
}

/// Two threads at work. How often it was done.
fn two_at_work<R: Threads + Wait + Sync>(
    rt: &R,
    cells: &Cells<Blank>,
    one: CellPass<Blank>,
    two: CellPass<Blank>,
    request: Request,
) -> (CellPass<Blank>, CellPass<Blank>, u64)
    requires one { IsFree cells.now one }
    requires two { IsFree cells.now two }
    ensures one { IsFree cells.now result.0 }
    ensures two { IsFree cells.now result.1 }
{
    let ((one, done), (two, more)) = join(
        rt,
        move ||
            requires { IsFree cells.now one }
            ensures { IsFree cells.entry.now result.0 }
        { at_work(rt, cells, one, request, 0) },
        move ||
            requires { IsFree cells.now two }
            ensures { IsFree cells.entry.now result.0 }
        { at_work(rt, cells, two, request, 1) },
    );
    (one, two, done.wrapping_add(more))
}

/// The rounds of a thread, with a pass that comes and goes.
fn at_work<R: Wait>(
    rt: &R,
    cells: &Cells<Blank>,
    mut pass: CellPass<Blank>,
    request: Request,
    hand: u32,
) -> (CellPass<Blank>, u64)
    requires pass { IsFree cells.now pass }
    ensures pass { IsFree cells.now result.0 }
{
    let done = rounds_done(rt, cells, &mut pass, request, hand);
    (pass, done)
}

fn rounds_done<R: Wait>(
    rt: &R,
    cells: &Cells<Blank>,
    pass: &mut CellPass<Blank>,
    request: Request,
    hand: u32,
) -> u64
    requires pass { IsFree cells.now pass.old }
    ensures pass { IsFree cells.now pass.new }
{
    let mut done: u64 = 0;
    for round in 0..request.rounds {
        if is_done(rt, cells, pass, request.what, hand, round) {
            done = done.wrapping_add(1);
        }
    }
    done
}

fn is_done<R: Wait>(
    rt: &R,
    cells: &Cells<Blank>,
    pass: &mut CellPass<Blank>,
    what: What,
    hand: u32,
    round: u32,
) -> bool
    requires pass { IsFree cells.now pass.old }
    ensures pass { IsFree cells.now pass.new }
{
    let voxel = voxel_for(what, hand, round);
    if is_set(what) {
        cells.set(rt, pass, 0, voxel, 1).is_ok()
    } else {
        cells.get(rt, pass, 0, voxel).is_ok()
    }
}
