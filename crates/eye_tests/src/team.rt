// Two threads paint while a third one serves what they ask for.
ghost use Rattle.std.specs.Prelude.{◌<◌};
ghost use Rattle.eye_tests.specs.Seated.{IsSeated};

use crate::fixture::{finish, seated, split_three, view};
use crate::seated::{paint, serve};
use arr_history::Closed;
use cell_store::MemStore;
use hier_paint::{Picture, Strategy};
use live_cells::Cells;
use queue_desk::QueueDesk;
use std::alloc::Global;
use std::process::Abort;
use std::sync::Wait;
use std::sync::atomic::{AtomicBool, Ordering};
use std::test::Fail;
use std::thread::{Threads, join, yield_now};
use team_passes::TeamPass;
use turn_cell::Turn;

/// How many frames a thread paints at most.
const FRAMES: u32 = 1_000_000;

/// The finest level, of which one block is stored.
const WHOLE: [u8; 16] = [0, 0, 5, 6, 0, 0, 7, 8, 0, 0, 0, 0, 0, 0, 0, 0];

/// Paints a volatile view again and again until it is complete.
fn paint_whole<R: Abort + Wait>(
    rt: &R,
    alloc: Global,
    cells: &Cells<MemStore>,
    queue: &Turn<QueueDesk>,
    seat: &mut TeamPass<MemStore>,
    viewer: u32,
) -> Option<Picture>
    requires seat { IsSeated cells.now queue.now seat.old }
    requires viewer { viewer < 2 }
    ensures seat { IsSeated cells.now queue.now seat.new }
{
    let view = view(4, Strategy::Volatile)?;
    let mut picture = Picture::new(alloc, 4, 4).ok()?;
    for _ in 0..FRAMES {
        let painted = paint(rt, cells, queue, seat, viewer, &view, &mut picture).ok()?;
        if painted.complete {
            return Some(picture);
        }
        yield_now();
    }
    None
}

/// The same, with a pass that comes and goes.
fn painter<R: Abort + Wait>(
    rt: &R,
    alloc: Global,
    cells: &Cells<MemStore>,
    queue: &Turn<QueueDesk>,
    mut seat: TeamPass<MemStore>,
    viewer: u32,
) -> TeamPass<MemStore>
    requires seat { IsSeated cells.now queue.now seat }
    requires viewer { viewer < 2 }
    ensures seat { IsSeated cells.now queue.now result }
{
    let Some(picture) = paint_whole(rt, alloc, cells, queue, &mut seat, viewer) else {
        panic!(rt; "no picture of viewer {viewer}")
    };
    assert_eq!(rt; picture.values(), WHOLE.as_slice());
    assert_eq!(rt; picture.mask(), [0; 16].as_slice());
    seat
}

/// Two painters at once. They set the flag at the end.
fn paint_both<R: Abort + Threads + Wait + Sync>(
    rt: &R,
    alloc: Global,
    cells: &Cells<MemStore>,
    queue: &Turn<QueueDesk>,
    one: TeamPass<MemStore>,
    two: TeamPass<MemStore>,
    stop: &AtomicBool,
) -> (TeamPass<MemStore>, TeamPass<MemStore>)
    requires one { IsSeated cells.now queue.now one }
    requires two { IsSeated cells.now queue.now two }
    ensures one { IsSeated cells.now queue.now result.0 }
    ensures two { IsSeated cells.now queue.now result.1 }
{
    let both = join(
        rt,
        move ||
            requires { IsSeated cells.now queue.now one }
            ensures { IsSeated cells.entry.now queue.entry.now result }
        { painter(rt, alloc, cells, queue, one, 0) },
        move ||
            requires { IsSeated cells.now queue.now two }
            ensures { IsSeated cells.entry.now queue.entry.now result }
        { painter(rt, alloc, cells, queue, two, 1) },
    );
    stop.store(true, Ordering::SeqCst);
    both
}

/// Serves until the flag is set, with a pass that comes and goes.
fn server<R: Wait>(
    rt: &R,
    cells: &Cells<MemStore>,
    queue: &Turn<QueueDesk>,
    mut seat: TeamPass<MemStore>,
    stop: &AtomicBool,
) -> TeamPass<MemStore>
    requires seat { IsSeated cells.now queue.now seat }
    ensures seat { IsSeated cells.now queue.now result }
{
    serve(rt, cells, queue, &mut seat, stop);
    seat
}

/// Two painters and a server at once.
fn paint_and_serve<R: Abort + Threads + Wait + Sync>(
    rt: &R,
    alloc: Global,
    cells: &Cells<MemStore>,
    queue: &Turn<QueueDesk>,
    one: TeamPass<MemStore>,
    two: TeamPass<MemStore>,
    three: TeamPass<MemStore>,
) -> (TeamPass<MemStore>, TeamPass<MemStore>, TeamPass<MemStore>)
    requires one { IsSeated cells.now queue.now one }
    requires two { IsSeated cells.now queue.now two }
    requires three { IsSeated cells.now queue.now three }
    ensures one { IsSeated cells.now queue.now result.0 }
    ensures two { IsSeated cells.now queue.now result.1 }
    ensures three { IsSeated cells.now queue.now result.2 }
{
    let flag = AtomicBool::new(false);
    let stop = &flag;
    let ((one, two), three) = join(
        rt,
        move ||
            requires { IsSeated cells.now queue.now one × IsSeated cells.now queue.now two }
            ensures { IsSeated cells.entry.now queue.entry.now result.0 × IsSeated cells.entry.now queue.entry.now result.1 }
        { paint_both(rt, alloc, cells, queue, one, two, stop) },
        move ||
            requires { IsSeated cells.now queue.now three }
            ensures { IsSeated cells.entry.now queue.entry.now result }
        { server(rt, cells, queue, three, stop) },
    );
    (one, two, three)
}

#[test]
fn two_threads_paint_what_a_third_one_loads(rt: HostRuntime) -> Result<(), Fail> {
    let alloc = rt.alloc();
    let (cells, queue, first) = seated(&rt, alloc)?;
    let (first, one, two, three) = split_three(&rt, &cells, &queue, first);
    let (one, two, three) = paint_and_serve(&rt, alloc, &cells, &queue, one, two, three);
    let Closed {
        stores: _,
        unsaved,
        tally,
    } = finish(cells, queue, first, one, two, three);
    assert_eq!(rt; unsaved.len(), 0);
    // the four cells that both show, and perhaps the coarser one, each once
    assert!(rt; tally.loads == 4 || tally.loads == 5);
    assert_eq!(rt; tally.evictions, 0);
    assert_eq!(rt; tally.closed, tally.loads);
    Ok(())
}
