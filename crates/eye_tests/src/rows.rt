// Frames and fetches by one pass, with pictures and counts from outside.
ghost use Rattle.eye_tests.specs.Seated.{IsSeated};

use crate::fixture::{finish, seated, split_three, tally, view};
use crate::seated::{fetch, paint};
use cell_store::MemStore;
use fetchers::Fetched;
use hier_paint::{Painted, Picture, Strategy};
use live_cells::Cells;
use queue_desk::QueueDesk;
use std::alloc::Global;
use std::process::Abort;
use std::sync::Wait;
use std::test::Fail;
use team_passes::TeamPass;
use turn_cell::Turn;

/// What is done, and what comes of it.
#[derive(Clone, Copy)]
enum Step<'a> {
    /// A frame, of which so many pixels don't show the finest level.
    Paint {
        strategy: Strategy,
        not_ready: u32,
        values: &'a [u8],
        mask: &'a [u8],
    },
    /// A fetch of up to so many requests, and how many cells it loads.
    Fetch {
        count: u32,
        loaded: u32,
    },
}

/// Steps one after another, over cells none of which is in memory; and the counts at the end.
#[derive(Clone, Copy)]
struct Row<'a> {
    shows: &'a str,
    height: u32,
    steps: &'a [Step<'a>],
    counts: [u64; 6],
}

const ROWS: [Row; 5] = [
    Row {
        shows: "a volatile view asks for what a fetch loads",
        height: 4,
        steps: &[
            Step::Paint {
                strategy: Strategy::Volatile,
                not_ready: 16,
                values: &[0; 16],
                mask: &[255; 16],
            },
            Step::Fetch {
                count: 10,
                loaded: 5,
            },
            Step::Paint {
                strategy: Strategy::Volatile,
                not_ready: 0,
                values: &[0, 0, 5, 6, 0, 0, 7, 8, 0, 0, 0, 0, 0, 0, 0, 0],
                mask: &[0; 16],
            },
        ],
        counts: [8, 14, 5, 0, 0, 5],
    },
    Row {
        shows: "one of two cells may be loaded",
        height: 1,
        steps: &[Step::Paint {
            strategy: Strategy::Budgeted(1),
            not_ready: 2,
            values: &[0, 0, 0, 0],
            mask: &[0, 0, 255, 255],
        }],
        counts: [0, 3, 1, 0, 0, 1],
    },
    Row {
        shows: "both cells may be loaded",
        height: 1,
        steps: &[Step::Paint {
            strategy: Strategy::Budgeted(2),
            not_ready: 0,
            values: &[0, 0, 5, 6],
            mask: &[0, 0, 0, 0],
        }],
        counts: [0, 2, 2, 0, 0, 2],
    },
    Row {
        shows: "the coarser level is fetched first, and shown",
        height: 1,
        steps: &[
            Step::Paint {
                strategy: Strategy::Volatile,
                not_ready: 4,
                values: &[0, 0, 0, 0],
                mask: &[255, 255, 255, 255],
            },
            Step::Fetch {
                count: 1,
                loaded: 1,
            },
            Step::Paint {
                strategy: Strategy::DontLoad,
                not_ready: 4,
                values: &[11, 11, 12, 12],
                mask: &[1, 1, 1, 1],
            },
        ],
        counts: [2, 6, 1, 0, 0, 1],
    },
    Row {
        shows: "a view that does not load asks for nothing",
        height: 1,
        steps: &[
            Step::Paint {
                strategy: Strategy::DontLoad,
                not_ready: 4,
                values: &[0, 0, 0, 0],
                mask: &[255, 255, 255, 255],
            },
            Step::Fetch {
                count: 10,
                loaded: 0,
            },
        ],
        counts: [0, 3, 0, 0, 0, 0],
    },
];

/// Paints a view, and compares its picture.
fn paint_step<R: Abort + Wait>(
    rt: &R,
    alloc: Global,
    cells: &Cells<MemStore>,
    queue: &Turn<QueueDesk>,
    seat: &mut TeamPass<MemStore>,
    height: u32,
    strategy: Strategy,
    not_ready: u32,
) -> Result<Picture, Fail>
    requires seat { IsSeated cells.now queue.now seat.old }
    ensures seat { IsSeated cells.now queue.now seat.new }
{
    assert!(rt; 0 < height && height <= 4096);
    let view = view(height, strategy).ok_or("no view")?;
    let mut picture = Picture::new(alloc, 4, height)?;
    let painted = paint(rt, cells, queue, seat, 0, &view, &mut picture)?;
    let wanted = Painted {
        wanted: 0,
        complete: not_ready == 0,
        not_ready,
    };
    assert_eq!(rt; painted, wanted);
    Ok(picture)
}

/// Takes a step, and compares what comes of it.
fn take_step<R: Abort + Wait>(
    rt: &R,
    alloc: Global,
    cells: &Cells<MemStore>,
    queue: &Turn<QueueDesk>,
    seat: &mut TeamPass<MemStore>,
    row: &Row,
    step: &Step,
) -> Result<(), Fail>
    requires seat { IsSeated cells.now queue.now seat.old }
    ensures seat { IsSeated cells.now queue.now seat.new }
{
    let shows = row.shows;
    match step {
        Step::Paint {
            strategy,
            not_ready,
            values,
            mask,
        } => {
            let picture = paint_step(
                rt, alloc, cells, queue, seat, row.height, *strategy, *not_ready,
            )?;
            assert!(rt; picture.values() == *values, "{shows}");
            assert!(rt; picture.mask() == *mask, "{shows}");
        }
        Step::Fetch { count, loaded } => {
            let wanted = Fetched {
                loaded: *loaded,
                held: 0,
                refused: 0,
            };
            let fetched = fetch(rt, cells, queue, seat, *count)?;
            assert_eq!(rt; fetched, wanted, "{shows}");
        }
    }
    Ok(())
}

/// Takes the steps of a row one after another, as long as none fails.
fn take_steps<R: Abort + Wait>(
    rt: &R,
    alloc: Global,
    cells: &Cells<MemStore>,
    queue: &Turn<QueueDesk>,
    seat: &mut TeamPass<MemStore>,
    row: &Row,
) -> Result<(), Fail>
    requires seat { IsSeated cells.now queue.now seat.old }
    ensures seat { IsSeated cells.now queue.now seat.new }
{
    let steps = row.steps;
    for step in steps {
        take_step(rt, alloc, cells, queue, seat, row, step)?;
    }
    Ok(())
}

#[test]
fn frames_show_what_is_in_memory_and_ask_for_the_rest(rt: HostRuntime) -> Result<(), Fail> {
    for row in ROWS {
        let (cells, queue, first) = seated(&rt, rt.alloc())?;
        let (first, mut one, two, three) = split_three(&rt, &cells, &queue, first);
        let taken = take_steps(&rt, rt.alloc(), &cells, &queue, &mut one, &row);
        let closed = finish(cells, queue, first, one, two, three);
        taken?;
        let shows = row.shows;
        assert_eq!(rt; closed.tally, tally(row.counts), "{shows}");
    }
    Ok(())
}
