// The end of a run by threads.
ghost use Rattle.team_phases.specs.Playing.{IsStill};
ghost use Rattle.thread_run.specs.Ended.{IsEnded};

use crate::ran::ThreadRan;
use arr_history::Closed;
use cell_store::Store;
use live_cells::Cells;
use plain_data::Items;
use queue_desk::QueueDesk;
use run_report::{Reply, Report, Shot};
use team_passes::TeamPass;
use turn_cell::Turn;

/// Closes the queue, shuts the cells, and makes the report of what was answered and painted.
pub(crate) fn end<S: Store>(
    cells: Cells<S>,
    queue: Turn<QueueDesk>,
    last: TeamPass<S>,
    replies: Vec<Reply>,
    shots: Vec<Shot>,
) -> ThreadRan<S>
    requires still { IsStill cells queue last }
    ensures ended { IsEnded S.contents cells queue last replies.items shots.items result.stores.items result.report result.trail }
{
    let TeamPass { cells: pass, asks } = last;
    let _queue = queue.close(asks);
    let (closed, trail) = cells.shut(pass);
    let Closed {
        stores,
        unsaved,
        tally,
    } = closed;
    let report = Report::new(
        Items::from_vec(replies),
        Items::from_vec(shots),
        tally,
        unsaved,
    );
    ThreadRan {
        report: Ok(report),
        stores,
        trail: Some(trail),
    }
}
