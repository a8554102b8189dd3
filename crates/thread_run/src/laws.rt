// What holds of every run by threads.
ghost use Rattle.thread_run.specs.Carried.{CarriedOutRuns};
ghost use Rattle.thread_run.specs.Frames.{HistoriesShowMoments};
ghost use Rattle.thread_run.specs.Headlines.{ShutCellsHaveHeadline};

use queue_desk::histories_are_asked;
use scale_pick::pictures_show_moments;

/// A picture that a pass painted by its events shows numbers that its voxels had meanwhile in the whole history, and exactly those of
/// their arrays where nobody wrote them.
pub fn histories_show_moments()
    ensures { HistoriesShowMoments }
{
    pictures_show_moments();
}

/// Shared cells that were shut give their run its headline.
pub fn shut_cells_have_headline<S>()
    ensures { ShutCellsHaveHeadline S }
{}

/// Phases that were played one after another, a queue that was closed then and cells that were shut make a run by threads.
pub fn carried_out_runs<S>()
    ensures { CarriedOutRuns S }
{
    histories_show_moments();
    histories_are_asked();
    shut_cells_have_headline::<S>();
}
