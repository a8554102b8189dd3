// What a pass of cells and of their queue does: it paints, it fetches, and it serves.
ghost use Rattle.std.specs.Prelude.{◌≡◌, ◌<◌, [], IfSome};
ghost use Rattle.live_cells.specs.Cells.{table, knows, IsCellPassOf};
ghost use Rattle.pin_rule.specs.Calls.{made_of};
ghost use Rattle.turn_cell.specs.Turn.{opened_at, IsPassOf};
ghost use Rattle.volatile_cell.specs.Requests.{IsQueueFor};
ghost use Rattle.eye_tests.specs.Seated.{IsSeated};

use cell_file::AcquireErr;
use cell_store::MemStore;
use fetchers::{Fetched, Memory, serve_up_to};
use hier_paint::{Painted, Picture, View};
use live_cells::{CellPass, Cells};
use queue_desk::QueueDesk;
use std::sync::Wait;
use std::sync::atomic::AtomicBool;
use team_eyes::TeamEyes;
use team_frames::{paint_view, serve_cells};
use team_passes::TeamPass;
use turn_cell::{Turn, TurnPass};

/// Paints a view.
pub(crate) fn paint<R: Wait>(
    rt: &R,
    cells: &Cells<MemStore>,
    queue: &Turn<QueueDesk>,
    seat: &mut TeamPass<MemStore>,
    viewer: u32,
    view: &View,
    picture: &mut Picture,
) -> Result<Painted, AcquireErr>
    requires seat { IsSeated cells.now queue.now seat.old }
    requires viewer { viewer < 2 }
    requires sides { (picture.old.width ≡ view.now.width) × (picture.old.height ≡ view.now.height) }
    requires range { view.now.low < view.now.high }
    requires level { IfSome view.now.level (λ level. level < 2) }
    ensures seat { IsSeated cells.now queue.now seat.new }
    ensures sides { (picture.new.width ≡ picture.old.width) × (picture.new.height ≡ picture.old.height) }
{
    paint_view(
        rt,
        cells,
        &mut seat.cells,
        queue,
        &mut seat.asks,
        viewer,
        view,
        picture,
    )
}

/// Serves up to so many requests.
pub(crate) fn fetch<R: Wait>(
    rt: &R,
    cells: &Cells<MemStore>,
    queue: &Turn<QueueDesk>,
    seat: &mut TeamPass<MemStore>,
    count: u32,
) -> Result<Fetched, Memory>
    requires seat { IsSeated cells.now queue.now seat.old }
    ensures seat { IsSeated cells.now queue.now seat.new }
{
    fetch_by(rt, cells, queue, &mut seat.cells, &mut seat.asks, count)
}

/// The same, by the two passes.
fn fetch_by<R: Wait>(
    rt: &R,
    cells: &Cells<MemStore>,
    queue: &Turn<QueueDesk>,
    pass: &mut CellPass<MemStore>,
    asks: &mut TurnPass<QueueDesk>,
    count: u32,
) -> Result<Fetched, Memory>
    requires pass { IsCellPassOf cells.now pass.old }
    requires free { (knows pass.old).pins ≡ [] }
    requires asks { IsPassOf queue.now asks.old }
    requires queue { IsQueueFor (opened_at queue.now) (made_of (table cells.now)).levels.value }
    requires viewers { (opened_at queue.now).viewers ≡ 2 }
    ensures pass { IsCellPassOf cells.now pass.new }
    ensures free { (knows pass.new).pins ≡ [] }
    ensures asks { IsPassOf queue.now asks.new }
{
    let mut eyes = TeamEyes::new(rt, cells, pass, queue, asks, 0);
    serve_up_to(&mut eyes, count)
}

/// Serves requests until a load of the flag shows true.
pub(crate) fn serve<R: Wait>(
    rt: &R,
    cells: &Cells<MemStore>,
    queue: &Turn<QueueDesk>,
    seat: &mut TeamPass<MemStore>,
    stop: &AtomicBool,
)
    requires seat { IsSeated cells.now queue.now seat.old }
    ensures seat { IsSeated cells.now queue.now seat.new }
{
    serve_cells(rt, cells, &mut seat.cells, queue, &mut seat.asks, 0, stop);
}
