// The servings of one of a team.
ghost use Rattle.std.specs.Prelude.{◌≡◌, ◌<◌, []};
ghost use Rattle.turn_cell.specs.Turn.{opened_at, view, IsPassOf};
ghost use Rattle.pin_rule.specs.Calls.{made_of};
ghost use Rattle.volatile_cell.specs.Requests.{IsQueueFor};
ghost use Rattle.fetchers.specs.Servings.{AreServed};
ghost use Rattle.live_cells.specs.Cells.{table, knows, IsCellPassOf};
ghost use Rattle.team_eyes.specs.Teammate.{teammate_at, team_front};

use cell_store::Store;
use fetchers::serve_until_closed;
use live_cells::{CellPass, Cells};
use queue_desk::QueueDesk;
use std::sync::Wait;
use std::sync::atomic::AtomicBool;
use team_eyes::TeamEyes;
use turn_cell::{Turn, TurnPass};

/// Serves requests by a pass of shared cells and a pass of their queue until a load of the flag shows true. Nothing is pinned then. It
/// takes no memory of its own.
pub fn serve_cells<S: Store, R: Wait>(
    rt: &R,
    cells: &Cells<S>,
    pass: &mut CellPass<S>,
    queue: &Turn<QueueDesk>,
    asks: &mut TurnPass<QueueDesk>,
    viewer: u32,
    stop: &AtomicBool,
)
    requires pass { IsCellPassOf cells.now pass.old }
    requires free { (knows pass.old).pins ≡ [] }
    requires asks { IsPassOf queue.now asks.old }
    requires queue { IsQueueFor (opened_at queue.now) (made_of (table cells.now)).levels.value }
    requires viewer { viewer < (opened_at queue.now).viewers }

    ensures pass { IsCellPassOf cells.now pass.new }
    ensures free { (knows pass.new).pins ≡ [] }
    ensures asks { IsPassOf queue.now asks.new }
    ensures served { AreServed team_front (teammate_at S.contents cells.now viewer pass.old (view asks.old)) (teammate_at S.contents cells.now viewer pass.new (view asks.new)) }
{
    let mut eyes = TeamEyes::new(rt, cells, pass, queue, asks, viewer);
    serve_until_closed(rt, &mut eyes, stop);
}
