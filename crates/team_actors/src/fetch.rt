// Fetches, and the servings of a fetcher.
ghost use Rattle.std.specs.Prelude.{◌≡◌, ◌<◌, []};
ghost use Rattle.turn_cell.specs.Turn as turn;
ghost use Rattle.pin_rule.specs.Calls.{made_of, plan_at};
ghost use Rattle.volatile_cell.specs.Requests.{IsQueueFor};
ghost use Rattle.fetchers.specs.Servings.{IsFetch};
ghost use Rattle.live_cells.specs.Cells.{table, knows, IsCellPassOf};
ghost use Rattle.team_eyes.specs.Teammate.{teammate_at, team_front};
ghost use Rattle.view_script.specs.declared.command.Command.TheVariants.{Fetch};
ghost use Rattle.team_actors.specs.Answers.{AnswersCommand};
ghost use Rattle.team_actors.specs.Deeds.{Fetches};

use cell_store::Store;
use fetchers::{Fetched, Memory, serve_up_to};
use live_cells::{CellPass, Cells};
use queue_desk::QueueDesk;
use run_report::Answer;
use std::sync::Wait;
use std::sync::atomic::AtomicBool;
use team_eyes::TeamEyes;
use team_frames::serve_cells;
use team_run::answer_of_fetch;
use turn_cell::{Turn, TurnPass};

/// The viewer of a fetcher. It puts no request and clears none, so it could be any.
const VIEWER: u32 = 0;

/// Serves so many requests of the queue, or fewer where it has no more, and counts them.
pub(crate) fn fetch<S: Store, R: Wait>(
    rt: &R,
    cells: &Cells<S>,
    queue: &Turn<QueueDesk>,
    pass: &mut CellPass<S>,
    asks: &mut TurnPass<QueueDesk>,
    viewer: u32,
    count: u32,
) -> Answer
    requires pass { IsCellPassOf cells.now pass.old }
    requires free { (knows pass.old).pins ≡ [] }
    requires asks { turn.IsPassOf queue.now asks.old }
    requires queue { IsQueueFor (turn.opened_at queue.now) (made_of (table cells.now)).levels.value }
    requires viewer { viewer < (turn.opened_at queue.now).viewers }
    ensures pass { IsCellPassOf cells.now pass.new }
    ensures free { (knows pass.new).pins ≡ [] }
    ensures asks { turn.IsPassOf queue.now asks.new }
    ensures answers { AnswersCommand (teammate_at S.contents cells.now viewer pass.old (turn.view asks.old)) (Fetch count) result [] (teammate_at S.contents cells.now viewer pass.new (turn.view asks.new)) }
{
    answer_of_fetch(fetch_cells(rt, cells, queue, pass, asks, viewer, count))
}

/// Serves so many requests through eyes over both passes.
fn fetch_cells<S: Store, R: Wait>(
    rt: &R,
    cells: &Cells<S>,
    queue: &Turn<QueueDesk>,
    pass: &mut CellPass<S>,
    asks: &mut TurnPass<QueueDesk>,
    viewer: u32,
    count: u32,
) -> Result<Fetched, Memory>
    requires pass { IsCellPassOf cells.now pass.old }
    requires free { (knows pass.old).pins ≡ [] }
    requires asks { turn.IsPassOf queue.now asks.old }
    requires queue { IsQueueFor (turn.opened_at queue.now) (made_of (table cells.now)).levels.value }
    requires viewer { viewer < (turn.opened_at queue.now).viewers }
    ensures pass { IsCellPassOf cells.now pass.new }
    ensures free { (knows pass.new).pins ≡ [] }
    ensures asks { turn.IsPassOf queue.now asks.new }
    ensures fetch { IsFetch team_front (teammate_at S.contents cells.now viewer pass.old (turn.view asks.old)) count result (teammate_at S.contents cells.now viewer pass.new (turn.view asks.new)) }
{
    let mut eyes = TeamEyes::new(rt, cells, pass, queue, asks, viewer);
    serve_up_to(&mut eyes, count)
}

/// Serves requests of the queue until a load of the flag shows true.
pub fn fetch_ahead<S: Store, R: Wait>(
    rt: &R,
    cells: &Cells<S>,
    queue: &Turn<QueueDesk>,
    pass: &mut CellPass<S>,
    asks: &mut TurnPass<QueueDesk>,
    stop: &AtomicBool,
)
    requires pass { IsCellPassOf cells.now pass.old }
    requires free { (knows pass.old).pins ≡ [] }
    requires asks { turn.IsPassOf queue.now asks.old }
    requires queue { IsQueueFor (turn.opened_at queue.now) (made_of (table cells.now)).levels.value }
    requires viewers { (turn.opened_at queue.now).viewers ≡ 16 }
    ensures pass { IsCellPassOf cells.now pass.new }
    ensures free { (knows pass.new).pins ≡ [] }
    ensures asks { turn.IsPassOf queue.now asks.new }
    ensures fetches { Fetches (plan_at S.contents (table cells.now)) (made_of (table cells.now)).levels.value (knows pass.old) (turn.view asks.old) (knows pass.new) (turn.view asks.new) }
{
    serve_cells(rt, cells, pass, queue, asks, VIEWER, stop);
}
