// Views: a frame each, and a shot.
ghost use Rattle.std.specs.Prelude.{◌≡◌, ◌<◌, [], length};
ghost use Rattle.std.specs.Option.{option_to_list};
ghost use Rattle.turn_cell.specs.Turn as turn;
ghost use Rattle.pin_rule.specs.Calls.{made_of};
ghost use Rattle.volatile_cell.specs.Requests.{IsQueueFor};
ghost use Rattle.live_cells.specs.Cells.{table, knows, IsCellPassOf};
ghost use Rattle.team_eyes.specs.Teammate.{teammate_at};
ghost use Rattle.team_run.specs.Task.{HasSides};
ghost use Rattle.view_script.specs.declared.command.Command.TheVariants as command;
ghost use Rattle.view_script.specs.Script.{IsViewWithinLimits};
ghost use Rattle.team_actors.specs.Answers.{AnswersCommand};

use cell_store::Store;
use live_cells::{CellPass, Cells};
use queue_desk::QueueDesk;
use run_report::{Answer, Refusal};
use scale_pick::{Picture, View};
use std::sync::Wait;
use team_frames::paint_view;
use team_run::{Outcome, answer_with_shot, lacks_level};
use turn_cell::{Turn, TurnPass};
use view_script::Name;

/// Paints a view, and keeps its picture under its name.
pub(crate) fn show<S: Store, R: Wait>(
    rt: &R,
    cells: &Cells<S>,
    queue: &Turn<QueueDesk>,
    pass: &mut CellPass<S>,
    asks: &mut TurnPass<QueueDesk>,
    viewer: u32,
    name: Name,
    view: View,
    mut picture: Picture,
) -> Outcome
    requires pass { IsCellPassOf cells.now pass.old }
    requires free { (knows pass.old).pins ≡ [] }
    requires asks { turn.IsPassOf queue.now asks.old }
    requires queue { IsQueueFor (turn.opened_at queue.now) (made_of (table cells.now)).levels.value }
    requires viewer { viewer < (turn.opened_at queue.now).viewers }
    requires limits { IsViewWithinLimits view }
    requires sides { HasSides view picture }
    ensures pass { IsCellPassOf cells.now pass.new }
    ensures free { (knows pass.new).pins ≡ [] }
    ensures asks { turn.IsPassOf queue.now asks.new }
    ensures answers { AnswersCommand (teammate_at S.contents cells.now viewer pass.old (turn.view asks.old)) (command.View name view) result.answer (option_to_list result.shot) (teammate_at S.contents cells.now viewer pass.new (turn.view asks.new)) }
    ensures one { length (option_to_list result.shot) ≡ 1 }
{
    if lacks_level(cells.geometry(), &view) {
        return answer_with_shot(Answer::Refused(Refusal::Outside), name, picture, false);
    }
    match paint_view(rt, cells, pass, queue, asks, viewer, &view, &mut picture) {
        Ok(painted) => answer_with_shot(Answer::Frame(painted), name, picture, true),
        Err(err) => answer_with_shot(Answer::Refused(Refusal::Acquire(err)), name, picture, false),
    }
}
