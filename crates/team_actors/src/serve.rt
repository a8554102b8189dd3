// What a task does.
ghost use Rattle.std.specs.Prelude.{◌≡◌, [], cond, length};
ghost use Rattle.std.specs.Option.{option_to_list};
ghost use Rattle.turn_cell.specs.Turn as turn;
ghost use Rattle.pin_rule.specs.Calls.{made_of};
ghost use Rattle.volatile_cell.specs.Requests.{IsQueueFor};
ghost use Rattle.live_cells.specs.Cells.{table, knows, IsCellPassOf};
ghost use Rattle.team_eyes.specs.Teammate.{teammate_at};
ghost use Rattle.team_run.specs.Task.{IsTaskDue, command_in, is_view};
ghost use Rattle.team_actors.specs.Answers.{AnswersCommand};

use crate::fetch::fetch;
use crate::show::show;
use crate::voxels::{answer_of_get, answer_of_set};
use cell_store::Store;
use live_cells::{CellPass, Cells};
use queue_desk::QueueDesk;
use std::sync::Wait;
use team_run::{Outcome, Task, answer_alone};
use turn_cell::{Turn, TurnPass};

/// Carries out a task for a viewer.
pub(crate) fn serve<S: Store, R: Wait>(
    rt: &R,
    cells: &Cells<S>,
    queue: &Turn<QueueDesk>,
    pass: &mut CellPass<S>,
    asks: &mut TurnPass<QueueDesk>,
    viewer: u32,
    task: Task,
) -> Outcome
    requires pass { IsCellPassOf cells.now pass.old }
    requires free { (knows pass.old).pins ≡ [] }
    requires asks { turn.IsPassOf queue.now asks.old }
    requires queue { IsQueueFor (turn.opened_at queue.now) (made_of (table cells.now)).levels.value }
    requires viewers { (turn.opened_at queue.now).viewers ≡ 16 }
    requires due { IsTaskDue viewer task }
    ensures pass { IsCellPassOf cells.now pass.new }
    ensures free { (knows pass.new).pins ≡ [] }
    ensures asks { turn.IsPassOf queue.now asks.new }
    ensures answers { AnswersCommand (teammate_at S.contents cells.now viewer pass.old (turn.view asks.old)) (command_in task) result.answer (option_to_list result.shot) (teammate_at S.contents cells.now viewer pass.new (turn.view asks.new)) }
    ensures shots { length (option_to_list result.shot) ≡ cond (is_view task) 1 0 }
{
    match task {
        Task::Get { level, pos } => answer_alone(answer_of_get(cells.get(rt, pass, level, pos))),
        Task::Set { level, pos, value } => {
            answer_alone(answer_of_set(cells.set(rt, pass, level, pos, value)))
        }
        Task::View {
            name,
            view,
            picture,
        } => show(rt, cells, queue, pass, asks, viewer, name, view, picture),
        Task::Fetch { count } => answer_alone(fetch(rt, cells, queue, pass, asks, viewer, count)),
    }
}
