// The tasks of an actor, one after another.
ghost use Rattle.std.specs.Prelude.{◌≡◌, ◌+◌, ◌<◌, ◌≤◌, [], All, cond, count_by, length, map, vec_len, vec_capacity};
ghost use Rattle.turn_cell.specs.Turn as turn;
ghost use Rattle.pin_rule.specs.Calls.{made_of, plan_at};
ghost use Rattle.volatile_cell.specs.Requests.{IsQueueFor};
ghost use Rattle.live_cells.specs.Cells.{table, knows, IsCellPassOf};
ghost use Rattle.team_eyes.specs.Teammate.{teammate_at};
ghost use Rattle.team_run.specs.Task.{IsDue, is_view, numbered};
ghost use Rattle.team_actors.specs.Answers.{AddsCommand};
ghost use Rattle.team_actors.specs.Deeds.{Acts};

use crate::gate::Gate;
use crate::serve::serve;
use cell_store::Store;
use live_cells::{CellPass, Cells};
use queue_desk::QueueDesk;
use run_report::{Reply, Shot};
use std::sync::Wait;
use team_run::{Due, Outcome, add_reply, add_shot};
use turn_cell::{Turn, TurnPass};

/// Carries out an actor's tasks in their order, by its passes of the cells and of their queue. The gate is told before and
/// after each. There is room for their replies and their shots.
pub fn act<S: Store, R: Wait, G: Gate>(
    rt: &R,
    cells: &Cells<S>,
    queue: &Turn<QueueDesk>,
    gate: &G,
    pass: &mut CellPass<S>,
    asks: &mut TurnPass<QueueDesk>,
    tasks: Vec<Due>,
    replies: &mut Vec<Reply>,
    shots: &mut Vec<Shot>,
)
    requires pass { IsCellPassOf cells.now pass.old }
    requires free { (knows pass.old).pins ≡ [] }
    requires asks { turn.IsPassOf queue.now asks.old }
    requires queue { IsQueueFor (turn.opened_at queue.now) (made_of (table cells.now)).levels.value }
    requires viewers { (turn.opened_at queue.now).viewers ≡ 16 }
    requires due { All IsDue tasks.items }
    requires no_replies { replies.old.items ≡ [] }
    requires no_shots { shots.old.items ≡ [] }
    requires reply_room { length tasks.items ≤ vec_capacity replies.old }
    requires shot_room { count_by (λ d. is_view d.task) tasks.items ≤ vec_capacity shots.old }
    ensures pass { IsCellPassOf cells.now pass.new }
    ensures free { (knows pass.new).pins ≡ [] }
    ensures asks { turn.IsPassOf queue.now asks.new }
    ensures acts { let made = made_of (table cells.now) in Acts (plan_at S.contents (table cells.now)) made.levels.value made.keys.value (knows pass.old) (turn.view asks.old) (map numbered tasks.items) replies.new.items shots.new.items (knows pass.new) (turn.view asks.new) }
{
    for due in tasks {
        act_once(rt, cells, queue, gate, pass, asks, due, replies, shots);
    }
}

/// Carries out a task, and adds its reply and its shot. The gate is told before and after.
fn act_once<S: Store, R: Wait, G: Gate>(
    rt: &R,
    cells: &Cells<S>,
    queue: &Turn<QueueDesk>,
    gate: &G,
    pass: &mut CellPass<S>,
    asks: &mut TurnPass<QueueDesk>,
    due: Due,
    replies: &mut Vec<Reply>,
    shots: &mut Vec<Shot>,
)
    requires pass { IsCellPassOf cells.now pass.old }
    requires free { (knows pass.old).pins ≡ [] }
    requires asks { turn.IsPassOf queue.now asks.old }
    requires queue { IsQueueFor (turn.opened_at queue.now) (made_of (table cells.now)).levels.value }
    requires viewers { (turn.opened_at queue.now).viewers ≡ 16 }
    requires due { IsDue due }
    requires reply_room { vec_len replies.old < vec_capacity replies.old }
    requires shot_room { vec_len shots.old + cond (is_view due.task) 1 0 ≤ vec_capacity shots.old }
    ensures pass { IsCellPassOf cells.now pass.new }
    ensures free { (knows pass.new).pins ≡ [] }
    ensures asks { turn.IsPassOf queue.now asks.new }
    ensures adds { AddsCommand (teammate_at S.contents cells.now due.actor pass.old (turn.view asks.old)) (numbered due) replies.old.items replies.new.items shots.old.items shots.new.items (teammate_at S.contents cells.now due.actor pass.new (turn.view asks.new)) }
    ensures replies { vec_len replies.new ≡ vec_len replies.old + 1 }
    ensures reply_room { vec_capacity replies.old ≤ vec_capacity replies.new }
    ensures shots { vec_len shots.new ≡ vec_len shots.old + cond (is_view due.task) 1 0 }
    ensures shot_room { vec_capacity shots.old ≤ vec_capacity shots.new }
{
    let Due {
        phase,
        actor,
        call,
        task,
    } = due;
    gate.before(phase, actor, call);
    let Outcome { answer, shot } = serve(rt, cells, queue, pass, asks, actor, task);
    gate.after(phase, actor, call);
    let reply = Reply {
        phase,
        actor,
        call,
        answer,
    };
    add_reply(replies, reply);
    add_shot(shots, shot);
}
