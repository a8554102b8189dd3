// Tasks, one after another.
ghost use Rattle.std.specs.Prelude.{◌≡◌, ◌+◌, ◌<◌, ◌≤◌, ◌∷◌, [], All, length, map, cond, count_by, vec_len, vec_capacity};
ghost use Rattle.std.specs.Option.{option_to_list};
ghost use Rattle.team_run.specs.Desk.{IsReady, desk};
ghost use Rattle.team_run.specs.Serve.{AnswersTask, Adds};
ghost use Rattle.team_run.specs.Task.{IsDue, IsTaskDue, command_in, numbered, is_view};

use crate::fetch::fetch;
use crate::outcomes::{Outcome, add_reply, add_shot, answer_alone};
use crate::show::show;
use crate::task::{Due, Task};
use crate::voxel::{get, set};
use cell_store::Store;
use fetch_queue::Queues;
use run_report::{Reply, Shot};
use sole_cache::SoleCache;

/// Carries out tasks in their order. There is room for their replies and their shots.
pub fn serve_all<S: Store>(
    cache: &mut SoleCache<S>,
    queue: &mut Queues,
    plan: Vec<Due>,
    replies: &mut Vec<Reply>,
    shots: &mut Vec<Shot>,
)
    requires ready { IsReady (desk cache.old queue.old) }
    requires due { All IsDue plan.items }
    requires replies { vec_len replies.old + length plan.items ≤ vec_capacity replies.old }
    requires shots { vec_len shots.old + count_by (λ d. is_view d.task) plan.items ≤ vec_capacity shots.old }
    ensures adds { Adds (desk cache.old queue.old) (map numbered plan.items) replies.old.items replies.new.items shots.old.items shots.new.items (desk cache.new queue.new) }
    ensures ready { IsReady (desk cache.new queue.new) }
{
    for due in plan {
        serve_due(cache, queue, due, replies, shots);
    }
}

/// Carries out a task, and adds its reply and its shot.
fn serve_due<S: Store>(
    cache: &mut SoleCache<S>,
    queue: &mut Queues,
    due: Due,
    replies: &mut Vec<Reply>,
    shots: &mut Vec<Shot>,
)
    requires ready { IsReady (desk cache.old queue.old) }
    requires due { IsDue due }
    requires replies { vec_len replies.old < vec_capacity replies.old }
    requires shots { vec_len shots.old + cond (is_view due.task) 1 0 ≤ vec_capacity shots.old }
    ensures adds { Adds (desk cache.old queue.old) (numbered due ∷ []) replies.old.items replies.new.items shots.old.items shots.new.items (desk cache.new queue.new) }
    ensures ready { IsReady (desk cache.new queue.new) }
    ensures replies { vec_len replies.new ≡ vec_len replies.old + 1 }
    ensures reply_room { vec_capacity replies.old ≤ vec_capacity replies.new }
    ensures shots { vec_len shots.new ≡ vec_len shots.old + cond (is_view due.task) 1 0 }
    ensures shot_room { vec_capacity shots.old ≤ vec_capacity shots.new }
{
    let Due {
        phase,
        actor,
        call,
        task,
    } = due;
    let Outcome { answer, shot } = serve(cache, queue, actor, task);
    let reply = Reply {
        phase,
        actor,
        call,
        answer,
    };
    add_reply(replies, reply);
    add_shot(shots, shot);
}

/// Carries out a task for a viewer.
fn serve<S: Store>(cache: &mut SoleCache<S>, queue: &mut Queues, viewer: u32, task: Task) -> Outcome
    requires ready { IsReady (desk cache.old queue.old) }
    requires due { IsTaskDue viewer task }
    ensures answers { AnswersTask (desk cache.old queue.old) viewer (command_in task) result.answer (option_to_list result.shot) (desk cache.new queue.new) }
    ensures ready { IsReady (desk cache.new queue.new) }
    ensures shots { length (option_to_list result.shot) ≡ cond (is_view task) 1 0 }
{
    match task {
        Task::Get { level, pos } => answer_alone(get(cache, level, pos)),
        Task::Set { level, pos, value } => answer_alone(set(cache, level, pos, value)),
        Task::View {
            name,
            view,
            picture,
        } => show(cache, queue, viewer, name, view, picture),
        Task::Fetch { count } => answer_alone(fetch(cache, queue, viewer, count)),
    }
}
