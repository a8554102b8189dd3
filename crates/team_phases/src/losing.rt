// Parts of a phase whose passes found no memory.
ghost use Rattle.std.specs.Prelude.{◌≡◌, ◌+◌, ◌<◌, ◌≤◌, ◌∷◌, [], ◌++◌, All, List, cond, length, map, vec_len, vec_capacity};
ghost use Rattle.std.specs.Option.{option_to_list};
ghost use Rattle.team_phases.specs.declared.actor.PartDone.{PartDone};
ghost use Rattle.team_phases.specs.Phases.{AreLost, AllLost, IsLostShot};
ghost use Rattle.team_phases.specs.Working.{replies_in, shots_in};
ghost use Rattle.team_run.specs.Task.{command_in, is_view};
ghost use Rattle.thread_plan.specs.Parts.{IsPartDue, commands_in};

use crate::actor::PartDone;
use cell_file::AcquireErr;
use run_report::{Answer, Refusal, Reply, Shot};
use team_run::{Due, Task, add_reply, add_shot};
use thread_plan::Part;

/// Answers each command of the parts with want of memory.
pub(crate) fn lose_all(parts: Vec<Part>, done: &mut Vec<PartDone>)
    requires due { All IsPartDue parts.items }
    requires room { vec_len done.old + length parts.items ≤ vec_capacity done.old }
    ensures lost { (lost : List PartDone) × (done.new.items ≡ done.old.items ++ lost) × AllLost (map commands_in parts.items) (map replies_in lost) (map shots_in lost) }
    ensures count { vec_len done.new ≡ vec_len done.old + length parts.items }
    ensures capacity { vec_capacity done.old ≤ vec_capacity done.new }
{
    for part in parts {
        let lost = lose(part);
        add_done(done, lost);
    }
}

/// Adds what is left of a part, where there is room.
pub(crate) fn add_done(done: &mut Vec<PartDone>, left: PartDone)
    requires room { vec_len done.old < vec_capacity done.old }
    ensures added { done.new.items ≡ done.old.items ++ left ∷ [] }
    ensures len { vec_len done.new ≡ vec_len done.old + 1 }
    ensures capacity { vec_capacity done.old ≤ vec_capacity done.new }
{
    let _ = done.push(left);
}

fn lose(part: Part) -> PartDone
    requires { IsPartDue part }
    ensures { AreLost (commands_in part) (replies_in result) (shots_in result) }
{
    let Part {
        tasks,
        mut replies,
        mut shots,
    } = part;
    for due in tasks {
        let Due {
            phase,
            actor,
            call,
            task,
        } = due;
        let reply = Reply {
            phase,
            actor,
            call,
            answer: Answer::Refused(Refusal::Acquire(AcquireErr::Memory)),
        };
        add_reply(&mut replies, reply);
        add_shot(&mut shots, lost_shot(task));
    }
    PartDone { replies, shots }
}

/// The picture of a view that is not painted.
fn lost_shot(task: Task) -> Option<Shot>
    ensures shot { IsLostShot (command_in task) (option_to_list result) }
    ensures count { length (option_to_list result) ≡ cond (is_view task) 1 0 }
{
    match task {
        Task::View {
            name,
            view: _,
            picture,
        } => Some(Shot {
            name,
            picture,
            shown: false,
        }),
        _ => None,
    }
}
