// What parts leave, one after another.
ghost use Rattle.std.specs.Prelude.{◌≡◌, ◌+◌, ◌≤◌, ◌++◌, ◌<◌, ◌∷◌, [], length, map, vec_capacity, vec_len};
ghost use Rattle.team_phases.specs.Working.{replies_in, shots_in};
ghost use Rattle.thread_plan.specs.Scenes.{flat};

use run_report::{Reply, Shot};
use team_phases::PartDone;

/// Moves the replies and the shots of parts, in their order, behind those that are there. There is room for them.
pub(crate) fn gather(done: Vec<PartDone>, replies: &mut Vec<Reply>, shots: &mut Vec<Shot>)
    requires replies { vec_len replies.old + length (flat (map replies_in done.items)) ≤ vec_capacity replies.old }
    requires shots { vec_len shots.old + length (flat (map shots_in done.items)) ≤ vec_capacity shots.old }
    ensures replies { replies.new.items ≡ replies.old.items ++ flat (map replies_in done.items) }
    ensures shots { shots.new.items ≡ shots.old.items ++ flat (map shots_in done.items) }
{
    for part in done {
        let PartDone {
            replies: more,
            shots: others,
        } = part;
        move_behind(replies, more);
        move_behind(shots, others);
    }
}

/// Moves elements behind those that are there. There is room for them.
fn move_behind<T: Drop>(all: &mut Vec<T>, more: Vec<T>)
    requires room { vec_len all.old + vec_len more ≤ vec_capacity all.old }
    ensures moved { all.new.items ≡ all.old.items ++ more.items }
    ensures len { vec_len all.new ≡ vec_len all.old + vec_len more }
    ensures capacity { vec_capacity all.old ≤ vec_capacity all.new }
{
    for one in more {
        add(all, one);
    }
}

fn add<T: Drop>(all: &mut Vec<T>, one: T)
    requires room { vec_len all.old < vec_capacity all.old }
    ensures added { all.new.items ≡ all.old.items ++ one ∷ [] }
    ensures len { vec_len all.new ≡ vec_len all.old + 1 }
    ensures capacity { vec_capacity all.old ≤ vec_capacity all.new }
{
    let _ = all.push(one);
}
