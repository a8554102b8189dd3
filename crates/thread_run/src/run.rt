// A run by threads.
ghost use Rattle.std.specs.Prelude.{◌≡◌, ◌≤◌, Err, None, map, vec_len};
ghost use Rattle.std.specs.Option.{option_map};
ghost use Rattle.pin_rule.specs.Trails.{events_of};
ghost use Rattle.thread_plan.specs.Scenes.{scenes_over};
ghost use Rattle.thread_plan.specs.Parts.{commands_in_scene};
ghost use Rattle.thread_run.specs.Opened.{IsOpen, RunsOver};
ghost use Rattle.thread_run.specs.Run.{ThreadAnswers};
ghost use Rattle.thread_run.specs.Stage.{IsPlanned};
ghost use Rattle.view_script.specs.Script.{IsScript};

use crate::ending::end;
use crate::gather::gather;
use crate::laws::carried_out_runs;
use crate::ran::ThreadRan;
use crate::stage::{Plan, Stage, set_up};
use arr_history::Unmade;
use cell_file::Keys;
use cell_grid::Geometry;
use cell_store::Store;
use live_cells::Cells;
use queue_desk::QueueDesk;
use std::alloc::Global;
use std::sync::Wait;
use std::thread::Threads;
use team_actors::Gate;
use team_passes::TeamPass;
use team_phases::play_all;
use team_run::{RunErr, most_slots};
use thread_plan::least_slots;
use turn_cell::Turn;
use view_script::Script;

/// Runs a script by threads, over cells in so many slots that they share: in each phase each actor on a thread of its own, beside so
/// many fetchers. The cells are shut then. The slots are refused exactly where they are fewer than two for each actor of a phase, one
/// for each fetcher and one more, or more than 4096 or than 2^24 voxels in all allow. All memory of replies and pictures is taken before
/// the first command; where the passes of a phase find none, each of its commands answers so. The gate is told before and after each
/// command.
pub fn thread_run<S: Store + Send, R: Threads + Wait + Sync, G: Gate>(
    rt: &R,
    alloc: Global,
    geometry: Geometry,
    keys: Keys,
    script: Script,
    slots: u64,
    fetchers: u32,
    stores: Vec<S>,
    gate: &G,
) -> ThreadRan<S>
    requires made { keys.levels ≡ geometry }
    requires script { IsScript script }
    requires some_stores { 1 ≤ vec_len stores }
    requires few_stores { vec_len stores ≤ 16 }
    requires few_fetchers { fetchers ≤ 16 }
    ensures { ThreadAnswers geometry keys slots fetchers (scenes_over geometry script) (map S.contents stores.items) (map S.contents result.stores.items) result.report (option_map events_of result.trail) }
{
    let low = least_slots(script.phases.as_slice(), fetchers);
    let high = most_slots(&geometry);
    if slots < low || slots > high {
        let refusal = RunErr::Slots {
            found: slots,
            low,
            high,
        };
        return unmade(refusal, stores);
    }
    let Ok(stage) = set_up(alloc, &geometry, script) else {
        return unmade(RunErr::Memory, stores);
    };
    let Stage { queue, asks, plan } = stage;
    match Cells::new(alloc, &geometry, &keys, slots as u32, stores) {
        Ok((cells, pass)) => {
            let first = TeamPass { cells: pass, asks };
            run(rt, alloc, cells, queue, first, plan, fetchers, gate)
        }
        Err(Unmade { stores }) => {
            let _queue = queue.close(asks);
            unmade(RunErr::Memory, stores)
        }
    }
}

/// Plays what is planned, over new cells and their queue, and shuts the cells.
fn run<S: Store + Send, R: Threads + Wait + Sync, G: Gate>(
    rt: &R,
    alloc: Global,
    cells: Cells<S>,
    queue: Turn<QueueDesk>,
    mut first: TeamPass<S>,
    plan: Plan,
    fetchers: u32,
    gate: &G,
) -> ThreadRan<S>
    requires open { IsOpen S.contents cells queue first }
    requires plan { IsPlanned plan }
    requires few_fetchers { fetchers ≤ 16 }
    ensures runs { RunsOver S.contents cells fetchers (map commands_in_scene plan.scenes.items) (map S.contents result.stores.items) result.report result.trail }
{
    let Plan {
        scenes,
        mut done,
        mut replies,
        mut shots,
    } = plan;
    play_all(
        rt, alloc, &cells, &queue, gate, &mut first, scenes, fetchers, &mut done,
    );
    gather(done, &mut replies, &mut shots);
    // a law, which does nothing: the contract's proof cites it
    carried_out_runs::<S>();
    end(cells, queue, first, replies, shots)
}

fn unmade<S>(err: RunErr, stores: Vec<S>) -> ThreadRan<S>
    ensures report { result.report ≡ Err err }
    ensures stores { result.stores ≡ stores }
    ensures trail { result.trail ≡ None }
{
    ThreadRan {
        report: Err(err),
        stores,
        trail: None,
    }
}
