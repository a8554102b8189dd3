// A run on one thread.
ghost use Rattle.std.specs.Prelude.{◌≡◌, ◌≤◌, All, Err, IfOk, IsOk, [], count_by, length, map, vec_capacity, vec_len};
ghost use Rattle.view_script.specs.Script.{IsScript};
ghost use Rattle.team_run.specs.Desk.{IsReady, desk};
ghost use Rattle.team_run.specs.Range.{commands_over};
ghost use Rattle.team_run.specs.Run.{RunsOver, SoloAnswers, high_of};
ghost use Rattle.team_run.specs.Task.{IsDue, is_view, numbered};

use crate::ran::{Ran, RunErr};
use crate::serve::serve_all;
use crate::stage::{Stage, set_up};
use arr_history::{Closed, Unmade, histories_keep_laws, tallies_grow};
use cell_file::Keys;
use cell_grid::Geometry;
use cell_store::Store;
use plain_data::Items;
use run_report::Report;
use scale_pick::pictures_show_moments;
use sole_cache::{SoleCache, moves_compose};
use std::alloc::Global;
use view_script::Script;

/// The fewest slots of a run on one thread, and the most of any run.
const LOW: u64 = 2;

const MOST: u64 = 4096;

/// The most voxels in the frames of all slots.
const MOST_VOXELS: u64 = 1 << 24;

/// Runs a script on one thread: its commands in order of phase, actor and call, over a cache of these slots, which is shut
/// then. The slots are refused exactly where they are fewer than 2, or more than 4096 or than 2^24 voxels in all allow. All
/// memory is taken before the first command.
pub fn solo_run<S: Store>(
    alloc: Global,
    geometry: Geometry,
    keys: Keys,
    script: Script,
    slots: u64,
    stores: Vec<S>,
) -> Ran<S>
    requires made { keys.levels ≡ geometry }
    requires script { IsScript script }
    requires some_stores { 1 ≤ vec_len stores }
    requires few_stores { vec_len stores ≤ 16 }
    ensures { SoloAnswers geometry keys slots (commands_over geometry script) (map S.contents stores.items) (map S.contents result.stores.items) result.report }
{
    let high = most_slots(&geometry);
    if slots < LOW || slots > high {
        let refusal = RunErr::Slots {
            found: slots,
            low: LOW,
            high,
        };
        return unmade(refusal, stores);
    }
    let Ok(stage) = set_up(alloc, &geometry, script) else {
        return unmade(RunErr::Memory, stores);
    };
    match SoleCache::new(alloc, geometry, keys, slots as u32, stores) {
        Ok(cache) => run(cache, stage),
        Err(Unmade { stores }) => unmade(RunErr::Memory, stores),
    }
}

/// The most slots that a volume's greatest cell allows, for any run.
pub fn most_slots(geometry: &Geometry) -> u64
    ensures { result ≡ high_of geometry.now }
{
    let frame = u64::from(geometry.frame());
    MOST.min(MOST_VOXELS / frame.max(1))
}

/// Carries out what is set up, over a new cache, and shuts it.
fn run<S: Store>(mut cache: SoleCache<S>, stage: Stage) -> Ran<S>
    requires ready { IsReady (desk cache stage.queue) }
    requires due { All IsDue stage.plan.items }
    requires no_replies { stage.replies.items ≡ [] }
    requires reply_room { length stage.plan.items ≤ vec_capacity stage.replies }
    requires no_shots { stage.shots.items ≡ [] }
    requires shot_room { count_by (λ d. is_view d.task) stage.plan.items ≤ vec_capacity stage.shots }
    ensures runs { IfOk result.report (RunsOver cache stage.queue (map numbered stage.plan.items) (map S.contents result.stores.items)) }
    ensures ok { IsOk result.report }
{
    let Stage {
        mut queue,
        plan,
        mut replies,
        mut shots,
    } = stage;
    serve_all(&mut cache, &mut queue, plan, &mut replies, &mut shots);
    let Closed {
        stores,
        unsaved,
        tally,
    } = cache.shut();
    // laws, which do nothing: the contract's proof cites them
    moves_compose();
    tallies_grow();
    histories_keep_laws();
    pictures_show_moments();
    let report = Report::new(
        Items::from_vec(replies),
        Items::from_vec(shots),
        tally,
        unsaved,
    );
    Ran {
        report: Ok(report),
        stores,
    }
}

fn unmade<S>(err: RunErr, stores: Vec<S>) -> Ran<S>
    ensures report { result.report ≡ Err err }
    ensures stores { result.stores ≡ stores }
{
    let report = Err(err);
    Ran { report, stores }
}
