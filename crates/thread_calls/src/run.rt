// The run of a script by threads: what is read, opened and run, and the first refusal in this order.
ghost use Rattle.std.specs.Prelude.{◌≡◌, ◌^◌, ◌≤◌, [], length, map, vec_capacity, vec_len};
ghost use Rattle.std.specs.Option.{option_map};
ghost use Rattle.std.specs.Result.{ForOk};
ghost use Rattle.pin_rule.specs.Trails.{events_of};
ghost use Rattle.thread_calls.specs.Ending.{HasFewShots};
ghost use Rattle.thread_calls.specs.Run.{FinishesRun, OpensAndRuns, ReadsAndRuns, RunsOpen};
ghost use Rattle.view_script.specs.Script.{IsScript};
ghost use Rattle.viewrun_calls.specs.Volume.{IsMade};

use crate::work::{ThreadWorked, unrun};
use cell_grid::Geometry;
use cell_store::{Source, Store};
use run_report::{Stop, Unwritten};
use std::alloc::Global;
use std::sync::Wait;
use std::thread::Threads;
use team_actors::Gate;
use team_run::RunErr;
use thread_run::{ThreadRan, thread_run};
use view_script::Script;
use viewrun_calls::{Worked, open_volume, script_of, view_count, volume_keys, write_shots};

/// Reads a script of its source, opens its volume and runs it with so many slots and fetchers.
pub(crate) fn run_script<S: Store + Send, T: Threads + Wait + Sync, R: Source, G: Gate>(
    rt: &T,
    alloc: Global,
    slots: u64,
    fetchers: u32,
    source: &mut R,
    stores: Vec<S>,
    gate: &G,
) -> ThreadWorked<S>
    requires some_stores { 1 ≤ vec_len stores }
    requires few_stores { vec_len stores ≤ 16 }
    requires few_fetchers { fetchers ≤ 16 }
    ensures runs { ReadsAndRuns slots fetchers (R.stream source.old) (R.stream source.new) (map S.contents stores.items) (map S.contents result.stores.items) result.work (option_map events_of result.trail) }
    ensures few_shots { HasFewShots result.work }
{
    match script_of(alloc, source) {
        Ok(script) => open_and_run(rt, alloc, script, slots, fetchers, stores, gate),
        Err(stop) => unrun(stop, stores),
    }
}

/// Opens a script's volume, whose attributes the first store holds, and runs it.
pub(crate) fn open_and_run<S: Store + Send, T: Threads + Wait + Sync, G: Gate>(
    rt: &T,
    alloc: Global,
    script: Script,
    slots: u64,
    fetchers: u32,
    mut stores: Vec<S>,
    gate: &G,
) -> ThreadWorked<S>
    requires script { IsScript script }
    requires some_stores { 1 ≤ vec_len stores }
    requires few_stores { vec_len stores ≤ 16 }
    requires few_fetchers { fetchers ≤ 16 }
    ensures runs { OpensAndRuns script slots fetchers (map S.contents stores.items) (map S.contents result.stores.items) result.work (option_map events_of result.trail) }
    ensures few_shots { HasFewShots result.work }
{
    match open_volume(alloc, &script.head, &mut stores[0]) {
        Ok(geometry) => run_open(rt, alloc, geometry, script, slots, fetchers, stores, gate),
        Err(err) => unrun(Stop::Dataset(err), stores),
    }
}

/// Runs a script over the volume that it opened, and puts its pictures into the first store. The room for the names of pictures that
/// are not written is taken before the run.
fn run_open<S: Store + Send, T: Threads + Wait + Sync, G: Gate>(
    rt: &T,
    alloc: Global,
    geometry: Geometry,
    script: Script,
    slots: u64,
    fetchers: u32,
    stores: Vec<S>,
    gate: &G,
) -> ThreadWorked<S>
    requires script { IsScript script }
    requires made { IsMade script.head geometry }
    requires some_stores { 1 ≤ vec_len stores }
    requires few_stores { vec_len stores ≤ 16 }
    requires few_fetchers { fetchers ≤ 16 }
    ensures runs { RunsOpen script slots fetchers geometry (map S.contents stores.items) (map S.contents result.stores.items) result.work (option_map events_of result.trail) }
    ensures few_shots { HasFewShots result.work }
{
    let Ok(keys) = volume_keys(&script.head, &geometry) else {
        return unrun(Stop::Memory, stores);
    };
    let Ok(unwritten) = Vec::with_capacity(alloc, view_count(script.phases.as_slice())) else {
        return unrun(Stop::Memory, stores);
    };
    let ran = thread_run(
        rt, alloc, geometry, keys, script, slots, fetchers, stores, gate,
    );
    finish(alloc, ran, unwritten)
}

/// Puts the pictures of a run into the first store, where there was one. There is room for the names of all.
fn finish<S: Store>(alloc: Global, ran: ThreadRan<S>, unwritten: Vec<Unwritten>) -> ThreadWorked<S>
    requires none { unwritten.items ≡ [] }
    requires room { ForOk ran.report (λ report. length report.shots ≤ vec_capacity unwritten) }
    requires few_shots { ForOk ran.report (λ report. length report.shots ≤ 2 ^ 20) }
    requires some_stores { 1 ≤ vec_len ran.stores }
    ensures finishes { FinishesRun ran.report (option_map events_of ran.trail) (map S.contents ran.stores.items) (map S.contents result.stores.items) result.work (option_map events_of result.trail) }
    ensures few_shots { HasFewShots result.work }
{
    let ThreadRan {
        report,
        stores,
        trail,
    } = ran;
    match report {
        Ok(report) => {
            let Worked { work, stores } = write_shots(alloc, report, unwritten, stores);
            ThreadWorked {
                work,
                stores,
                trail,
            }
        }
        Err(RunErr::Slots { found, low, high }) => unrun(Stop::Slots { found, low, high }, stores),
        Err(RunErr::Memory) => unrun(Stop::Memory, stores),
    }
}
