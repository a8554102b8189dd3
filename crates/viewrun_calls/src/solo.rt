// The run of a script on one thread: what is read, opened and run, and the first refusal in this order.
ghost use Rattle.std.specs.Prelude.{◌≡◌, ◌≤◌, List, [], length, map, vec_capacity, vec_len};
ghost use Rattle.store_calls.specs.Calls.{StoreCall};
ghost use Rattle.view_script.specs.Script.{IsScript};
ghost use Rattle.viewrun_calls.specs.Pictures.{PutsShots};
ghost use Rattle.viewrun_calls.specs.Stores.{FirstChanges};
ghost use Rattle.viewrun_calls.specs.Volume.{IsMade};
ghost use Rattle.viewrun_calls.specs.Work.{OpensAndRuns, ReadsAndRuns, RunsOpen, WritesShots};

use crate::pictures::{put_shots, view_count};
use crate::source::script_of;
use crate::volume::{open_volume, volume_keys};
use crate::work::{Done, Worked, stopped};
use cell_grid::Geometry;
use cell_store::{Source, Store};
use plain_data::Items;
use run_report::{Report, Shot, Stop, Unwritten};
use std::alloc::Global;
use team_run::{Ran, RunErr, solo_run};
use view_script::Script;

/// Reads a script of its source, opens its volume and runs it with so many slots.
pub fn run_script<S: Store, R: Source>(
    alloc: Global,
    slots: u64,
    source: &mut R,
    stores: Vec<S>,
) -> Worked<S>
    requires some_stores { 1 ≤ vec_len stores }
    requires few_stores { vec_len stores ≤ 16 }
    ensures { (calls : List StoreCall) × ReadsAndRuns slots (R.stream source.old) (R.stream source.new) (map S.contents stores.items) (map S.contents result.stores.items) calls result.work }
{
    match script_of(alloc, source) {
        Ok(script) => open_and_run(alloc, script, slots, stores),
        Err(stop) => stopped(stop, stores),
    }
}

/// Opens a script's volume, whose attributes the first store holds, and runs it.
fn open_and_run<S: Store>(
    alloc: Global,
    script: Script,
    slots: u64,
    mut stores: Vec<S>,
) -> Worked<S>
    requires script { IsScript script }
    requires some_stores { 1 ≤ vec_len stores }
    requires few_stores { vec_len stores ≤ 16 }
    ensures { (calls : List StoreCall) × OpensAndRuns script slots (map S.contents stores.items) (map S.contents result.stores.items) calls result.work }
{
    match open_volume(alloc, &script.head, &mut stores[0]) {
        Ok(geometry) => run_open(alloc, geometry, script, slots, stores),
        Err(err) => stopped(Stop::Dataset(err), stores),
    }
}

/// Runs a script over the volume that it opened, and puts its pictures into the first store. The room for the names of pictures that
/// are not written is taken before the run.
fn run_open<S: Store>(
    alloc: Global,
    geometry: Geometry,
    script: Script,
    slots: u64,
    stores: Vec<S>,
) -> Worked<S>
    requires script { IsScript script }
    requires made { IsMade script.head geometry }
    requires some_stores { 1 ≤ vec_len stores }
    requires few_stores { vec_len stores ≤ 16 }
    ensures { (calls : List StoreCall) × RunsOpen script slots geometry (map S.contents stores.items) (map S.contents result.stores.items) calls result.work }
{
    let Ok(keys) = volume_keys(&script.head, &geometry) else {
        return stopped(Stop::Memory, stores);
    };
    let Ok(unwritten) = Vec::with_capacity(alloc, view_count(script.phases.as_slice())) else {
        return stopped(Stop::Memory, stores);
    };
    let Ran { report, stores } = solo_run(alloc, geometry, keys, script, slots, stores);
    match report {
        Ok(report) => write_shots(alloc, report, unwritten, stores),
        Err(RunErr::Slots { found, low, high }) => stopped(
            Stop::Slots { found, low, high },
            stores,
        ),
        Err(RunErr::Memory) => stopped(Stop::Memory, stores),
    }
}

/// Puts the pictures of a report into the first store. There is room for the names of all.
pub fn write_shots<S: Store>(
    alloc: Global,
    report: Report,
    mut unwritten: Vec<Unwritten>,
    mut stores: Vec<S>,
) -> Worked<S>
    requires none { unwritten.items ≡ [] }
    requires room { length report.shots ≤ vec_capacity unwritten }
    requires some_stores { 1 ≤ vec_len stores }
    ensures { WritesShots report (map S.contents stores.items) (map S.contents result.stores.items) result.work }
{
    put_in_first(alloc, report.shots.as_slice(), &mut stores, &mut unwritten);
    let unwritten = Items::from_vec(unwritten);
    let work = Ok(Done::Ran { report, unwritten });
    Worked { work, stores }
}

/// Puts pictures into the first store.
fn put_in_first<S: Store>(
    alloc: Global,
    shots: &[Shot],
    stores: &mut Vec<S>,
    unwritten: &mut Vec<Unwritten>,
)
    requires none { unwritten.old.items ≡ [] }
    requires room { length shots.now ≤ vec_capacity unwritten.old }
    requires some_stores { 1 ≤ vec_len stores.old }
    ensures { FirstChanges (λ before after. PutsShots shots.now before after unwritten.new.items) (map S.contents stores.old.items) (map S.contents stores.new.items) }
{
    put_shots(alloc, &mut stores[0], shots, unwritten);
}
