// The demonstration: a pyramid that a number decides, which is made in the stores, and then edited and painted by threads.
ghost use Rattle.std.specs.Prelude.{◌≡◌, ◌≤◌, map, vec_len};
ghost use Rattle.std.specs.Option.{option_map};
ghost use Rattle.pin_rule.specs.Trails.{events_of};
ghost use Rattle.thread_calls.specs.Demo as demo;
ghost use Rattle.thread_calls.specs.Demo.{MakesAndRuns};
ghost use Rattle.thread_calls.specs.Ending.{HasFewShots};

use crate::run::open_and_run;
use crate::work::{ThreadWorked, unrun};
use cell_store::Store;
use demo_script::demo_script;
use demo_volume::{MakeErr, make_pyramid};
use run_report::Stop;
use std::alloc::Global;
use std::sync::Wait;
use std::thread::Threads;
use team_actors::Gate;

/// The slots of the demonstration's run.
const SLOTS: u64 = 128;

/// Its fetchers.
const FETCHERS: u32 = 2;

/// Makes the pyramid of a number in the stores and runs the demonstration's script over it. Where there is no memory for the script
/// nothing is put.
pub(crate) fn make_and_run<S: Store + Send, T: Threads + Wait + Sync, G: Gate>(
    rt: &T,
    alloc: Global,
    number: u64,
    mut stores: Vec<S>,
    gate: &G,
) -> ThreadWorked<S>
    requires some_stores { 1 ≤ vec_len stores }
    requires few_stores { vec_len stores ≤ 16 }
    ensures runs { MakesAndRuns number (map S.contents stores.items) (map S.contents result.stores.items) result.work (option_map events_of result.trail) }
    ensures few_shots { HasFewShots result.work }
{
    let Ok(script) = demo_script(alloc) else {
        return unrun(Stop::Memory, stores);
    };
    match make_pyramid(alloc, number, &mut stores) {
        Ok(()) => open_and_run(rt, alloc, script, SLOTS, FETCHERS, stores, gate),
        Err(err) => unrun(stop_of(err), stores),
    }
}

/// Why no run follows a pyramid that was not made.
fn stop_of(err: MakeErr) -> Stop
    ensures { result ≡ demo.stop_of err }
{
    match err {
        MakeErr::WriteFault => Stop::WriteFault,
        MakeErr::Memory => Stop::Memory,
    }
}
