// What a call does before anything is written.
ghost use Rattle.std.specs.Prelude.{◌≡◌, ◌≤◌, Err, IfOk, None, Ok, map, vec_len};
ghost use Rattle.std.specs.Option.{option_map};
ghost use Rattle.pin_rule.specs.Trails.{events_of};
ghost use Rattle.thread_calls.specs.Ending as ending;
ghost use Rattle.thread_calls.specs.Ending.{HasFewShots};
ghost use Rattle.thread_calls.specs.Run.{AsksFewFetchers};
ghost use Rattle.thread_calls.specs.Work.{Works};

use crate::demo::make_and_run;
use crate::run::run_script;
use cell_store::{Source, Store};
use command_words::Request;
use pin_rule::Trail;
use run_report::Stop;
use std::alloc::{AllocError, Global};
use std::sync::Wait;
use std::thread::Threads;
use team_actors::Gate;
use viewrun_calls::Done;

/// What was done over stores, or why nothing was; the stores in their order; and the trail of the cells that were shut, where a script
/// was run.
#[derive(Drop)]
pub(crate) struct ThreadWorked<S> {
    pub(crate) work: Result<Done, Stop>,
    pub(crate) stores: Vec<S>,
    pub(crate) trail: Option<Trail<S>>,
}

/// Does by threads what was read of the words, over at least one store.
pub(crate) fn work<S: Store + Send, T: Threads + Wait + Sync, R: Source, G: Gate>(
    rt: &T,
    alloc: Global,
    request: Result<Option<Request>, AllocError>,
    script: &mut R,
    stores: Vec<S>,
    gate: &G,
) -> ThreadWorked<S>
    requires few_fetchers { IfOk request AsksFewFetchers }
    requires some_stores { 1 ≤ vec_len stores }
    requires few_stores { vec_len stores ≤ 16 }
    ensures works { Works request.entry (R.stream script.old) (R.stream script.new) (map S.contents stores.items) (map S.contents result.stores.items) result.work (option_map events_of result.trail) }
    ensures few_shots { HasFewShots result.work }
{
    match request {
        Ok(request) => work_for(rt, alloc, request, script, stores, gate),
        Err(_) => unrun(Stop::Memory, stores),
    }
}

/// Does what is asked for. By threads all but `run` and `demo` asks for nothing.
fn work_for<S: Store + Send, T: Threads + Wait + Sync, R: Source, G: Gate>(
    rt: &T,
    alloc: Global,
    request: Option<Request>,
    script: &mut R,
    stores: Vec<S>,
    gate: &G,
) -> ThreadWorked<S>
    requires few_fetchers { AsksFewFetchers request }
    requires some_stores { 1 ≤ vec_len stores }
    requires few_stores { vec_len stores ≤ 16 }
    ensures works { Works (Ok request.entry) (R.stream script.old) (R.stream script.new) (map S.contents stores.items) (map S.contents result.stores.items) result.work (option_map events_of result.trail) }
    ensures few_shots { HasFewShots result.work }
{
    match request {
        Some(
            Request::Run {
                slots,
                fetchers,
                ..
            },
        ) => run_script(rt, alloc, slots, fetchers as u32, script, stores, gate),
        Some(Request::Demo { number }) => make_and_run(rt, alloc, number, stores, gate),
        Some(Request::Info { .. } | Request::Solo { .. }) | None => unrun(Stop::Usage, stores),
    }
}

/// The number of the demonstration, where that is asked for.
pub(crate) fn number_of(request: &Result<Option<Request>, AllocError>) -> Option<u64>
    ensures { result ≡ ending.number_of request.now }
{
    match request {
        Ok(Some(Request::Demo { number })) => Some(*number),
        Ok(_) | Err(_) => None,
    }
}

/// Nothing was run; the stores are as they were.
pub(crate) fn unrun<S>(stop: Stop, stores: Vec<S>) -> ThreadWorked<S>
    ensures work { result.work ≡ Err stop }
    ensures stores { result.stores ≡ stores }
    ensures trail { result.trail ≡ None }
{
    ThreadWorked {
        work: Err(stop),
        stores,
        trail: None,
    }
}
