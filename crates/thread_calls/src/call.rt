// The call that the program makes for a run by threads.
ghost use Rattle.std.specs.Prelude.{◌≤◌, map, vec_len};
ghost use Rattle.std.specs.Option.{option_map};
ghost use Rattle.command_words.specs.Request.{texts};
ghost use Rattle.pin_rule.specs.Trails.{events_of};
ghost use Rattle.thread_calls.specs.Call.{IsThreadCall};

use crate::ending::end;
use crate::work::{ThreadWorked, number_of, work};
use cell_store::{Sink, Source, Store};
use command_words::request_of;
use pin_rule::Trail;
use std::alloc::Global;
use std::sync::Wait;
use std::thread::Threads;
use team_actors::Gate;

/// How a call ended: its status; the stores, which come back in their order at every status; and the trail of the cells that were shut,
/// where a script was run.
#[derive(Drop)]
pub struct ThreadEnded<S> {
    pub status: u8,
    pub stores: Vec<S>,
    pub trail: Option<Trail<S>>,
}

/// Does by threads what the words ask for, `run SCRIPT --slots N --fetchers N` or `demo N`, over 1 to 16 stores, with the script's source,
/// and writes its text to a sink. The gate is told before and after each command.
///
/// Where it ran a script, the run has its headline, however the steps of its threads interleaved.
pub fn viewrun<S: Store + Send, T: Threads + Wait + Sync, R: Source, K: Sink, G: Gate>(
    rt: &T,
    alloc: Global,
    words: &[String],
    script: &mut R,
    stores: Vec<S>,
    out: &mut K,
    gate: &G,
) -> ThreadEnded<S>
    requires some_stores { 1 ≤ vec_len stores }
    requires few_stores { vec_len stores ≤ 16 }
    ensures { IsThreadCall (texts words.now) (R.stream script.old) (R.stream script.new) (map S.contents stores.items) (map S.contents result.stores.items) (K.stream out.old) (K.stream out.new) result.status (option_map events_of result.trail) }
{
    let request = request_of(alloc, words);
    let number = number_of(&request);
    let ThreadWorked {
        work,
        stores,
        trail,
    } = work(rt, alloc, request, script, stores, gate);
    let status = end(alloc, out, number, &work);
    ThreadEnded {
        status,
        stores,
        trail,
    }
}
