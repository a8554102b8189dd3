// The call that the program makes.
ghost use Rattle.std.specs.Prelude.{◌≤◌, map, vec_len};
ghost use Rattle.command_words.specs.Request.{texts};
ghost use Rattle.viewrun_calls.specs.Alone.{IsCall};

use crate::ending::end_call;
use crate::laws::clean_calls_are_one;
use crate::work::{Worked, work};
use alike_runs::runs_are_alike;
use cell_store::{Sink, Source, Store};
use n5_meta::openings_are_alike;
use std::alloc::Global;

/// How a call ended: its status, and the stores, which come back in their order at every status.
#[derive(Drop)]
pub struct Ended<S> {
    pub status: u8,
    pub stores: Vec<S>,
}

/// Does on one thread what the words ask for, `info ROOT` or `solo SCRIPT --slots N`, over 1 to 16 stores, with the script's
/// source, and writes its text to a sink.
///
/// Where it ran a script, the run has its headline. It is one function of the words, of the script, of what the stores hold, and of which
/// calls of the stores failed or found no memory.
pub fn viewrun_alone<S: Store, R: Source, K: Sink>(
    alloc: Global,
    words: &[String],
    script: &mut R,
    stores: Vec<S>,
    out: &mut K,
) -> Ended<S>
    requires some_stores { 1 ≤ vec_len stores }
    requires few_stores { vec_len stores ≤ 16 }
    ensures { IsCall (texts words.now) (R.stream script.old) (R.stream script.new) (map S.contents stores.items) (map S.contents result.stores.items) (K.stream out.old) (K.stream out.new) result.status }
{
    // laws, which do nothing: the contract's later parts are those of this call
    runs_are_alike();
    openings_are_alike();
    clean_calls_are_one();
    let Worked { work, stores } = work(alloc, words, script, stores);
    let status = end_call(alloc, out, &work);
    Ended { status, stores }
}
