// What a call does before anything is written.
ghost use Rattle.std.specs.Prelude.{◌≡◌, ◌≤◌, List, map, vec_len};
ghost use Rattle.store_calls.specs.Calls.{StoreCall};
ghost use Rattle.command_words.specs.Request.{texts};
ghost use Rattle.viewrun_calls.specs.Work.{Informs, ReadsAndWorks, Works};

use crate::solo::run_script;
use cell_grid::Geometry;
use cell_store::{Source, Store};
use command_words::{Request, request_of};
use n5_meta::open_pyramid;
use plain_data::Items;
use run_report::{Report, Stop, Unwritten};
use std::alloc::Global;

/// What a call did.
#[derive(Drop)]
pub enum Done {
    /// It read the levels of a pyramid.
    Levels(Geometry),
    /// It ran a script; these pictures could not be written.
    Ran {
        report: Report,
        unwritten: Items<Unwritten>,
    },
}

/// What was done over stores, or why nothing was, and the stores in their order.
#[derive(Drop)]
pub struct Worked<S> {
    pub work: Result<Done, Stop>,
    pub stores: Vec<S>,
}

/// Reads the words and does what they ask for on one thread, over at least one store.
pub fn work<S: Store, R: Source>(
    alloc: Global,
    words: &[String],
    script: &mut R,
    stores: Vec<S>,
) -> Worked<S>
    requires some_stores { 1 ≤ vec_len stores }
    requires few_stores { vec_len stores ≤ 16 }
    ensures { (calls : List StoreCall) × ReadsAndWorks (texts words.now) (R.stream script.old) (R.stream script.new) (map S.contents stores.items) (map S.contents result.stores.items) calls result.work }
{
    match request_of(alloc, words) {
        Ok(request) => work_for(alloc, request, script, stores),
        Err(_) => stopped(Stop::Memory, stores),
    }
}

/// Does what is asked for. On one thread `run` and `demo` ask for nothing.
fn work_for<S: Store, R: Source>(
    alloc: Global,
    request: Option<Request>,
    script: &mut R,
    stores: Vec<S>,
) -> Worked<S>
    requires some_stores { 1 ≤ vec_len stores }
    requires few_stores { vec_len stores ≤ 16 }
    ensures { (calls : List StoreCall) × Works (Ok request.entry) (R.stream script.old) (R.stream script.new) (map S.contents stores.items) (map S.contents result.stores.items) calls result.work }
{
    match request {
        Some(Request::Info { root }) => inform(alloc, root.text(), stores),
        Some(Request::Solo { slots, .. }) => run_script(alloc, slots, script, stores),
        Some(Request::Run { .. } | Request::Demo { .. }) | None => stopped(Stop::Usage, stores),
    }
}

/// Reads the levels of the pyramid under a root from the first store.
fn inform<S: Store>(alloc: Global, root: &str, mut stores: Vec<S>) -> Worked<S>
    requires { 1 ≤ vec_len stores }
    ensures { (calls : List StoreCall) × Informs root.now (map S.contents stores.items) (map S.contents result.stores.items) calls result.work }
{
    let work = match open_pyramid(alloc, &mut stores[0], root) {
        Ok(geometry) => Ok(Done::Levels(geometry)),
        Err(err) => Err(Stop::Dataset(err)),
    };
    Worked { work, stores }
}

/// Nothing was done; the stores are as they were.
pub fn stopped<S>(stop: Stop, stores: Vec<S>) -> Worked<S>
    ensures work { result.work ≡ Err stop }
    ensures stores { result.stores ≡ stores }
{
    let work = Err(stop);
    Worked { work, stores }
}
