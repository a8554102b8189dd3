// What a call writes, and what it leaves in its stores, over stores in memory.
ghost use Rattle.std.specs.Prelude.{◌≤◌, vec_len};

mod faults;
mod pictures;
mod pyramids;
mod refusals;
mod reports;
mod runs;
mod sinks;
mod views;

use cell_store::{MemSink, MemSource, MemStore};
use std::alloc::{AllocError, Global};
use std::collections::BTreeMap;
use std::process::Abort;
use std::test::Fail;
use viewrun_calls::{Ended, viewrun_alone};

/// Keys with what is held under them.
type Files<'a> = &'a [(&'a str, &'a [u8])];

/// A call over one store, and how it ends.
#[derive(Clone, Copy)]
struct Case<'a> {
    /// What this call shows.
    shows: &'a str,
    words: &'a [&'a str],
    script: &'a str,
    /// What its store holds before.
    held: Files<'a>,
    /// Which calls of its store fail, counted from 1.
    fail: &'a [u64],
    status: u8,
    text: &'a str,
    /// What its store holds then, besides what it held before.
    left: Files<'a>,
}

/// The words that run a script with two slots.
const TWO_SLOTS: &[&str] = &["solo", "s", "--slots", "2"];

/// The run of a script over two slots and an empty store, which works.
const SOLO: Case = Case {
    shows: "",
    words: TWO_SLOTS,
    script: "",
    held: &[],
    fail: &[],
    status: 0,
    text: "",
    left: &[],
};

/// Three cells of 2 x 2 x 2, the first of which is edited, leaves and comes back.
const EVICTING: &str =
    "raw vol uint8 6 2 2 2 2 2\nphase\nactor\nset 0 0 0 0 9\nget 0 2 0 0\nget 0 4 0 0\nget 0 0 0 0\n";

/// The block of the edited cell.
const EDITED: &[u8] = &[
    0, 0, 0, 3, 0, 0, 0, 2, 0, 0, 0, 2, 0, 0, 0, 2, 9, 0, 0, 0, 0, 0, 0, 0,
];

fn words_of(alloc: Global, words: &[&str]) -> Result<Vec<String>, AllocError> {
    let mut list = Vec::new(alloc);
    for word in words {
        list.push(String::from_str(alloc, word)?)?;
    }
    Ok(list)
}

fn store_of(alloc: Global, held: Files, fail: &[u64]) -> Result<MemStore, AllocError> {
    let mut keys = BTreeMap::new(alloc);
    for (key, bytes) in held {
        keys.insert(
            String::from_str(alloc, key)?,
            Vec::from_slice(alloc, bytes)?,
        )?;
    }
    Ok(MemStore::new(alloc, keys, Vec::from_slice(alloc, fail)?))
}

fn source_of(alloc: Global, script: &str) -> Result<MemSource, AllocError> {
    let bytes = Vec::from_slice(alloc, script.as_bytes())?;
    Ok(MemSource::new(bytes, 4000, Vec::new(alloc)))
}

/// A sink that takes five bytes at once.
fn sink_of(alloc: Global) -> MemSink {
    MemSink::new(alloc, 5, Vec::new(alloc))
}

/// Makes a call of a case's words, and compares its text and its status. The stores come back.
fn run_over(
    rt: &impl Abort,
    alloc: Global,
    case: &Case,
    mut source: MemSource,
    mut sink: MemSink,
    stores: Vec<MemStore>,
) -> Result<Vec<MemStore>, Fail>
    requires some_stores { 1 ≤ vec_len stores }
    requires few_stores { vec_len stores ≤ 16 }
{
    let shows = case.shows;
    let words = words_of(alloc, case.words)?;
    let Ended { status, stores } = viewrun_alone(
        alloc,
        words.as_slice(),
        &mut source,
        stores,
        &mut sink,
    );
    assert_eq!(rt; sink.bytes(), case.text.as_bytes(), "{shows}");
    assert_eq!(rt; status, case.status, "{shows}");
    Ok(stores)
}

/// Compares files of a store.
fn expect_files(rt: &impl Abort, store: &MemStore, files: Files, shows: &str) -> Result<(), Fail> {
    for (key, bytes) in files {
        let file = store.held().get(*key).ok_or("no file")?;
        assert_eq!(rt; file.as_slice(), *bytes, "{shows}");
    }
    Ok(())
}

/// Compares all that a store holds with what it held and what is to be left beside it.
fn expect_left(
    rt: &impl Abort,
    store: &MemStore,
    held: Files,
    left: Files,
    shows: &str,
) -> Result<(), Fail> {
    expect_files(rt, store, held, shows)?;
    expect_files(rt, store, left, shows)?;
    let more = store.held().len().checked_sub(held.len());
    assert_eq!(rt; more, Some(left.len()), "{shows}");
    Ok(())
}

/// Makes a call over a store, and compares its end. The store comes back.
fn expect_over(
    rt: &impl Abort,
    alloc: Global,
    case: &Case,
    store: MemStore,
) -> Result<MemStore, Fail> {
    let source = source_of(alloc, case.script)?;
    let mut stores = run_over(
        rt,
        alloc,
        case,
        source,
        sink_of(alloc),
        vec![in alloc; store]?,
    )?;
    let store = stores.pop().ok_or("no store")?;
    expect_left(rt, &store, case.held, case.left, case.shows)?;
    Ok(store)
}

/// Makes each call over a store of its own, and compares its end.
fn expect_all(rt: &impl Abort, alloc: Global, cases: &[Case]) -> Result<(), Fail> {
    for case in cases {
        let store = store_of(alloc, case.held, case.fail)?;
        let _ = expect_over(rt, alloc, case, store)?;
    }
    Ok(())
}
