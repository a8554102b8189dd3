// A call by threads over one store, and what is compared of its end.
use cell_store::{MemSink, MemSource, MemStore, Store};
use std::alloc::{AllocError, Global};
use std::collections::BTreeMap;
use std::process::Abort;
use std::sync::Wait;
use std::test::Fail;
use std::thread::Threads;
use team_actors::{Gate, OpenGate};
use thread_calls::{ThreadEnded, viewrun};

/// Keys with what is held under them.
pub(crate) type Files<'a> = &'a [(&'a str, &'a [u8])];

/// The text of a call.
#[derive(Clone, Copy)]
pub(crate) enum Text<'a> {
    /// All of it.
    Whole(&'a str),
    /// How it begins and ends. Between stands a part of one line, which depends on the order of the threads' steps.
    Open { begins: &'a str, ends: &'a str },
}

/// A call over one store, and how it ends in every order of its threads' steps.
#[derive(Clone, Copy)]
pub(crate) struct Case<'a> {
    /// What this call shows.
    pub(crate) shows: &'a str,
    pub(crate) words: &'a [&'a str],
    pub(crate) script: &'a str,
    /// What its store holds before.
    pub(crate) held: Files<'a>,
    pub(crate) status: u8,
    pub(crate) text: Text<'a>,
    /// What its store holds then, besides what it held before.
    pub(crate) left: Files<'a>,
}

/// What the cases have in common: a run with five slots and no fetchers over an empty store, which works.
pub(crate) const RUN: Case = Case {
    shows: "",
    words: &["run", "s", "--slots", "5", "--fetchers", "0"],
    script: "",
    held: &[],
    status: 0,
    text: Text::Whole(""),
    left: &[],
};

/// How a call over one store ended.
#[derive(Drop)]
pub(crate) struct End<S> {
    pub(crate) status: u8,
    pub(crate) out: MemSink,
    pub(crate) store: S,
    /// Whether a trail came back.
    pub(crate) has_trail: bool,
}

fn words_of(alloc: Global, words: &[&str]) -> Result<Vec<String>, AllocError> {
    let mut list = Vec::new(alloc);
    for word in words {
        list.push(String::from_str(alloc, word)?)?;
    }
    Ok(list)
}

/// A store that holds these files, whose calls of these numbers fail.
pub(crate) fn store_of(alloc: Global, held: Files, fail: &[u64]) -> Result<MemStore, AllocError> {
    let mut keys = BTreeMap::new(alloc);
    for (key, bytes) in held {
        keys.insert(
            String::from_str(alloc, key)?,
            Vec::from_slice(alloc, bytes)?,
        )?;
    }
    Ok(MemStore::new(alloc, keys, Vec::from_slice(alloc, fail)?))
}

/// Makes a call over one store.
pub(crate) fn end_of<S: Store + Send + Drop, R: Threads + Wait + Sync, G: Gate>(
    rt: &R,
    alloc: Global,
    words: &[&str],
    script: &str,
    store: S,
    gate: &G,
) -> Result<End<S>, Fail> {
    let words = words_of(alloc, words)?;
    let script = Vec::from_slice(alloc, script.as_bytes())?;
    let mut source = MemSource::new(script, 4000, Vec::new(alloc));
    let mut out = MemSink::new(alloc, 100, Vec::new(alloc));
    let mut stores = Vec::new(alloc);
    stores.push(store).ok().ok_or("no memory for a store")?;
    let ended = viewrun(
        rt,
        alloc,
        words.as_slice(),
        &mut source,
        stores,
        &mut out,
        gate,
    );
    let ThreadEnded {
        status,
        mut stores,
        trail,
    } = ended;
    let store = stores.pop().ok_or("no store")?;
    let has_trail = trail.is_some();
    Ok(End {
        status,
        out,
        store,
        has_trail,
    })
}

/// Whether a text is the one that is wanted.
fn is_text(text: &str, wanted: Text) -> bool {
    match wanted {
        Text::Whole(whole) => text == whole,
        Text::Open { begins, ends } => match text.strip_prefix(begins) {
            Some(rest) => is_line_end(rest, ends),
            None => false,
        },
    }
}

/// Whether a text is some part of one line, and then this end.
fn is_line_end(text: &str, ends: &str) -> bool {
    match text.strip_suffix(ends) {
        Some(part) => !part.contains('\n'),
        None => false,
    }
}

/// Compares a text.
pub(crate) fn expect_text(
    rt: &impl Abort,
    out: &MemSink,
    wanted: Text,
    shows: &str,
) -> Result<(), Fail> {
    let text = str::from_utf8(out.bytes())?;
    assert!(rt; is_text(text, wanted), "{shows}:\n{text}");
    Ok(())
}

/// Compares files of a store.
fn expect_files(rt: &impl Abort, store: &MemStore, files: Files, shows: &str) -> Result<(), Fail> {
    for (key, bytes) in files {
        let file = store.held().get(*key).ok_or("no file")?;
        assert!(rt; file.as_slice() == *bytes, "{shows}: {key}");
    }
    Ok(())
}

/// Makes a call over an own store, and compares its end. A trail comes back exactly where a script was run.
pub(crate) fn expect<R: Abort + Threads + Wait + Sync>(
    rt: &R,
    alloc: Global,
    case: &Case,
) -> Result<(), Fail> {
    let shows = case.shows;
    let store = store_of(alloc, case.held, &[])?;
    let end = end_of(rt, alloc, case.words, case.script, store, &OpenGate)?;
    expect_text(rt, &end.out, case.text, shows)?;
    assert_eq!(rt; end.status, case.status, "{shows}");
    assert_eq!(rt; end.has_trail, case.status < 2, "{shows}");
    expect_files(rt, &end.store, case.held, shows)?;
    expect_files(rt, &end.store, case.left, shows)?;
    let more = end.store.held().len().checked_sub(case.held.len());
    assert_eq!(rt; more, Some(case.left.len()), "{shows}");
    Ok(())
}
