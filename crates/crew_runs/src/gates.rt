// Actors that are held or watched by a gate, over a store that counts its calls.
use crate::fixture::{End, Text, end_of, expect_text, store_of};
use crate::views::PYRAMID;
use cell_store::{Got, MemStore, Put, Store};
use std::sync::atomic::{AtomicBool, AtomicU64, Ordering};
use std::test::Fail;
use std::thread::yield_now;
use team_actors::Gate;

/// How many turns a gate waits at most.
const TURNS: u32 = 10_000_000;

/// Waits until a word is at least some number, and tells whether it was.
fn reaches(word: &AtomicU64, least: u64) -> bool {
    for _ in 0..TURNS {
        if word.load(Ordering::SeqCst) >= least {
            return true;
        }
        yield_now();
    }
    false
}

/// Holds the first call of actor 0 until the second call of actor 1 is answered.
#[derive(Drop)]
struct Overlap {
    answered: AtomicU64,
    /// Whether it was, before the gate had waited too long.
    met: AtomicBool,
}

impl Gate for Overlap {
    fn before(&self, _phase: u32, actor: u32, call: u32) {
        if actor == 0 && call == 0 && reaches(&self.answered, 1) {
            self.met.store(true, Ordering::SeqCst);
        }
    }

    fn after(&self, _phase: u32, actor: u32, call: u32) {
        if actor == 1 && call == 1 {
            self.answered.store(1, Ordering::SeqCst);
        }
    }
}

#[test]
fn actors_work_at_the_same_time(rt: HostRuntime) -> Result<(), Fail> {
    let alloc = rt.alloc();
    let gate = Overlap {
        answered: AtomicU64::new(0),
        met: AtomicBool::new(false),
    };
    let script =
        "raw vol uint8 6 2 2 2 2 2\nphase\nactor\nget 0 0 0 0\nget 0 2 0 0\nactor\nget 0 0 0 0\nget 0 2 0 0\n";
    let text =
        "0.0.0 value 0\n0.0.1 value 0\n0.1.0 value 0\n0.1.1 value 0\ntally hits 2 misses 2 loads 2 evictions 0 writebacks 0 closed 2\n";
    let store = store_of(alloc, &[], &[])?;
    let words = &["run", "s", "--slots", "5", "--fetchers", "0"];
    let End { status, out, .. } = end_of(&rt, alloc, words, script, store, &gate)?;
    assert!(rt; gate.met.load(Ordering::SeqCst));
    expect_text(&rt, &out, Text::Whole(text), "the first actor is last")?;
    assert_eq!(rt; status, 0);
    Ok(())
}

/// A store in memory that counts its gets and its puts in words that others read.
#[derive(Drop)]
struct Counting<'a> {
    store: MemStore,
    gets: &'a AtomicU64,
    puts: &'a AtomicU64,
}

impl Store for Counting<'_> {
    ghost use Rattle.cell_store.specs.MemStore.{contents_of};

    ghost contents = { λ s. contents_of s.store };

    fn get(&mut self, key: &str, limit: u64, into: &mut Vec<u8>) -> Got {
        self.gets.fetch_add(1, Ordering::SeqCst);
        self.store.get(key, limit, into)
    }

    fn put(&mut self, key: &str, bytes: &[u8]) -> Put {
        self.puts.fetch_add(1, Ordering::SeqCst);
        self.store.put(key, bytes)
    }
}

/// Holds the second call until a store was asked for ten keys.
#[derive(Drop)]
struct Fetched<'a> {
    gets: &'a AtomicU64,
    /// Whether it was, before the gate had waited too long.
    met: AtomicBool,
}

impl Gate for Fetched<'_> {
    fn before(&self, _phase: u32, _actor: u32, call: u32) {
        if call == 1 && reaches(self.gets, 10) {
            self.met.store(true, Ordering::SeqCst);
        }
    }

    fn after(&self, _phase: u32, _actor: u32, _call: u32) {}
}

/// The attributes are three keys, and each of the five cells that the view asks for is two.
#[test]
fn a_fetcher_loads_what_a_view_asks_for(rt: HostRuntime) -> Result<(), Fail> {
    let alloc = rt.alloc();
    let gets = AtomicU64::new(0);
    let puts = AtomicU64::new(0);
    let gate = Fetched {
        gets: &gets,
        met: AtomicBool::new(false),
    };
    let script =
        "open pyr\nrange 0 255\nphase\nactor\nview a 4 4 0 volatile 1 1 0 0 0 1 0 0 0 0\nget 0 0 0 0\n";
    let store = Counting {
        store: store_of(alloc, PYRAMID, &[])?,
        gets: &gets,
        puts: &puts,
    };
    let words = &["run", "s", "--slots", "8", "--fetchers", "1"];
    let End { status, out, .. } = end_of(&rt, alloc, words, script, store, &gate)?;
    assert!(rt; gate.met.load(Ordering::SeqCst));
    let text = str::from_utf8(out.bytes())?;
    assert!(rt; text.starts_with("0.0.0 frame level 0 "), "{text}");
    assert!(rt; text.contains("\n0.0.1 value 0\ntally hits "), "{text}");
    assert_eq!(rt; status, 0, "{text}");
    Ok(())
}

/// Watches how many keys a store was asked for after each call, each of which loads a cell.
#[derive(Drop)]
struct Watching<'a> {
    gets: &'a AtomicU64,
    calls: AtomicU64,
    /// Whether there were ever more or fewer than two a call.
    is_off: AtomicBool,
}

impl Gate for Watching<'_> {
    fn before(&self, _phase: u32, _actor: u32, _call: u32) {}

    fn after(&self, _phase: u32, _actor: u32, call: u32) {
        self.calls.fetch_add(1, Ordering::SeqCst);
        if self.gets.load(Ordering::SeqCst) != 2 * (u64::from(call) + 1) {
            self.is_off.store(true, Ordering::SeqCst);
        }
    }
}

/// A cell is edited and leaves for the fourth of eight.
const EIGHT_CELLS: &str =
    "raw vol uint8 16 2 2 2 2 2\nphase\nactor\nset 0 0 0 0 1\nget 0 2 0 0\nget 0 4 0 0\nget 0 6 0 0\nget 0 8 0 0\nget 0 10 0 0\nget 0 12 0 0\nget 0 14 0 0\n";

#[test]
fn a_store_is_asked_for_what_the_calls_load(rt: HostRuntime) -> Result<(), Fail> {
    let alloc = rt.alloc();
    let gets = AtomicU64::new(0);
    let puts = AtomicU64::new(0);
    let gate = Watching {
        gets: &gets,
        calls: AtomicU64::new(0),
        is_off: AtomicBool::new(false),
    };
    let text =
        "0.0.0 done\n0.0.1 value 0\n0.0.2 value 0\n0.0.3 value 0\n0.0.4 value 0\n0.0.5 value 0\n0.0.6 value 0\n0.0.7 value 0\ntally hits 0 misses 8 loads 8 evictions 5 writebacks 1 closed 3\n";
    let store = Counting {
        store: store_of(alloc, &[], &[])?,
        gets: &gets,
        puts: &puts,
    };
    let words = &["run", "s", "--slots", "3", "--fetchers", "0"];
    let End { status, out, .. } = end_of(&rt, alloc, words, EIGHT_CELLS, store, &gate)?;
    expect_text(&rt, &out, Text::Whole(text), "eight cells in three slots")?;
    assert_eq!(rt; status, 0);
    assert_eq!(rt; gate.calls.load(Ordering::SeqCst), 8);
    assert!(rt; !gate.is_off.load(Ordering::SeqCst));
    assert_eq!(rt; gets.load(Ordering::SeqCst), 16);
    assert_eq!(rt; puts.load(Ordering::SeqCst), 1);
    Ok(())
}
