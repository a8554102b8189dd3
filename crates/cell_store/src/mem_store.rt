// A store in memory, some of whose calls fail.
ghost use Rattle.std.specs.Prelude.{◌≡◌, ◌≢◌, ◌⊎◌, ◌+◌, ◌-◌, ◌/◌, ◌^◌, ◌≤◌, ℕ, List, [], ◌∷◌, ◌++◌, Bool, true, false, IsTrue, OnOk, OnErr, length, min, take, if◌then◌else◌};
ghost use Rattle.cell_store.specs.Calls.{counted, fails_next};
ghost use Rattle.cell_store.specs.Held.{held_in, texts_in, entries_of};
ghost use Rattle.cell_store.specs.Store.{Entry, Gets, Puts, GetGives, KeepsTo, SameElsewhere, held_of, put_in, is_ok_get};

use crate::calls::Calls;
use crate::{Got, Logged, Put, Store};
use std::alloc::{AllocError, Global};
use std::collections::BTreeMap;

/// A store in memory, for tests. It tells what it holds and its log. Its gets and puts are counted together
/// from 1, and those of given numbers answer `Failed`.
#[derive(Drop)]
pub struct MemStore {
    held: BTreeMap<String, Vec<u8>>,
    log: Vec<Logged>,
    calls: Calls,
    alloc: Global,
}

impl MemStore {
    ghost use Rattle.cell_store.specs.MemStore.{contents_of, calls_of};

    /// A store that holds `held`, and whose calls of the numbers in `fail` answer `Failed`. It takes no memory.
    pub fn new(alloc: Global, held: BTreeMap<String, Vec<u8>>, fail: Vec<u64>) -> MemStore
        ensures contents { contents_of result ≡ record { told = true; texts = texts_in held; told_log = true; log = []; faults = 0 } }
        ensures calls { calls_of result ≡ record { failing = fail.items; made = 0; faults = 0 } }
    {
        MemStore {
            held,
            log: Vec::new(alloc),
            calls: Calls::new(fail),
            alloc,
        }
    }

    /// What it holds.
    pub fn held(&self) -> &BTreeMap<String, Vec<u8>>
        ensures { held_in result.now ≡ (held_of (contents_of self.now)) }
    {
        &self.held
    }

    /// Its gets and puts in order. A call that answered `NoMemory` may be missing.
    pub fn log(&self) -> &[Logged]
        ensures { entries_of result.now ≡ (contents_of self.now).log }
    {
        self.log.as_slice()
    }
}

impl Store for MemStore {
    ghost use Rattle.cell_store.specs.MemStore.{contents_of, calls_of};

    ghost contents = { contents_of };

    fn get(&mut self, key: &str, limit: u64, into: &mut Vec<u8>) -> Got
        ensures gets { Gets (contents_of self.old) (contents_of self.new) key.now limit result into.new.items }
        ensures counts { calls_of self.new ≡ counted (calls_of self.old) }
        ensures failed { result ≡ Got.Failed → IsTrue (fails_next (calls_of self.old)) }
        ensures fails { IsTrue (fails_next (calls_of self.old)) → (result ≡ Got.Failed) ⊎ (result ≡ Got.NoMemory) }
    {
        into.clear();
        let got = if self.calls.next_fails() {
            Got::Failed
        } else {
            copy_out(&self.held, key, limit, into)
        };
        match add_line(self.alloc, &mut self.log, false, key, is_answer(got)) {
            Ok(()) => got,
            Err(_) => {
                into.clear();
                Got::NoMemory
            }
        }
    }

    /// A put that fails leaves the first half of the bytes, rounded down, under its key.
    fn put(&mut self, key: &str, bytes: &[u8]) -> Put
        ensures puts { Puts (contents_of self.old) (contents_of self.new) key.now bytes.now result }
        ensures counts { calls_of self.new ≡ counted (calls_of self.old) }
        ensures failed { result ≡ Put.Failed → IsTrue (fails_next (calls_of self.old)) }
        ensures fails { IsTrue (fails_next (calls_of self.old)) → (result ≡ Put.Failed) ⊎ (result ≡ Put.NoMemory) }
        ensures half { result ≡ Put.Failed → (other : List ℕ) → (held_of (contents_of self.new)) other ≡ put_in (held_of (contents_of self.old)) key.now (take (length bytes.now / 2) bytes.now) other }
    {
        let fails = self.calls.next_fails();
        let kept = if fails {
            &bytes[..bytes.len() / 2]
        } else {
            bytes
        };
        if insert(self.alloc, &mut self.held, key, kept).is_err() {
            return Put::NoMemory;
        }
        match add_line(self.alloc, &mut self.log, true, key, !fails) {
            Ok(()) if fails => Put::Failed,
            Ok(()) => Put::Done,
            Err(_) => Put::NoMemory,
        }
    }
}

/// Whether a get did what was asked.
fn is_answer(got: Got) -> bool
    ensures { result ≡ is_ok_get got }
{
    !matches!(got, Got::Failed | Got::NoMemory)
}

/// Copies what a key holds into an empty buffer.
#[tactic(auto, using(crate::proofs::TextLemmas::held_by_text))]
fn copy_out(held: &BTreeMap<String, Vec<u8>>, key: &str, limit: u64, into: &mut Vec<u8>) -> Got
    requires { into.old.items ≡ [] }
    ensures answer { GetGives (held_in held.now key.now) limit result into.new.items }
    ensures keeps { KeepsTo limit result into.new.items }
    ensures empty { result ≢ Got.Found → into.new.items ≡ [] }
    ensures never_failed { result ≢ Got.Failed }
{
    let Some(bytes) = held.get(key) else {
        return Got::Missing;
    };
    let len = bytes.len() as u64;
    if len > limit {
        return Got::TooLong { len };
    }
    match into.extend_from_slice(bytes.as_slice()) {
        Ok(()) => Got::Found,
        Err(_) => Got::NoMemory,
    }
}

/// Puts bytes under a key.
fn insert(
    alloc: Global,
    held: &mut BTreeMap<String, Vec<u8>>,
    key: &str,
    bytes: &[u8],
) -> Result<(), AllocError>
    ensures ok { OnOk result ((other : List ℕ) → held_in held.new other ≡ put_in (held_in held.old) key.now bytes.now other) }
    ensures err { OnErr result (SameElsewhere (held_in held.old) (held_in held.new) key.now) }
{
    let text = String::from_str(alloc, key)?;
    let copy = Vec::from_slice(alloc, bytes)?;
    held.insert(text, copy)?;
    Ok(())
}

/// Adds a line to a log.
fn add_line(
    alloc: Global,
    log: &mut Vec<Logged>,
    put: bool,
    key: &str,
    ok: bool,
) -> Result<(), AllocError>
    ensures ok { OnOk result (entries_of log.new.items ≡ entries_of log.old.items ++ record { put = put; key = key.now; ok = ok } ∷ []) }
    ensures err { OnErr result (log.new.items ≡ log.old.items) }
{
    let key = String::from_str(alloc, key)?;
    log.push(Logged { put, key, ok })?;
    Ok(())
}

#[cfg(test)]
mod tests {
    use super::*;
    use std::test::Fail;

    #[test]
    fn a_store_in_memory_fails_at_the_given_calls(rt: HostRuntime) -> Result<(), Fail> {
        let alloc = rt.alloc();
        let mut store = MemStore::new(alloc, BTreeMap::new(alloc), [2, 5].to_vec(alloc)?);
        let mut into = [9u8].to_vec(alloc)?;
        assert_eq!(rt; store.put("a", &[1, 2, 3]), Put::Done);
        assert_eq!(rt; store.put("b", &[4, 5, 6]), Put::Failed);
        assert_eq!(rt; store.get("b", 1, &mut into), Got::Found);
        assert_eq!(rt; into.as_slice(), [4].as_slice());
        assert_eq!(rt; store.get("a", 2, &mut into), Got::TooLong { len: 3 });
        assert!(rt; into.is_empty());
        assert_eq!(rt; store.get("a", 3, &mut into), Got::Failed);
        assert_eq!(rt; store.get("c", 3, &mut into), Got::Missing);
        assert_eq!(rt; store.held().len(), 2);
        let mut log = String::new(alloc);
        for line in store.log() {
            log.push(if line.put { 'p' } else { 'g' })?;
            log.push_str(line.key.as_str())?;
            log.push(if line.ok { '+' } else { '-' })?;
        }
        assert_eq!(rt; log.as_str(), "pa+pb-gb+ga+ga-gc+");
        Ok(())
    }
}
