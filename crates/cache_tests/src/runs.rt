// Runs over three cells of eight voxels in two slots.

use crate::fixture::{empty, two_slots};
use arr_history::{Tally, Unsaved};
use cell_file::{AcquireErr, CellErr};
use cell_store::{Got, MemStore, Store};
use n5_block::BlockErr;
use std::alloc::Global;
use std::collections::BTreeMap;
use std::process::Abort;
use std::test::Fail;

fn tally(counts: [u64; 6]) -> Tally {
    let [hits, misses, loads, evictions, writebacks, closed] = counts;
    Tally {
        hits,
        misses,
        loads,
        evictions,
        writebacks,
        closed,
    }
}

#[test]
fn a_cell_is_evicted_and_returns(rt: HostRuntime) -> Result<(), Fail> {
    let alloc = rt.alloc();
    let mut cache = two_slots(alloc, empty(alloc, Vec::new(alloc)), &rt)?;
    assert_eq!(rt; cache.set(0, [0, 0, 0], 9), Ok(()));
    assert_eq!(rt; cache.get(0, [2, 0, 0]), Ok(0));
    assert_eq!(rt; cache.get(0, [4, 0, 0]), Ok(0));
    assert_eq!(rt; cache.get(0, [0, 0, 0]), Ok(9));
    let mut closed = cache.shut();
    assert_eq!(rt; closed.tally, tally([0, 4, 4, 2, 1, 2]));
    assert_eq!(rt; closed.unsaved.len(), 0);
    let mut bytes = Vec::new(alloc);
    let got = match closed.stores.get_mut(0) {
        Some(store) => store.get("cells/s0/0/0/0", 64, &mut bytes),
        None => Got::Missing,
    };
    assert_eq!(rt; got, Got::Found);
    let block = [
        0, 0, 0, 3, 0, 0, 0, 2, 0, 0, 0, 2, 0, 0, 0, 2, 9, 0, 0, 0, 0, 0, 0, 0,
    ];
    assert_eq!(rt; bytes.as_slice(), block.as_slice());
    Ok(())
}

#[test]
fn a_touched_cell_stays(rt: HostRuntime) -> Result<(), Fail> {
    let alloc = rt.alloc();
    let mut cache = two_slots(alloc, empty(alloc, Vec::new(alloc)), &rt)?;
    assert_eq!(rt; cache.get(0, [0, 0, 0]), Ok(0));
    assert_eq!(rt; cache.get(0, [0, 0, 0]), Ok(0));
    assert_eq!(rt; cache.get(0, [2, 0, 0]), Ok(0));
    assert_eq!(rt; cache.get(0, [4, 0, 0]), Ok(0));
    assert_eq!(rt; cache.get(0, [0, 0, 0]), Ok(0));
    assert_eq!(rt; cache.shut().tally, tally([2, 3, 3, 1, 0, 2]));
    Ok(())
}

#[test]
fn what_is_outside_or_too_large_is_refused(rt: HostRuntime) -> Result<(), Fail> {
    let alloc = rt.alloc();
    let mut cache = two_slots(alloc, empty(alloc, Vec::new(alloc)), &rt)?;
    assert_eq!(rt; cache.get(0, [6, 0, 0]), Err(CellErr::Outside));
    assert_eq!(rt; cache.get(1, [0, 0, 0]), Err(CellErr::Outside));
    assert_eq!(rt; cache.set(0, [0, 0, 0], 255), Ok(()));
    let large = CellErr::TooLarge { value: 256 };
    assert_eq!(rt; cache.set(0, [0, 0, 0], 256), Err(large));
    assert_eq!(rt; cache.shut().tally, tally([0, 1, 1, 0, 1, 1]));
    Ok(())
}

/// A cell that can't be put comes back, and is put at the end, or named.
fn with_failing_puts(
    alloc: Global,
    fail: Vec<u64>,
    want: Tally,
    rt: &impl Abort,
) -> Result<Vec<Unsaved>, Fail> {
    let mut cache = two_slots(alloc, empty(alloc, fail), rt)?;
    assert_eq!(rt; cache.set(0, [0, 0, 0], 9), Ok(()));
    assert_eq!(rt; cache.get(0, [2, 0, 0]), Ok(0));
    let fault = CellErr::Acquire(AcquireErr::WriteFault);
    assert_eq!(rt; cache.get(0, [4, 0, 0]), Err(fault));
    assert_eq!(rt; cache.get(0, [0, 0, 0]), Ok(9));
    let closed = cache.shut();
    assert_eq!(rt; closed.tally, want);
    Ok(closed.unsaved)
}

#[test]
fn a_put_fails(rt: HostRuntime) -> Result<(), Fail> {
    let alloc = rt.alloc();
    let once = with_failing_puts(alloc, vec![in alloc; 5]?, tally([1, 3, 2, 0, 1, 2]), &rt)?;
    assert_eq!(rt; once.len(), 0);
    let twice = with_failing_puts(alloc, vec![in alloc; 5, 6]?, tally([1, 3, 2, 0, 0, 1]), &rt)?;
    let unsaved = Unsaved {
        cell: 0,
        memory: false,
    };
    assert_eq!(rt; twice.as_slice(), [unsaved].as_slice());
    Ok(())
}

#[test]
fn a_get_fails(rt: HostRuntime) -> Result<(), Fail> {
    let alloc = rt.alloc();
    let mut cache = two_slots(alloc, empty(alloc, vec![in alloc; 1]?), &rt)?;
    let fault = CellErr::Acquire(AcquireErr::ReadFault);
    assert_eq!(rt; cache.get(0, [0, 0, 0]), Err(fault));
    assert_eq!(rt; cache.get(0, [0, 0, 0]), Ok(0));
    assert_eq!(rt; cache.shut().tally, tally([0, 2, 1, 0, 0, 1]));
    Ok(())
}

#[test]
fn a_block_of_the_wrong_length_is_refused(rt: HostRuntime) -> Result<(), Fail> {
    let alloc = rt.alloc();
    let short = AcquireErr::Malformed {
        edited: false,
        err: BlockErr::Short { len: 23, need: 24 },
    };
    let long = AcquireErr::TooLong {
        edited: false,
        len: 25,
        limit: 24,
    };
    for (len, refusal) in [(23, short), (25, long)] {
        let mut block = vec![in alloc; 0; len]?;
        for (i, byte) in [(3, 3), (7, 2), (11, 2), (15, 2)] {
            if let Some(at) = block.get_mut(i) {
                *at = byte;
            }
        }
        let mut held = BTreeMap::new(alloc);
        let _ = held.insert(format!(in alloc; "vol/0/0/0")?, block)?;
        let store = MemStore::new(alloc, held, Vec::new(alloc));
        let mut cache = two_slots(alloc, store, &rt)?;
        assert_eq!(rt; cache.get(0, [0, 0, 0]), Err(CellErr::Acquire(refusal)));
        assert_eq!(rt; cache.shut().tally, tally([0, 1, 0, 0, 0, 0]));
    }
    Ok(())
}
