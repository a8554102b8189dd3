// Stores that fail, blocks that are no block, and more than one store.
use super::{
    Case, EDITED, EVICTING, Files, SOLO, expect_all, expect_over, run_over, sink_of, source_of,
    store_of,
};
use std::test::Fail;

/// One get of a cell of 2 x 2 x 2.
const ONE_GET: Case = Case {
    script: "raw vol uint8 6 2 2 2 2 2\nphase\nactor\nget 0 0 0 0\n",
    status: 1,
    ..SOLO
};

/// The cell is edited, leaves and comes back.
const EDITS: Case = Case {
    script: EVICTING,
    status: 1,
    ..SOLO
};

/// The first half of a block.
const HALF: &[u8] = &[0, 0, 0, 3, 0, 0, 0, 2, 0, 0, 0, 2];

/// A block without its last byte, and one with a byte more.
const SHORT: &[u8] = &[
    0, 0, 0, 3, 0, 0, 0, 2, 0, 0, 0, 2, 0, 0, 0, 2, 1, 2, 3, 4, 5, 6, 7,
];

const LONG: &[u8] = &[
    0, 0, 0, 3, 0, 0, 0, 2, 0, 0, 0, 2, 0, 0, 0, 2, 1, 2, 3, 4, 5, 6, 7, 8, 9,
];

#[test]
fn a_call_of_the_store_that_fails_once_is_tried_again(rt: HostRuntime) -> Result<(), Fail> {
    let cases = [
        Case {
            shows: "a put that fails once is tried again",
            fail: &[5],
            text: "0.0.0 done\n0.0.1 value 0\n0.0.2 refused write-fault\n0.0.3 value 9\ntally hits 1 misses 3 loads 2 evictions 0 writebacks 1 closed 2\n",
            left: &[("cells/s0/0/0/0", EDITED)],
            ..EDITS
        },
        Case {
            shows: "a get that fails once is tried again",
            script: "raw vol uint8 6 2 2 2 2 2\nphase\nactor\nget 0 0 0 0\nget 0 0 0 0\n",
            fail: &[1],
            text: "0.0.0 refused read-fault\n0.0.1 value 0\ntally hits 0 misses 2 loads 1 evictions 0 writebacks 0 closed 1\n",
            ..ONE_GET
        },
    ];
    expect_all(&rt, rt.alloc(), &cases)
}

#[test]
fn a_cell_that_is_not_saved_is_named(rt: HostRuntime) -> Result<(), Fail> {
    let alloc = rt.alloc();
    let unsaved = Case {
        shows: "a cell that is not saved is named",
        fail: &[5, 6],
        status: 5,
        text: "0.0.0 done\n0.0.1 value 0\n0.0.2 refused write-fault\n0.0.3 value 9\ntally hits 1 misses 3 loads 2 evictions 0 writebacks 0 closed 1\nunsaved 0 write-fault\n",
        left: &[("cells/s0/0/0/0", HALF)],
        ..EDITS
    };
    let later = Case {
        shows: "half a block is refused later",
        text: "0.0.0 refused malformed edited short 12 16\ntally hits 0 misses 1 loads 0 evictions 0 writebacks 0 closed 0\n",
        left: &[("cells/s0/0/0/0", HALF)],
        ..ONE_GET
    };
    let store = store_of(alloc, unsaved.held, unsaved.fail)?;
    let store = expect_over(&rt, alloc, &unsaved, store)?;
    let _ = expect_over(&rt, alloc, &later, store)?;
    Ok(())
}

/// In turn each get of the first, second, third and fourth load fails; an empty store is asked for two keys a load.
#[test]
fn each_get_that_fails_costs_one_reply(rt: HostRuntime) -> Result<(), Fail> {
    let first =
        "0.0.0 refused read-fault\n0.0.1 value 0\n0.0.2 value 0\n0.0.3 value 0\ntally hits 0 misses 4 loads 3 evictions 1 writebacks 0 closed 2\n";
    let second =
        "0.0.0 done\n0.0.1 refused read-fault\n0.0.2 value 0\n0.0.3 value 9\ntally hits 1 misses 3 loads 2 evictions 0 writebacks 1 closed 2\n";
    let third =
        "0.0.0 done\n0.0.1 value 0\n0.0.2 refused read-fault\n0.0.3 value 9\ntally hits 0 misses 4 loads 3 evictions 1 writebacks 1 closed 2\n";
    let fourth =
        "0.0.0 done\n0.0.1 value 0\n0.0.2 value 0\n0.0.3 refused read-fault\ntally hits 0 misses 4 loads 3 evictions 2 writebacks 1 closed 1\n";
    let saved: Files = &[("cells/s0/0/0/0", EDITED)];
    let calls: [(u64, &str, Files); 7] = [
        (1, first, &[]),
        (2, first, &[]),
        (3, second, saved),
        (4, second, saved),
        (6, third, saved),
        (7, third, saved),
        (8, fourth, saved),
    ];
    for (number, text, left) in calls {
        let fail = [number];
        let case = Case {
            shows: "a get that fails",
            fail: &fail,
            text,
            left,
            ..EDITS
        };
        expect_all(&rt, rt.alloc(), &[case])?;
    }
    Ok(())
}

#[test]
fn a_bad_block_is_refused(rt: HostRuntime) -> Result<(), Fail> {
    let cases = [
        Case {
            shows: "a block that is too short is refused",
            held: &[("vol/0/0/0", SHORT)],
            text: "0.0.0 refused malformed base short 23 24\ntally hits 0 misses 1 loads 0 evictions 0 writebacks 0 closed 0\n",
            ..ONE_GET
        },
        Case {
            shows: "a block that is too long is refused",
            held: &[("vol/0/0/0", LONG)],
            text: "0.0.0 refused too-long base 25 24\ntally hits 0 misses 1 loads 0 evictions 0 writebacks 0 closed 0\n",
            ..ONE_GET
        },
    ];
    expect_all(&rt, rt.alloc(), &cases)
}

#[test]
fn each_cell_goes_to_its_store_and_the_stores_keep_their_order(
    rt: HostRuntime,
) -> Result<(), Fail> {
    let alloc = rt.alloc();
    let case = Case {
        shows: "two stores",
        script: "raw vol uint8 6 2 2 2 2 2\nphase\nactor\nset 0 0 0 0 1\nset 0 2 0 0 2\n",
        text: "0.0.0 done\n0.0.1 done\ntally hits 0 misses 2 loads 2 evictions 0 writebacks 2 closed 2\n",
        ..SOLO
    };
    let stores = vec![in alloc; store_of(alloc, &[], &[])?, store_of(alloc, &[], &[])?]?;
    let source = source_of(alloc, case.script)?;
    let mut stores = run_over(&rt, alloc, &case, source, sink_of(alloc), stores)?;
    let second = stores.pop().ok_or("no second store")?;
    assert_eq!(rt; second.held().len(), 1);
    assert!(rt; second.held().contains_key("cells/s0/1/0/0"));
    let first = stores.pop().ok_or("no first store")?;
    assert_eq!(rt; first.held().len(), 1);
    assert!(rt; first.held().contains_key("cells/s0/0/0/0"));
    assert!(rt; stores.is_empty());
    Ok(())
}
