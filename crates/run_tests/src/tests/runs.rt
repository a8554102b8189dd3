// Runs whose store and sink work.
use super::{Case, EDITED, EVICTING, SOLO, expect_all};
use std::test::Fail;

#[test]
fn commands_are_answered_and_cells_come_and_go(rt: HostRuntime) -> Result<(), Fail> {
    let cases = [
        Case {
            shows: "a run without commands counts nothing",
            script: "raw vol uint8 6 2 2 2 2 2\n",
            text: "tally hits 0 misses 0 loads 0 evictions 0 writebacks 0 closed 0\n",
            ..SOLO
        },
        // The last line has no end.
        Case {
            shows: "the second get is a hit",
            script: "raw vol uint8 6 2 2 2 2 2\nphase\nactor\nget 0 0 0 0\nget 0 0 0 0",
            text: "0.0.0 value 0\n0.0.1 value 0\ntally hits 1 misses 1 loads 1 evictions 0 writebacks 0 closed 1\n",
            ..SOLO
        },
        Case {
            shows: "a cell leaves and comes back with its edit",
            script: EVICTING,
            text: "0.0.0 done\n0.0.1 value 0\n0.0.2 value 0\n0.0.3 value 9\ntally hits 0 misses 4 loads 4 evictions 2 writebacks 1 closed 2\n",
            left: &[("cells/s0/0/0/0", EDITED)],
            ..SOLO
        },
        Case {
            shows: "a touched cell stays",
            script: "raw vol uint8 6 2 2 2 2 2\nphase\nactor\nget 0 0 0 0\nget 0 0 0 0\nget 0 2 0 0\nget 0 4 0 0\nget 0 0 0 0\n",
            text: "0.0.0 value 0\n0.0.1 value 0\n0.0.2 value 0\n0.0.3 value 0\n0.0.4 value 0\ntally hits 2 misses 3 loads 3 evictions 1 writebacks 0 closed 2\n",
            ..SOLO
        },
    ];
    expect_all(&rt, rt.alloc(), &cases)
}

/// Two gets of a voxel, over two slots.
const GETS: Case = Case {
    script: "raw vol uint8 6 2 2 2 2 2\nphase\nactor\nget 0 0 0 0\nget 0 0 0 0\n",
    text: "0.0.0 value 0\n0.0.1 value 0\ntally hits 1 misses 1 loads 1 evictions 0 writebacks 0 closed 1\n",
    ..SOLO
};

#[test]
fn options_and_the_script_stand_in_any_order(rt: HostRuntime) -> Result<(), Fail> {
    let cases = [
        Case {
            shows: "an option stands before the script, with its value behind `=`",
            words: &["solo", "--slots=2", "s"],
            ..GETS
        },
        Case {
            shows: "the script stands behind `--`",
            words: &["solo", "--slots", "2", "--", "s"],
            ..GETS
        },
    ];
    expect_all(&rt, rt.alloc(), &cases)
}

/// A get of the cell of 1 x 1 x 1 at the end of each axis, in cells of 4 x 4 x 4.
const LAST_CELL: Case = Case {
    script: "raw vol uint8 5 5 5 4 4 4\nphase\nactor\nget 0 4 4 4\n",
    text: "0.0.0 value 42\ntally hits 0 misses 1 loads 1 evictions 0 writebacks 0 closed 1\n",
    ..SOLO
};

/// A block of one voxel.
const CROPPED: &[u8] = &[0, 0, 0, 3, 0, 0, 0, 1, 0, 0, 0, 1, 0, 0, 0, 1, 42];

/// A block of 4 x 4 x 4.
const FULL: &[u8] = &[
    0, 0, 0, 3, 0, 0, 0, 4, 0, 0, 0, 4, 0, 0, 0, 4, 42, 0, 0, 0, 0, 0, 0, 0, 0, 0, 0, 0, 0, 0, 0,
    0, 0, 0, 0, 0, 0, 0, 0, 0, 0, 0, 0, 0, 0, 0, 0, 0, 0, 0, 0, 0, 0, 0, 0, 0, 0, 0, 0, 0, 0, 0, 0,
    0, 0, 0, 0, 0, 0, 0, 0, 0, 0, 0, 0, 0, 0, 0, 0, 0,
];

/// A block of 2 x 5 x 1.
const LONG: &[u8] = &[
    0, 0, 0, 3, 0, 0, 0, 2, 0, 0, 0, 5, 0, 0, 0, 1, 1, 2, 3, 4, 5, 6, 7, 8, 9, 10,
];

#[test]
fn an_end_block_may_be_cropped_or_full(rt: HostRuntime) -> Result<(), Fail> {
    let cases = [
        Case {
            shows: "a cropped block is read",
            held: &[("vol/1/1/1", CROPPED)],
            ..LAST_CELL
        },
        Case {
            shows: "a full block is read",
            held: &[("vol/1/1/1", FULL)],
            ..LAST_CELL
        },
        Case {
            shows: "a block with a side of its own is refused",
            held: &[("vol/1/1/1", LONG)],
            status: 1,
            text: "0.0.0 refused malformed base side 1 5\ntally hits 0 misses 1 loads 0 evictions 0 writebacks 0 closed 0\n",
            ..LAST_CELL
        },
    ];
    expect_all(&rt, rt.alloc(), &cases)
}
