// Gets and sets by several actors in two phases, and slots that are too few for them.
use crate::fixture::{Case, RUN, Text, expect};
use std::test::Fail;

/// Two actors set a voxel each of the first of eight cells and get one of every other; then each gets what the other one set.
pub(crate) const TWO_PHASES: &str =
    "raw vol uint8 16 2 2 2 2 2\nphase\nactor\nset 0 0 0 0 1\nget 0 2 0 0\nget 0 4 0 0\nget 0 6 0 0\nget 0 8 0 0\nget 0 10 0 0\nget 0 12 0 0\nget 0 14 0 0\nactor\nset 0 1 0 0 2\nget 0 2 0 0\nget 0 4 0 0\nget 0 6 0 0\nget 0 8 0 0\nget 0 10 0 0\nget 0 12 0 0\nget 0 14 0 0\nphase\nactor\nget 0 1 0 0\nactor\nget 0 0 0 0\n";

/// The replies of these phases, and the beginning of their counts.
const REPLIES: &str =
    "0.0.0 done\n0.0.1 value 0\n0.0.2 value 0\n0.0.3 value 0\n0.0.4 value 0\n0.0.5 value 0\n0.0.6 value 0\n0.0.7 value 0\n0.1.0 done\n0.1.1 value 0\n0.1.2 value 0\n0.1.3 value 0\n0.1.4 value 0\n0.1.5 value 0\n0.1.6 value 0\n0.1.7 value 0\n1.0.0 value 2\n1.1.0 value 1\ntally hits ";

/// The block of the cell that both actors edited.
const EDITED: &[u8] = &[
    0, 0, 0, 3, 0, 0, 0, 2, 0, 0, 0, 2, 0, 0, 0, 2, 1, 2, 0, 0, 0, 0, 0, 0,
];

#[test]
fn two_actors_edit_a_cell_in_two_phases(rt: HostRuntime) -> Result<(), Fail> {
    let cases = [
        Case {
            shows: "five slots for eight cells",
            script: TWO_PHASES,
            text: Text::Open {
                begins: REPLIES,
                ends: "\n",
            },
            left: &[("cells/s0/0/0/0", EDITED)],
            ..RUN
        },
        Case {
            shows: "a slot for each cell, of which none leaves before the end",
            words: &["run", "s", "--slots", "16", "--fetchers", "0"],
            script: TWO_PHASES,
            text: Text::Open {
                begins: REPLIES,
                ends: " loads 8 evictions 0 writebacks 1 closed 8\n",
            },
            left: &[("cells/s0/0/0/0", EDITED)],
            ..RUN
        },
    ];
    for case in cases {
        expect(&rt, rt.alloc(), &case)?;
    }
    Ok(())
}

/// Two actors beside a fetcher, which work where there are six slots.
const BESIDE: Case = Case {
    script: "raw vol uint8 6 2 2 2 2 2\nphase\nactor\nget 0 0 0 0\nactor\nget 0 0 0 0\n",
    words: &["run", "s", "--slots", "6", "--fetchers", "1"],
    text: Text::Open {
        begins: "0.0.0 value 0\n0.1.0 value 0\ntally hits ",
        ends: " loads 1 evictions 0 writebacks 0 closed 1\n",
    },
    ..RUN
};

#[test]
fn each_actor_and_fetcher_needs_slots(rt: HostRuntime) -> Result<(), Fail> {
    let cases = [
        Case {
            shows: "five slots are too few",
            words: &["run", "s", "--slots", "5", "--fetchers", "1"],
            status: 9,
            text: Text::Whole("slots 5 outside 6 to 4096\n"),
            ..BESIDE
        },
        Case {
            shows: "six slots are enough",
            ..BESIDE
        },
    ];
    for case in cases {
        expect(&rt, rt.alloc(), &case)?;
    }
    Ok(())
}
