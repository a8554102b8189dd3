// Pyramids: what is told of one, what is read of it, and why one is refused.
use super::{Case, Files, SOLO, TWO_SLOTS, expect_all};
use std::test::Fail;

const SETUP: &[u8] = b"{\"downsamplingFactors\":[[1,1,1],[2,2,1]]}";

const LEVEL_0: &[u8] =
    b"{\"dimensions\":[4,4,1],\"blockSize\":[2,2,1],\"dataType\":\"uint8\",\"compression\":{\"type\":\"raw\"}}";

const LEVEL_0_GZIP: &[u8] =
    b"{\"dimensions\":[4,4,1],\"blockSize\":[2,2,1],\"dataType\":\"uint8\",\"compression\":{\"type\":\"gzip\"}}";

const LEVEL_1: &[u8] =
    b"{\"dimensions\":[2,2,1],\"blockSize\":[2,2,1],\"dataType\":\"uint8\",\"compression\":{\"type\":\"raw\"}}";

/// A pyramid of two levels, of 4 x 4 x 1 and of 2 x 2 x 1 bytes, of which two blocks are held.
pub(super) const PYRAMID: Files = &[
    ("pyr/setup0/attributes.json", SETUP),
    ("pyr/setup0/timepoint0/s0/attributes.json", LEVEL_0),
    ("pyr/setup0/timepoint0/s1/attributes.json", LEVEL_1),
    (
        "pyr/setup0/timepoint0/s0/1/0/0",
        &[0, 0, 0, 3, 0, 0, 0, 2, 0, 0, 0, 2, 0, 0, 0, 1, 5, 6, 7, 8],
    ),
    (
        "pyr/setup0/timepoint0/s1/0/0/0",
        &[
            0, 0, 0, 3, 0, 0, 0, 2, 0, 0, 0, 2, 0, 0, 0, 1, 11, 12, 13, 14,
        ],
    ),
];

const COMPRESSED: Files = &[
    ("pyr/setup0/attributes.json", SETUP),
    ("pyr/setup0/timepoint0/s0/attributes.json", LEVEL_0_GZIP),
    ("pyr/setup0/timepoint0/s1/attributes.json", LEVEL_1),
];

const INFO: &[&str] = &["info", "pyr"];

const GET: &str = "open pyr\nphase\nactor\nget 1 1 0 0\n";

#[test]
fn a_pyramid_is_told_and_read(rt: HostRuntime) -> Result<(), Fail> {
    let cases = [
        Case {
            shows: "the levels of a pyramid are told",
            words: INFO,
            held: PYRAMID,
            text: "levels 2 cells 5\nlevel 0 kind uint8 size 4 4 1 cell 2 2 1 factor 1 1 1 cells 4\nlevel 1 kind uint8 size 2 2 1 cell 2 2 1 factor 2 2 1 cells 1\n",
            ..SOLO
        },
        Case {
            shows: "a voxel of the coarser level is read",
            words: &["solo", "s", "--slots", "8"],
            script: GET,
            held: PYRAMID,
            text: "0.0.0 value 12\ntally hits 0 misses 1 loads 1 evictions 0 writebacks 0 closed 1\n",
            ..SOLO
        },
    ];
    expect_all(&rt, rt.alloc(), &cases)
}

/// Volumes that aren't opened, by a run and by `info`: the words, the script, what the store holds, which of its calls fail, the status and
/// the text.
const REFUSED: [(&[&str], &str, Files, &[u64], u8, &str); 7] = [
    (
        TWO_SLOTS,
        GET,
        COMPRESSED,
        &[],
        4,
        "dataset level 0 compressed\n",
    ),
    (INFO, "", COMPRESSED, &[], 4, "dataset level 0 compressed\n"),
    (TWO_SLOTS, GET, &[], &[], 4, "dataset setup no-attributes\n"),
    (INFO, "", &[], &[], 4, "dataset setup no-attributes\n"),
    (
        TWO_SLOTS,
        "raw vol uint8 0 2 2 2 2 2\n",
        &[],
        &[],
        4,
        "dataset grid zero-side 0\n",
    ),
    (TWO_SLOTS, GET, PYRAMID, &[2], 5, "store read-fault\n"),
    (INFO, "", PYRAMID, &[2], 5, "store read-fault\n"),
];

#[test]
fn a_volume_is_refused_and_a_store_fails_at_opening(rt: HostRuntime) -> Result<(), Fail> {
    for (words, script, held, fail, status, text) in REFUSED {
        let case = Case {
            shows: text,
            words,
            script,
            held,
            fail,
            status,
            text,
            ..SOLO
        };
        expect_all(&rt, rt.alloc(), &[case])?;
    }
    Ok(())
}
