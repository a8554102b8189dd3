// Views by threads.
use crate::fixture::{Case, Files, RUN, Text, expect};
use std::test::Fail;

/// A pyramid of two levels, of 4 x 4 x 1 and of 2 x 2 x 1 bytes, of which two blocks are held.
pub(crate) const PYRAMID: Files = &[
    (
        "pyr/setup0/attributes.json",
        b"{\"downsamplingFactors\":[[1,1,1],[2,2,1]]}",
    ),
    (
        "pyr/setup0/timepoint0/s0/attributes.json",
        b"{\"dimensions\":[4,4,1],\"blockSize\":[2,2,1],\"dataType\":\"uint8\",\"compression\":{\"type\":\"raw\"}}",
    ),
    (
        "pyr/setup0/timepoint0/s1/attributes.json",
        b"{\"dimensions\":[2,2,1],\"blockSize\":[2,2,1],\"dataType\":\"uint8\",\"compression\":{\"type\":\"raw\"}}",
    ),
    (
        "pyr/setup0/timepoint0/s0/1/0/0",
        &[0, 0, 0, 3, 0, 0, 0, 2, 0, 0, 0, 2, 0, 0, 0, 1, 5, 6, 7, 8],
    ),
    (
        "pyr/setup0/timepoint0/s1/0/0/0",
        &[
            0, 0, 0, 3, 0, 0, 0, 2, 0, 0, 0, 2, 0, 0, 0, 1, 11, 12, 13, 14,
        ],
    ),
];

/// The finest level, of which nothing is there.
const DARK: &[u8] =
    b"P5\n4 4\n255\n\x00\x00\x00\x00\x00\x00\x00\x00\x00\x00\x00\x00\x00\x00\x00\x00";

/// The finest level, of which one cell is held.
const FINE: &[u8] =
    b"P5\n4 4\n255\n\x00\x00\x05\x06\x00\x00\x07\x08\x00\x00\x00\x00\x00\x00\x00\x00";

#[test]
fn one_actor_works_as_alone(rt: HostRuntime) -> Result<(), Fail> {
    let case = Case {
        shows: "a volatile view asks for what a fetch loads",
        words: &["run", "s", "--slots", "8", "--fetchers", "0"],
        script: "open pyr\nrange 0 255\nphase\nactor\nview a 4 4 0 volatile 1 1 0 0 0 1 0 0 0 0\nfetch 10\nview b 4 4 0 volatile 1 1 0 0 0 1 0 0 0 0\n",
        held: PYRAMID,
        text: Text::Whole(
            "0.0.0 frame level 0 partial 16\n0.0.1 fetched 5 held 0 refused 0\n0.0.2 frame level 0 complete\ntally hits 8 misses 14 loads 5 evictions 0 writebacks 0 closed 5\n",
        ),
        left: &[("views/a.pgm", DARK), ("views/b.pgm", FINE)],
        ..RUN
    };
    expect(&rt, rt.alloc(), &case)
}

/// A level of 2048 cells, none of which is held.
const LARGE: Files = &[
    (
        "big/setup0/attributes.json",
        b"{\"downsamplingFactors\":[[1,1,1]]}",
    ),
    (
        "big/setup0/timepoint0/s0/attributes.json",
        b"{\"dimensions\":[1024,1024,512],\"blockSize\":[64,64,64],\"dataType\":\"uint16\",\"compression\":{\"type\":\"raw\"}}",
    ),
];

/// Both views show the same 64 cells, for which there are 64 slots.
#[test]
fn two_actors_view_a_large_volume(rt: HostRuntime) -> Result<(), Fail> {
    let mut picture = Vec::from_slice(rt.alloc(), b"P5\n512 512\n255\n")?;
    picture.resize(15 + 512 * 512, 0)?;
    let case = Case {
        shows: "two views of a large volume",
        words: &["run", "s", "--slots", "64", "--fetchers", "0"],
        script: "open big\nphase\nactor\nview a 512 512 0 blocking 1 1 0 0 0 1 0 0 0 0\nactor\nview b 512 512 0 blocking 1 1 0 0 0 1 0 0 0 0\n",
        held: LARGE,
        text: Text::Open {
            begins: "0.0.0 frame level 0 complete\n0.1.0 frame level 0 complete\ntally hits ",
            ends: " loads 64 evictions 0 writebacks 0 closed 64\n",
        },
        left: &[
            ("views/a.pgm", picture.as_slice()),
            ("views/b.pgm", picture.as_slice()),
        ],
        ..RUN
    };
    expect(&rt, rt.alloc(), &case)
}
