// Views and fetches by the program, over the pyramid of two levels, with the bytes of their pictures.
use super::pyramids::PYRAMID;
use super::{Case, SOLO, expect_all};
use std::test::Fail;

/// A run over the pyramid with eight slots.
const EIGHT: Case = Case {
    words: &["solo", "s", "--slots", "8"],
    held: PYRAMID,
    ..SOLO
};

/// The finest level, of which one cell is held.
const FINE: &[u8] =
    b"P5\n4 4\n255\n\x00\x00\x05\x06\x00\x00\x07\x08\x00\x00\x00\x00\x00\x00\x00\x00";

const DARK: &[u8] =
    b"P5\n4 4\n255\n\x00\x00\x00\x00\x00\x00\x00\x00\x00\x00\x00\x00\x00\x00\x00\x00";

/// The first row of the finest level.
const ROW: &[u8] = b"P5\n4 1\n255\n\x00\x00\x05\x06";

const DARK_ROW: &[u8] = b"P5\n4 1\n255\n\x00\x00\x00\x00";

#[test]
fn blocking_views_are_complete(rt: HostRuntime) -> Result<(), Fail> {
    let cases = [
        Case {
            shows: "a blocking view is complete",
            script: "open pyr\nrange 0 255\nphase\nactor\nview a 4 4 0 blocking 1 1 0 0 0 1 0 0 0 0\n",
            text: "0.0.0 frame level 0 complete\ntally hits 4 misses 4 loads 4 evictions 0 writebacks 0 closed 4\n",
            left: &[("views/a.pgm", FINE)],
            ..EIGHT
        },
        Case {
            shows: "a view of the same step takes the finest level",
            script: "open pyr\nphase\nactor\nview a 4 4 auto blocking 1 1 0 0 0 1 0 0 0 0\n",
            text: "0.0.0 frame level 0 complete\ntally hits 4 misses 4 loads 4 evictions 0 writebacks 0 closed 4\n",
            left: &[("views/a.pgm", FINE)],
            ..EIGHT
        },
        Case {
            shows: "a view of twice the step takes the coarser level",
            script: "open pyr\nrange 0 255\nphase\nactor\nview z 2 2 auto blocking 1 2 0 0 0 2 0 0 0 0\n",
            text: "0.0.0 frame level 1 complete\ntally hits 0 misses 1 loads 1 evictions 0 writebacks 0 closed 1\n",
            left: &[("views/z.pgm", b"P5\n2 2\n255\n\x0b\x0c\x0d\x0e")],
            ..EIGHT
        },
    ];
    expect_all(&rt, rt.alloc(), &cases)
}

#[test]
fn a_budgeted_view_loads_so_many_cells(rt: HostRuntime) -> Result<(), Fail> {
    let cases = [
        Case {
            shows: "a budget of one loads one cell",
            script: "open pyr\nrange 0 255\nphase\nactor\nview c 4 1 0 budgeted 1 1 1 0 0 0 1 0 0 0 0\n",
            text: "0.0.0 frame level 0 partial 2\ntally hits 0 misses 3 loads 1 evictions 0 writebacks 0 closed 1\n",
            left: &[("views/c.pgm", DARK_ROW)],
            ..EIGHT
        },
        Case {
            shows: "a budget of two loads two",
            script: "open pyr\nrange 0 255\nphase\nactor\nview c 4 1 0 budgeted 2 1 1 0 0 0 1 0 0 0 0\n",
            text: "0.0.0 frame level 0 complete\ntally hits 0 misses 2 loads 2 evictions 0 writebacks 0 closed 2\n",
            left: &[("views/c.pgm", ROW)],
            ..EIGHT
        },
        Case {
            shows: "a budget of none asks for what a fetch loads",
            script: "open pyr\nrange 0 255\nphase\nactor\nview a 4 1 0 budgeted 0 1 1 0 0 0 1 0 0 0 0\nfetch 2\n",
            text: "0.0.0 frame level 0 partial 4\n0.0.1 fetched 2 held 0 refused 0\ntally hits 0 misses 5 loads 2 evictions 0 writebacks 0 closed 2\n",
            left: &[("views/a.pgm", DARK_ROW)],
            ..EIGHT
        },
    ];
    expect_all(&rt, rt.alloc(), &cases)
}

#[test]
fn views_show_what_is_there(rt: HostRuntime) -> Result<(), Fail> {
    let cases = [
        Case {
            shows: "a volatile view asks for what a fetch loads",
            script: "open pyr\nrange 0 255\nphase\nactor\nview a 4 4 0 volatile 1 1 0 0 0 1 0 0 0 0\nfetch 10\nview b 4 4 0 volatile 1 1 0 0 0 1 0 0 0 0\n",
            text: "0.0.0 frame level 0 partial 16\n0.0.1 fetched 5 held 0 refused 0\n0.0.2 frame level 0 complete\ntally hits 8 misses 14 loads 5 evictions 0 writebacks 0 closed 5\n",
            left: &[("views/a.pgm", DARK), ("views/b.pgm", FINE)],
            ..EIGHT
        },
        Case {
            shows: "a coarse cell is shown where the fine ones are not there",
            script: "open pyr\nrange 0 255\nphase\nactor\nview a 4 1 0 volatile 1 1 0 0 0 1 0 0 0 0\nfetch 1\nview d 4 1 0 dontload 1 1 0 0 0 1 0 0 0 0\n",
            text: "0.0.0 frame level 0 partial 4\n0.0.1 fetched 1 held 0 refused 0\n0.0.2 frame level 0 partial 4\ntally hits 2 misses 6 loads 1 evictions 0 writebacks 0 closed 1\n",
            left: &[
                ("views/a.pgm", DARK_ROW),
                ("views/d.pgm", b"P5\n4 1\n255\n\x0b\x0b\x0c\x0c"),
            ],
            ..EIGHT
        },
        Case {
            shows: "a view that loads nothing asks for nothing",
            script: "open pyr\nrange 0 255\nphase\nactor\nview e 4 1 0 dontload 1 1 0 0 0 1 0 0 0 0\nfetch 10\n",
            text: "0.0.0 frame level 0 partial 4\n0.0.1 fetched 0 held 0 refused 0\ntally hits 0 misses 3 loads 0 evictions 0 writebacks 0 closed 0\n",
            left: &[("views/e.pgm", DARK_ROW)],
            ..EIGHT
        },
    ];
    expect_all(&rt, rt.alloc(), &cases)
}

#[test]
fn a_refused_view_leaves_no_file_and_a_failed_put_is_told(rt: HostRuntime) -> Result<(), Fail> {
    let cases = [
        Case {
            shows: "a refused view leaves no file",
            script: "raw vol uint8 6 2 2 2 2 2\nphase\nactor\nview a 1 1 1 blocking 1 1 0 0 0 1 0 0 0 0\n",
            status: 1,
            text: "0.0.0 refused outside\ntally hits 0 misses 0 loads 0 evictions 0 writebacks 0 closed 0\n",
            ..SOLO
        },
        Case {
            shows: "a refused view's key holds what it held",
            script: "raw vol uint8 6 2 2 2 2 2\nphase\nactor\nview a 1 1 1 blocking 1 1 0 0 0 1 0 0 0 0\n",
            held: &[("views/a.pgm", b"old")],
            status: 1,
            text: "0.0.0 refused outside\ntally hits 0 misses 0 loads 0 evictions 0 writebacks 0 closed 0\n",
            ..SOLO
        },
        Case {
            shows: "a failed put is told",
            script: "raw vol uint8 6 2 2 2 2 2\nphase\nactor\nview a 1 1 0 dontload 1 1 0 0 0 1 0 0 0 0\n",
            fail: &[1],
            status: 5,
            text: "0.0.0 frame level 0 partial 1\ntally hits 0 misses 1 loads 0 evictions 0 writebacks 0 closed 0\nunwritten a write-fault\n",
            left: &[("views/a.pgm", b"P5\n1 1")],
            ..SOLO
        },
    ];
    expect_all(&rt, rt.alloc(), &cases)
}
