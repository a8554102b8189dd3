// The demonstration: its line, which a number decides, and a pyramid that can't be put.
use crate::fixture::{Text, end_of, expect_text, store_of};
use std::alloc::Global;
use std::process::Abort;
use std::sync::Wait;
use std::test::Fail;
use std::thread::Threads;
use team_actors::OpenGate;

/// Numbers and their lines. The sums were computed apart from any cache.
const LINES: [(&str, &str); 4] = [
    (
        "0",
        "demo 0 cells 1152 edits 1024 complete 4 sum 133205634\n",
    ),
    (
        "1",
        "demo 1 cells 1152 edits 1024 complete 4 sum 133231600\n",
    ),
    (
        "007",
        "demo 7 cells 1152 edits 1024 complete 4 sum 133130260\n",
    ),
    (
        "18446744073709551615",
        "demo 18446744073709551615 cells 1152 edits 1024 complete 4 sum 133170152\n",
    ),
];

/// Runs the demonstration of a number over an empty store, and compares its line. The store then holds the pyramid's 1,155 keys, the
/// edited cells and four pictures.
fn expect_line<R: Abort + Threads + Wait + Sync>(
    rt: &R,
    alloc: Global,
    number: &str,
    line: &str,
) -> Result<(), Fail> {
    let store = store_of(alloc, &[], &[])?;
    let end = end_of(rt, alloc, &["demo", number], "", store, &OpenGate)?;
    expect_text(rt, &end.out, Text::Whole(line), number)?;
    assert_eq!(rt; end.status, 0, "{number}");
    assert!(rt; end.has_trail, "{number}");
    for name in [
        "views/demo0.pgm",
        "views/demo1.pgm",
        "views/demo2.pgm",
        "views/demo3.pgm",
    ] {
        let picture = end.store.held().get(name).ok_or("no picture")?;
        assert_eq!(rt; picture.len(), 512 * 512 + 15, "{number}: {name}");
    }
    Ok(())
}

#[test]
fn a_number_decides_the_line(rt: HostRuntime) -> Result<(), Fail> {
    for (number, line) in LINES {
        expect_line(&rt, rt.alloc(), number, line)?;
    }
    Ok(())
}

#[test]
fn a_pyramid_that_is_not_put_is_not_run(rt: HostRuntime) -> Result<(), Fail> {
    let alloc = rt.alloc();
    for call in [1, 2, 3, 4, 1155] {
        let store = store_of(alloc, &[], &[call])?;
        let end = end_of(&rt, alloc, &["demo", "1"], "", store, &OpenGate)?;
        expect_text(
            &rt,
            &end.out,
            Text::Whole("store write-fault\n"),
            "a put fails",
        )?;
        assert_eq!(&rt; end.status, 5, "{call}");
        assert!(&rt; !end.has_trail, "{call}");
    }
    Ok(())
}
