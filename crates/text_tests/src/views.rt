// Worked examples of views and fetches in scripts.

use crate::scripts::{refused, refused_after};
use scale_pick::Strategy;
use std::test::Fail;
use view_script::{Command, ScriptKind, read_script};

/// The lines before the first command.
const HEAD: &[u8] = b"raw vol uint8 6 2 2 2 2 2\nphase\nactor\n";

#[test]
fn rules_of_a_view_up_to_its_strategy(rt: HostRuntime) {
    let alloc = rt.alloc();
    for (line, kind) in [
        ("view", ScriptKind::MissingWord),
        (
            "view A 4 4 0 blocking 1 1 0 0 0 1 0 0 0 0",
            ScriptKind::Limit,
        ),
        (
            "view a23456789_123456789_123456789_123 4 4 0 blocking 1 1 0 0 0 1 0 0 0 0",
            ScriptKind::Limit,
        ),
        ("view a 4 x", ScriptKind::BadNumber),
        (
            "view a 0 4 0 blocking 1 1 0 0 0 1 0 0 0 0",
            ScriptKind::Limit,
        ),
        (
            "view a 4 4097 0 blocking 1 1 0 0 0 1 0 0 0 0",
            ScriptKind::Limit,
        ),
        ("view a 4 4 best", ScriptKind::UnknownWord),
        ("view a 4 4 8", ScriptKind::Limit),
        ("view a 4 4 auto lazy", ScriptKind::UnknownWord),
        ("view a 4 4 auto budgeted", ScriptKind::MissingWord),
        ("view a 4 4 auto budgeted blocking", ScriptKind::BadNumber),
        ("view a 4 4 auto budgeted 1048577", ScriptKind::Limit),
    ] {
        assert_eq!(rt; refused_after(alloc, HEAD, line), Some((4, kind)), "{line}");
    }
}

#[test]
fn rules_of_a_matrix(rt: HostRuntime) {
    let alloc = rt.alloc();
    for (line, kind) in [
        (
            "view a 4 4 0 blocking 0 1 0 0 0 1 0 0 0 0",
            ScriptKind::Limit,
        ),
        (
            "view a 4 4 0 blocking 2147483649 1 0 0 0 1 0 0 0 0",
            ScriptKind::Limit,
        ),
        ("view a 4 4 0 blocking 1 --1", ScriptKind::BadNumber),
        ("view a 4 4 0 blocking 1 -", ScriptKind::BadNumber),
        ("view a 4 4 0 blocking 1 0 0 -2147483649", ScriptKind::Limit),
        ("view a 4 4 0 blocking 1 0 0 2147483649", ScriptKind::Limit),
        (
            "view a 4 4 0 blocking 1 1 0 0 0 1 0 0 0",
            ScriptKind::MissingWord,
        ),
        (
            "view a 4 4 0 blocking 1 1 0 0 0 1 0 0 0 0 0",
            ScriptKind::ExtraWord,
        ),
    ] {
        assert_eq!(rt; refused_after(alloc, HEAD, line), Some((4, kind)), "{line}");
    }
}

#[test]
fn rules_of_a_fetch(rt: HostRuntime) {
    let alloc = rt.alloc();
    for (line, kind) in [
        ("fetch", ScriptKind::MissingWord),
        ("fetch -1", ScriptKind::BadNumber),
        ("fetch 262145", ScriptKind::Limit),
        ("fetch 1 2", ScriptKind::ExtraWord),
    ] {
        assert_eq!(rt; refused_after(alloc, HEAD, line), Some((4, kind)), "{line}");
    }
}

#[test]
fn greatest_words(rt: HostRuntime) {
    let alloc = rt.alloc();
    for line in [
        "view a 4096 1 7 budgeted 1048576 2147483648 -2147483648 2147483648 -0 0 1 0 0 0 0",
        "view abcdefghijklmnopqrstuvwxyz_01234 1 4096 auto volatile 1 1 0 0 0 1 0 0 0 0",
        "fetch 262144",
    ] {
        assert_eq!(rt; refused_after(alloc, HEAD, line), None, "{line}");
    }
}

#[test]
fn views_have_names_and_room(rt: HostRuntime) {
    let alloc = rt.alloc();
    let before =
        b"open v\nphase\nactor\nview a 4096 4096 0 blocking 1 1 0 0 0 1 0 0 0 0\nview b 4096 4096 0 dontload 1 1 0 0 0 1 0 0 0 0\nactor\nview c 4096 4096 0 volatile 1 1 0 0 0 1 0 0 0 0\nphase\nactor\n";
    for (lines, want) in [
        (
            "view a 1 1 0 blocking 1 1 0 0 0 1 0 0 0 0",
            Some((10, ScriptKind::Order)),
        ),
        ("view d 4096 4096 0 blocking 1 1 0 0 0 1 0 0 0 0", None),
        (
            "view d 4096 4096 0 blocking 1 1 0 0 0 1 0 0 0 0\nview a 1 1 0 blocking 1 1 0 0 0 1 0 0 0 0",
            Some((11, ScriptKind::Limit)),
        ),
    ] {
        assert_eq!(rt; refused_after(alloc, before, lines), want, "{lines}");
    }
    assert_eq!(rt;
        refused(
            alloc,
            b"open v\nphase\nview a 1 1 0 blocking 1 1 0 0 0 1 0 0 0 0"
        ),
        Some((3, ScriptKind::Order))
    );
}

#[test]
fn reads_what_a_view_says(rt: HostRuntime) -> Result<(), Fail> {
    let text =
        b"open v\nrange 5 600\nphase\nactor\nview z_1 2 3 6 budgeted 7 4 1 -2 3 -4 5 -6 7 8 -9\nfetch 12";
    let script = read_script(rt.alloc(), text)?;
    let phase = script.phases.last().expect(&rt, "a phase");
    let commands = phase.last().expect(&rt, "an actor");
    assert_eq!(rt; commands.len(), 2);
    match commands.as_slice().first() {
        Some(Command::View { name, view }) => {
            assert_eq!(rt; name.text().as_str(), "z_1");
            assert_eq!(rt; [view.width, view.height], [2, 3]);
            assert_eq!(rt; view.level, Some(6));
            assert_eq!(rt; view.strategy, Strategy::Budgeted(7));
            assert_eq!(rt; [view.low, view.high], [5, 600]);
            assert_eq!(rt; view.affine.q(), 4);
            assert_eq!(rt; view.affine.at(0, 0), [3, -6, -9]);
            assert_eq!(rt; view.affine.at(1, 10), [-16, 40, 78]);
        }
        _ => assert!(rt; false),
    }
    assert!(rt; matches!(commands.last(), Some(Command::Fetch { count: 12 })));
    Ok(())
}

#[test]
fn a_view_without_a_range_shows_bytes(rt: HostRuntime) -> Result<(), Fail> {
    let text = b"open v\nphase\nactor\nview a 1 1 auto blocking 1 1 0 0 0 1 0 0 0 0";
    let script = read_script(rt.alloc(), text)?;
    let phase = script.phases.last().expect(&rt, "a phase");
    let commands = phase.last().expect(&rt, "an actor");
    match commands.last() {
        Some(Command::View { view, .. }) => {
            assert_eq!(rt; view.level, None);
            assert_eq!(rt; [view.low, view.high], [0, 255]);
        }
        _ => assert!(rt; false),
    }
    Ok(())
}
