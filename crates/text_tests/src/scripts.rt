// Worked examples of scripts: the first rule that a text breaks, and what a script says.

use cell_grid::Kind;
use std::alloc::{AllocError, Global};
use std::test::Fail;
use view_script::{Command, Head, ScriptErr, ScriptKind, read_script};

/// The first broken rule of a text and the line that breaks it, where it is no script.
pub(crate) fn refused(alloc: Global, text: &[u8]) -> Option<(u32, ScriptKind)> {
    match read_script(alloc, text) {
        Err(ScriptErr::At { line, kind }) => Some((line, kind)),
        _ => None,
    }
}

/// What a text with one more line is refused for.
pub(crate) fn refused_after(alloc: Global, head: &[u8], line: &str) -> Option<(u32, ScriptKind)> {
    let mut text = Vec::from_slice(alloc, head).ok()?;
    text.extend_from_slice(line.as_bytes()).ok()?;
    refused(alloc, text.as_slice())
}

/// A text of so many lines after two first ones.
fn repeated(alloc: Global, first: &str, line: &str, lines: usize) -> Result<String, AllocError> {
    let mut text = String::from_str(alloc, first)?;
    for _ in 0..lines {
        text.push_str(line)?;
    }
    Ok(text)
}

#[test]
fn prefixes_of_a_head(rt: HostRuntime) {
    for (text, want) in [
        ("", Some((1, ScriptKind::Order))),
        ("ra", Some((1, ScriptKind::UnknownWord))),
        ("raw", Some((1, ScriptKind::MissingWord))),
        ("raw v", Some((1, ScriptKind::MissingWord))),
        ("raw vol uin", Some((1, ScriptKind::UnknownWord))),
        ("raw vol uint8", Some((1, ScriptKind::MissingWord))),
        (
            "raw vol uint8 6 2 2 2 2 ",
            Some((1, ScriptKind::MissingWord)),
        ),
        ("raw vol uint8 6 2 2 2 2 2", None),
    ] {
        assert_eq!(rt; refused(rt.alloc(), text.as_bytes()), want, "{text}");
    }
}

#[test]
fn rules_of_one_line(rt: HostRuntime) {
    let head = b"raw vol uint8 6 2 2 2 2 2\nphase\nactor\n";
    for (line, kind) in [
        ("get 0 1 2", ScriptKind::MissingWord),
        ("pause", ScriptKind::UnknownWord),
        ("get 8 1 2 3", ScriptKind::Limit),
        ("set 0 1 2 3", ScriptKind::MissingWord),
        ("set 0 1 2 3 4 5", ScriptKind::ExtraWord),
        ("get 0 18446744073709551616 0 0", ScriptKind::BadNumber),
        ("get +0 1 2 3", ScriptKind::BadNumber),
        ("range 0 1", ScriptKind::Order),
        ("open vol", ScriptKind::Order),
    ] {
        let found = refused_after(rt.alloc(), head, line);
        assert_eq!(rt; found, Some((4, kind)), "{line}");
    }
}

#[test]
fn lines_and_their_ends(rt: HostRuntime) {
    for (text, want) in [
        (
            b"# one\n\n \t\nrange 0 1\n".as_slice(),
            Some((4, ScriptKind::Order)),
        ),
        (b"open a\r\n\trange 5  5\r\n", Some((2, ScriptKind::Limit))),
        (b"open a\r\nrange\t5 6 \r\nphase \r\nactor", None),
        (b"open a\n#\xff\nphase\n", None),
        (b"open a\npause \xff\n", Some((2, ScriptKind::NotText))),
        (b"\r", Some((2, ScriptKind::Order))),
        (
            b"open a\nrange 0 1\nrange 0 2\n",
            Some((3, ScriptKind::Order)),
        ),
        (
            b"open a\nphase\nget 0 0 0 0\n",
            Some((3, ScriptKind::Order)),
        ),
        (b"open a/../b", Some((1, ScriptKind::Limit))),
    ] {
        assert_eq!(rt; refused(rt.alloc(), text), want, "{text:?}");
    }
}

#[test]
fn limits(rt: HostRuntime) -> Result<(), Fail> {
    let alloc = rt.alloc();
    let head = "raw vol uint8 6 2 2 2 2 2\n";
    for (first, line, lines, want) in [
        ("open ", "a", 200, None),
        ("open ", "a", 201, Some(1)),
        ("open a\nphase\n", "actor\n", 16, None),
        ("open a\nphase\n", "actor\n", 17, Some(19)),
        ("open a\n", "phase\n", 1025, Some(1026)),
        (head, "#", (1 << 20) - 26, None),
        (head, "#", (1 << 20) - 25, Some(0)),
    ] {
        let text = repeated(alloc, first, line, lines)?;
        let want = want.map(|number| (number, ScriptKind::Limit));
        assert_eq!(rt; refused(alloc, text.as_bytes()), want, "{first} {lines}");
    }
    Ok(())
}

/// A head, a range, and two phases, the first of which has two actors.
const LINES: &[u8] =
    b"raw a/b uint16 5 6 7 2 3 4\nrange 1 9\nphase\nactor\n  get 0 1 2 3\nset 7 007 2 3 9\nactor\nphase";

#[test]
fn reads_the_head_and_the_range(rt: HostRuntime) -> Result<(), Fail> {
    let script = read_script(rt.alloc(), LINES)?;
    match &script.head {
        Head::Raw {
            root,
            kind,
            dims,
            cell,
        } => {
            assert_eq!(rt; root.as_str(), "a/b");
            assert_eq!(rt; *kind, Kind::U16);
            assert_eq!(rt; *dims, [5, 6, 7]);
            assert_eq!(rt; *cell, [2, 3, 4]);
        }
        Head::Pyramid { .. } => assert!(rt; false),
    }
    assert_eq!(rt; script.range, Some([1, 9]));
    Ok(())
}

#[test]
fn reads_phases_actors_and_commands(rt: HostRuntime) -> Result<(), Fail> {
    let script = read_script(rt.alloc(), LINES)?;
    assert_eq!(rt; script.phases.len(), 2);
    let first = script.phases.as_slice().first().expect(&rt, "a phase");
    assert_eq!(rt; first.len(), 2);
    let commands = first.as_slice().first().expect(&rt, "an actor");
    assert_eq!(rt; commands.len(), 2);
    assert!(rt;
        matches!(
            commands.as_slice().first(),
            Some(Command::Get {
                level: 0,
                pos: [1, 2, 3]
            })
        )
    );
    assert!(rt;
        matches!(
            commands.as_slice().last(),
            Some(Command::Set {
                level: 7,
                pos: [7, 2, 3],
                value: 9
            })
        )
    );
    let last = script.phases.last().expect(&rt, "a phase");
    assert_eq!(rt; last.len(), 0);
    Ok(())
}
