// Stores of whose calls one fails, and a cell whose block is no block.
use crate::fixture::{Case, RUN, Text, end_of, expect, store_of};
use crate::runs::TWO_PHASES;
use std::process::Abort;
use std::test::Fail;
use team_actors::OpenGate;

/// The commands of the two phases, with their answers where no call of the store fails. What the first two sets wrote is got last, or zero
/// where the set was refused.
fn replies_after(text: &str) -> [(&'static str, &'static str); 18] {
    let second = if text.contains("0.1.0 refused") {
        "value 0"
    } else {
        "value 2"
    };
    let first = if text.contains("0.0.0 refused") {
        "value 0"
    } else {
        "value 1"
    };
    [
        ("0.0.0 ", "done"),
        ("0.0.1 ", "value 0"),
        ("0.0.2 ", "value 0"),
        ("0.0.3 ", "value 0"),
        ("0.0.4 ", "value 0"),
        ("0.0.5 ", "value 0"),
        ("0.0.6 ", "value 0"),
        ("0.0.7 ", "value 0"),
        ("0.1.0 ", "done"),
        ("0.1.1 ", "value 0"),
        ("0.1.2 ", "value 0"),
        ("0.1.3 ", "value 0"),
        ("0.1.4 ", "value 0"),
        ("0.1.5 ", "value 0"),
        ("0.1.6 ", "value 0"),
        ("0.1.7 ", "value 0"),
        ("1.0.0 ", second),
        ("1.1.0 ", first),
    ]
}

/// Whether a line has a command's number, and then its answer or a fault.
fn is_reply(line: &str, number: &str, answer: &str) -> bool {
    match line.strip_prefix(number) {
        Some(told) => {
            told == answer || told == "refused read-fault" || told == "refused write-fault"
        }
        None => false,
    }
}

/// Compares the replies of the two phases, of which one may be a fault.
fn expect_replies(rt: &impl Abort, text: &str) -> Result<(), Fail> {
    let mut lines = text.lines();
    for (number, answer) in replies_after(text) {
        let line = lines.next().ok_or("a reply is missing")?;
        assert!(rt; is_reply(line, number, answer), "{text}");
    }
    let counts = lines.next().ok_or("the counts are missing")?;
    assert!(rt; counts.starts_with("tally hits "), "{text}");
    Ok(())
}

/// Compares how many lines tell a fault, and the status.
fn expect_one_fault(rt: &impl Abort, text: &str, status: u8) {
    let faults = text.lines().filter(|line| line.ends_with("-fault")).count();
    assert!(rt; faults <= 1, "{text}");
    let is_unsaved = text.ends_with("\nunsaved 0 write-fault\n");
    let lines = if is_unsaved { 20 } else { 19 };
    assert_eq!(rt; text.lines().count(), lines, "{text}");
    let wanted = match (is_unsaved, text.contains(" refused ")) {
        (true, _) => 5,
        (false, true) => 1,
        (false, false) => 0,
    };
    assert_eq!(rt; status, wanted, "{text}");
}

#[test]
fn a_failing_call_costs_one_reply_or_one_saving(rt: HostRuntime) -> Result<(), Fail> {
    let alloc = rt.alloc();
    for number in 1..41u64 {
        let store = store_of(alloc, &[], &[number])?;
        let end = end_of(&rt, alloc, RUN.words, TWO_PHASES, store, &OpenGate)?;
        let text = str::from_utf8(end.out.bytes())?;
        expect_replies(&rt, text)?;
        expect_one_fault(&rt, text, end.status);
        assert!(rt; end.has_trail);
    }
    Ok(())
}

/// A block without its last byte.
const SHORT: &[u8] = &[
    0, 0, 0, 3, 0, 0, 0, 2, 0, 0, 0, 2, 0, 0, 0, 2, 1, 2, 3, 4, 5, 6, 7,
];

#[test]
fn a_bad_block_is_refused_to_all(rt: HostRuntime) -> Result<(), Fail> {
    let case = Case {
        shows: "a block that is too short",
        script: "raw vol uint8 6 2 2 2 2 2\nphase\nactor\nget 0 0 0 0\nget 0 0 0 0\nactor\nget 0 0 0 0\nget 0 0 0 0\n",
        held: &[("vol/0/0/0", SHORT)],
        status: 1,
        text: Text::Open {
            begins: "0.0.0 refused malformed base short 23 24\n0.0.1 refused malformed base short 23 24\n0.1.0 refused malformed base short 23 24\n0.1.1 refused malformed base short 23 24\ntally hits 0 misses ",
            ends: " loads 0 evictions 0 writebacks 0 closed 0\n",
        },
        ..RUN
    };
    expect(&rt, rt.alloc(), &case)
}
