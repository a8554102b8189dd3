// Words of the command line, and what they ask for.

use command_words::{Request, request_of};
use std::alloc::{AllocError, Global};
use std::process::Abort;
use std::test::Fail;

/// Words with one space between them.
fn words_of(alloc: Global, line: &str) -> Result<Vec<String>, AllocError> {
    let mut words = Vec::new(alloc);
    for word in line.split(' ') {
        words.push(String::from_str(alloc, word)?)?;
    }
    Ok(words)
}

/// What is asked for, as a line.
fn line_of(alloc: Global, request: Option<Request>) -> Result<String, AllocError> {
    match request {
        Some(Request::Info { root }) => {
            let root = root.text();
            format!(in alloc; "info {root}")
        }
        Some(Request::Solo { script, slots }) => {
            let script = script.text();
            format!(in alloc; "solo {script} {slots}")
        }
        Some(
            Request::Run {
                script,
                slots,
                fetchers,
            },
        ) => {
            let script = script.text();
            format!(in alloc; "run {script} {slots} {fetchers}")
        }
        Some(Request::Demo { number }) => format!(in alloc; "demo {number}"),
        None => String::from_str(alloc, "usage"),
    }
}

/// Compares what words ask for.
fn expect(rt: &impl Abort, alloc: Global, cases: &[(&str, &str)]) -> Result<(), AllocError> {
    for (line, want) in cases {
        let words = words_of(alloc, line)?;
        let request = request_of(alloc, words.as_slice())?;
        let found = line_of(alloc, request)?;
        assert_eq!(rt; found.as_str(), *want, "{line}");
    }
    Ok(())
}

#[test]
fn options_and_operands_stand_in_any_order(rt: HostRuntime) -> Result<(), Fail> {
    let cases = [
        ("solo s --slots 2", "solo s 2"),
        ("solo --slots 2 s", "solo s 2"),
        ("solo --slots=2 s", "solo s 2"),
        ("solo --slots 2 -- s", "solo s 2"),
        ("solo s --slots 2 --", "solo s 2"),
        ("solo --slots 2 -- -s", "solo -s 2"),
        ("solo --slots 2 -- --", "solo -- 2"),
        ("solo - --slots 2", "solo - 2"),
        ("solo  --slots 2", "solo  2"),
        ("run s --slots 5 --fetchers 1", "run s 5 1"),
        ("run --fetchers=16 --slots 5 s", "run s 5 16"),
        ("run --slots 5 s --fetchers 0", "run s 5 0"),
        ("info pyr", "info pyr"),
        ("info -- pyr", "info pyr"),
        ("info -- --", "info --"),
        ("demo 007", "demo 7"),
        ("demo 18446744073709551615", "demo 18446744073709551615"),
    ];
    expect(&rt, rt.alloc(), &cases)?;
    Ok(())
}

#[test]
fn words_outside_the_grammar_are_refused(rt: HostRuntime) -> Result<(), Fail> {
    for line in [
        "",
        "solo",
        "solo s",
        "solo --slots 2",
        "solo s --slots",
        "solo s --slots --",
        "solo s --slots 2 --slots 2",
        "solo s --slots=2 --slots 2",
        "solo -s --slots 2",
        "solo s t --slots 2",
        "solo s --slots 2 -- t",
        "solo s --slots x",
        "solo s --slots=",
        "solo s --slots -2",
        "solo s --slots 1234567890",
        "solo s --slots 2 --fetchers 1",
        "solo s --slot 2",
        "solo s -h --slots 2",
        "solo s --slots 2 --help",
        "run s --slots 5",
        "run s --slots 5 --fetchers 17",
        "info",
        "info /pyr",
        "info pyr pyr",
        "demo",
        "demo -1",
        "demo 18446744073709551616",
        "demo 000000000000000000001",
        "show s",
        "Solo s --slots 2",
    ] {
        expect(&rt, rt.alloc(), &[(line, "usage")])?;
    }
    Ok(())
}
