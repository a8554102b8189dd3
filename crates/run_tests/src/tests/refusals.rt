// Refusals of commands, scripts, words and slots.
use super::{Case, SOLO, expect_all, run_over, sink_of, store_of, words_of};
use cell_store::MemSource;
use std::alloc::Global;
use std::process::Abort;
use std::test::Fail;
use viewrun_calls::script_name;

const USAGE: &str =
    "usage: viewrun info ROOT | solo SCRIPT --slots N | run SCRIPT --slots N --fetchers N | demo N\n";

/// The block of a cell whose first voxel has the greatest value.
const LARGEST: &[u8] = &[
    0, 0, 0, 3, 0, 0, 0, 2, 0, 0, 0, 2, 0, 0, 0, 2, 255, 0, 0, 0, 0, 0, 0, 0,
];

#[test]
fn commands_and_scripts_are_refused(rt: HostRuntime) -> Result<(), Fail> {
    let cases = [
        Case {
            shows: "a voxel and a level outside are refused",
            script: "raw vol uint8 5 5 5 4 4 4\nphase\nactor\nget 0 5 0 0\nget 1 0 0 0\n",
            status: 1,
            text: "0.0.0 refused outside\n0.0.1 refused outside\ntally hits 0 misses 0 loads 0 evictions 0 writebacks 0 closed 0\n",
            ..SOLO
        },
        Case {
            shows: "a value too large is refused",
            script: "raw vol uint8 6 2 2 2 2 2\nphase\nactor\nset 0 0 0 0 255\nset 0 0 0 0 256\n",
            status: 1,
            text: "0.0.0 done\n0.0.1 refused too-large 256\ntally hits 0 misses 1 loads 1 evictions 0 writebacks 1 closed 1\n",
            left: &[("cells/s0/0/0/0", LARGEST)],
            ..SOLO
        },
        Case {
            shows: "a missing word is told",
            script: "raw vol uint8 6 2 2 2 2 2\nphase\nactor\nget 0 1 2\n",
            status: 3,
            text: "script line 4 missing-word\n",
            ..SOLO
        },
        Case {
            shows: "an unknown word is told",
            script: "raw vol uint8 6 2 2 2 2 2\nphase\nactor\npause\n",
            status: 3,
            text: "script line 4 unknown-word\n",
            ..SOLO
        },
        Case {
            shows: "an empty script has no head",
            status: 3,
            text: "script line 1 order\n",
            ..SOLO
        },
    ];
    expect_all(&rt, rt.alloc(), &cases)
}

/// Runs a script of so many bytes, all of one line that is skipped.
fn expect_comment(rt: &impl Abort, alloc: Global, length: usize, text: &str) -> Result<(), Fail> {
    let case = Case {
        shows: "a script of more than a megabyte is refused",
        status: 3,
        text,
        ..SOLO
    };
    let mut script = Vec::new(alloc);
    script.resize(length, b'#')?;
    let source = MemSource::new(script, 4000, Vec::new(alloc));
    let store = store_of(alloc, &[], &[])?;
    let _ = run_over(
        rt,
        alloc,
        &case,
        source,
        sink_of(alloc),
        vec![in alloc; store]?,
    )?;
    Ok(())
}

#[test]
fn a_script_of_more_than_a_megabyte_is_refused(rt: HostRuntime) -> Result<(), Fail> {
    // One line, which is skipped but counted, and no head.
    expect_comment(&rt, rt.alloc(), 1 << 20, "script line 2 order\n")?;
    expect_comment(&rt, rt.alloc(), (1 << 20) + 1, "script line 0 limit\n")
}

#[test]
fn slots_outside_the_limits_are_refused(rt: HostRuntime) -> Result<(), Fail> {
    let script = "raw vol uint8 6 2 2 2 2 2\n";
    let cases = [
        Case {
            shows: "one slot is too few",
            words: &["solo", "s", "--slots", "1"],
            script,
            status: 9,
            text: "slots 1 outside 2 to 4096\n",
            ..SOLO
        },
        Case {
            shows: "4097 slots are too many",
            words: &["solo", "s", "--slots", "4097"],
            script,
            status: 9,
            text: "slots 4097 outside 2 to 4096\n",
            ..SOLO
        },
        Case {
            shows: "4096 slots are not, and a number may begin with zeros",
            words: &["solo", "s", "--slots", "000004096"],
            script,
            text: "tally hits 0 misses 0 loads 0 evictions 0 writebacks 0 closed 0\n",
            ..SOLO
        },
    ];
    expect_all(&rt, rt.alloc(), &cases)
}

/// Words that ask for nothing that is known, or for more threads than one.
const OTHER_WORDS: [&[&str]; 13] = [
    &[],
    &["info"],
    &["info", "../pyr"],
    &["info", "pyr", "pyr"],
    &["solo", "s"],
    &["solo", "s", "--slots", "1234567890"],
    &["solo", "s", "--slots", "+2"],
    &["solo", "s", "--slots", "2", "s"],
    &["solo", "s", "--slots", "2", "--slots", "2"],
    &["solo", "-s", "--slots", "2"],
    &["solo", "s", "--slots", "x"],
    &["run", "s", "--slots", "2", "--fetchers", "0"],
    &["demo", "1"],
];

#[test]
fn other_words_are_answered_with_the_usage(rt: HostRuntime) -> Result<(), Fail> {
    for words in OTHER_WORDS {
        let case = Case {
            shows: "other words",
            words,
            status: 2,
            text: USAGE,
            ..SOLO
        };
        expect_all(&rt, rt.alloc(), &[case])?;
    }
    Ok(())
}

/// Words with the script that they name.
const NAMING_WORDS: [(&[&str], Option<&str>); 6] = [
    (&["solo", "s", "--slots", "2"], Some("s")),
    (&["solo", "--slots=2", "--", "-s"], Some("-s")),
    (&["run", "--fetchers", "0", "t", "--slots", "2"], Some("t")),
    (&["info", "pyr"], None),
    (&["demo", "1"], None),
    (&["solo", "-s", "--slots", "2"], None),
];

#[test]
fn the_words_name_a_script(rt: HostRuntime) -> Result<(), Fail> {
    for (words, named) in NAMING_WORDS {
        let words = words_of(rt.alloc(), words)?;
        let name = script_name(rt.alloc(), words.as_slice())?;
        assert!(rt; name == named);
    }
    Ok(())
}
