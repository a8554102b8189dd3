// Words that ask for no run by threads.
use crate::fixture::{Case, RUN, Text, expect};
use std::test::Fail;

const USAGE: &str =
    "usage: viewrun info ROOT | solo SCRIPT --slots N | run SCRIPT --slots N --fetchers N | demo N\n";

/// Words that ask for nothing that is known, or for work on one thread.
const OTHER_WORDS: [&[&str]; 11] = [
    &[],
    &["run"],
    &["run", "s", "--slots", "5"],
    &["run", "s", "--fetchers", "0"],
    &["run", "s", "--slots", "5", "--fetchers", "17"],
    &["run", "s", "--slots", "x", "--fetchers", "0"],
    &["run", "s", "s", "--slots", "5", "--fetchers", "0"],
    &["run", "-s", "--slots", "5", "--fetchers", "0"],
    &[
        "run",
        "s",
        "--slots",
        "5",
        "--fetchers",
        "0",
        "--fetchers",
        "0",
    ],
    &["info", "pyr"],
    &["solo", "s", "--slots", "5"],
];

#[test]
fn other_words_are_answered_with_the_usage(rt: HostRuntime) -> Result<(), Fail> {
    for words in OTHER_WORDS {
        let case = Case {
            shows: "other words",
            words,
            status: 2,
            text: Text::Whole(USAGE),
            ..RUN
        };
        expect(&rt, rt.alloc(), &case)?;
    }
    Ok(())
}
