// The lines of replies, and of calls that end without a report.

use cell_file::AcquireErr;
use cell_grid::GridErr;
use n5_block::BlockErr;
use n5_meta::{Member, MetaErr, OpenErr, Spot};
use run_report::{Answer, Refusal, Reply, Stop};
use scale_pick::Painted;
use std::alloc::{AllocError, Global};
use std::process::Abort;
use std::test::Fail;
use view_script::{ScriptErr, ScriptKind};

fn reply(answer: Answer) -> Reply {
    Reply {
        phase: 0,
        actor: 0,
        call: 1,
        answer,
    }
}

fn refused(err: AcquireErr) -> Reply {
    reply(Answer::Refused(Refusal::Acquire(err)))
}

fn malformed(edited: bool, err: BlockErr) -> Reply {
    refused(AcquireErr::Malformed { edited, err })
}

/// Compares the lines of replies.
fn expect_lines(rt: &impl Abort, alloc: Global, cases: &[(Reply, &str)]) -> Result<(), AllocError> {
    for (reply, text) in cases {
        let line = format!(in alloc; "{reply}")?;
        assert_eq!(rt; line.as_str(), *text);
    }
    Ok(())
}

#[test]
fn lines_of_what_was_done(rt: HostRuntime) -> Result<(), Fail> {
    let complete = Painted {
        wanted: 0,
        complete: true,
        not_ready: 0,
    };
    let partial = Painted {
        wanted: 1,
        complete: false,
        not_ready: 12,
    };
    let fetched = Answer::Fetched {
        loaded: 2,
        held: 1,
        refused: 3,
    };
    let cases = [
        (reply(Answer::Value(9)), "0.0.1 value 9"),
        (reply(Answer::Done), "0.0.1 done"),
        (
            reply(Answer::Frame(complete)),
            "0.0.1 frame level 0 complete",
        ),
        (
            reply(Answer::Frame(partial)),
            "0.0.1 frame level 1 partial 12",
        ),
        (reply(fetched), "0.0.1 fetched 2 held 1 refused 3"),
    ];
    expect_lines(&rt, rt.alloc(), &cases)?;
    Ok(())
}

#[test]
fn lines_of_refusals(rt: HostRuntime) -> Result<(), Fail> {
    let too_large = Answer::Refused(Refusal::TooLarge { value: 256 });
    let too_long = AcquireErr::TooLong {
        edited: false,
        len: 25,
        limit: 24,
    };
    let cases = [
        (
            reply(Answer::Refused(Refusal::Outside)),
            "0.0.1 refused outside",
        ),
        (reply(too_large), "0.0.1 refused too-large 256"),
        (refused(AcquireErr::ReadFault), "0.0.1 refused read-fault"),
        (refused(AcquireErr::WriteFault), "0.0.1 refused write-fault"),
        (refused(AcquireErr::Memory), "0.0.1 refused memory"),
        (refused(too_long), "0.0.1 refused too-long base 25 24"),
    ];
    expect_lines(&rt, rt.alloc(), &cases)?;
    Ok(())
}

#[test]
fn lines_of_malformed_blocks(rt: HostRuntime) -> Result<(), Fail> {
    let cases = [
        (
            malformed(false, BlockErr::Short { len: 23, need: 24 }),
            "0.0.1 refused malformed base short 23 24",
        ),
        (
            malformed(true, BlockErr::Short { len: 12, need: 16 }),
            "0.0.1 refused malformed edited short 12 16",
        ),
        (
            malformed(false, BlockErr::Mode { found: 1 }),
            "0.0.1 refused malformed base mode 1",
        ),
        (
            malformed(false, BlockErr::Axes { found: 2 }),
            "0.0.1 refused malformed base axes 2",
        ),
        (
            malformed(false, BlockErr::Side { axis: 1, found: 5 }),
            "0.0.1 refused malformed base side 1 5",
        ),
        (
            malformed(false, BlockErr::Trailing { len: 29, need: 28 }),
            "0.0.1 refused malformed base trailing 29 28",
        ),
    ];
    expect_lines(&rt, rt.alloc(), &cases)?;
    Ok(())
}

/// Compares the line and the status of a call that ends without a report.
fn expect_stop(
    rt: &impl Abort,
    alloc: Global,
    stop: Stop,
    status: u8,
    text: &str,
) -> Result<(), AllocError> {
    let line = stop.text(alloc)?;
    assert_eq!(rt; line.as_str(), text);
    assert_eq!(rt; stop.status(), status);
    Ok(())
}

#[test]
fn lines_of_stops(rt: HostRuntime) -> Result<(), Fail> {
    let usage =
        "usage: viewrun info ROOT | solo SCRIPT --slots N | run SCRIPT --slots N --fetchers N | demo N\n";
    let script = ScriptErr::At {
        line: 4,
        kind: ScriptKind::MissingWord,
    };
    let slots = Stop::Slots {
        found: 5,
        low: 6,
        high: 4096,
    };
    for (stop, status, text) in [
        (Stop::Usage, 2, usage),
        (Stop::from(script), 3, "script line 4 missing-word\n"),
        (Stop::WriteFault, 5, "store write-fault\n"),
        (Stop::Memory, 7, "memory\n"),
        (Stop::ReadFault, 8, "script read-fault\n"),
        (slots, 9, "slots 5 outside 6 to 4096\n"),
    ] {
        expect_stop(&rt, rt.alloc(), stop, status, text)?;
    }
    Ok(())
}

#[test]
fn lines_of_datasets_that_are_refused(rt: HostRuntime) -> Result<(), Fail> {
    let compressed = OpenErr::Meta {
        spot: Spot::Level(0),
        err: MetaErr::Compressed,
    };
    let bad_number = OpenErr::Meta {
        spot: Spot::Level(0),
        err: MetaErr::BadNumber {
            member: Member::BlockSize,
        },
    };
    let none = OpenErr::NoAttributes { spot: Spot::Setup };
    let many = OpenErr::LevelCount { count: 9 };
    for (err, status, text) in [
        (compressed, 4, "dataset level 0 compressed\n"),
        (bad_number, 4, "dataset level 0 bad-number blockSize\n"),
        (none, 4, "dataset setup no-attributes\n"),
        (many, 4, "dataset setup level-count 9\n"),
        (OpenErr::ReadFault, 5, "store read-fault\n"),
    ] {
        expect_stop(&rt, rt.alloc(), Stop::from(err), status, text)?;
    }
    Ok(())
}

#[test]
fn lines_of_grids_that_are_refused(rt: HostRuntime) -> Result<(), Fail> {
    let large = GridErr::CellTooLarge { voxels: 4194304 };
    for (err, text) in [
        (GridErr::ZeroSide { axis: 0 }, "dataset grid zero-side 0\n"),
        (large, "dataset grid cell-too-large 4194304\n"),
    ] {
        expect_stop(&rt, rt.alloc(), Stop::from(err), 4, text)?;
    }
    Ok(())
}
