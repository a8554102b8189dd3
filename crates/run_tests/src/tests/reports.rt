// Runs of scripts, and the reports that they leave.
use cell_file::Keys;
use cell_grid::{Extent, Geometry, Kind, Level};
use cell_store::MemStore;
use hier_paint::Painted;
use run_report::{Answer, Refusal, Report};
use std::alloc::Global;
use std::collections::BTreeMap;
use std::process::Abort;
use std::test::Fail;
use team_run::{Ran, RunErr, solo_run};
use view_script::read_script;

/// Runs a script over three cells of 2 x 2 x 2 voxels and an empty store.
fn ran(alloc: Global, script: &[u8], slots: u64, rt: &impl Abort) -> Result<Ran<MemStore>, Fail> {
    let level = Level {
        extent: Extent::new([6, 2, 2], [2, 2, 2])?,
        factor: [1, 1, 1],
        kind: Kind::U8,
    };
    let geometry = Geometry::new(vec![in alloc; level]?)?;
    assert_eq!(rt; geometry.levels(), 1);
    let keys = Keys::new(&geometry, "vol", true)?;
    let store = MemStore::new(alloc, BTreeMap::new(alloc), Vec::new(alloc));
    let script = read_script(alloc, script)?;
    Ok(solo_run(alloc, geometry, keys, script, slots, vec![in alloc; store]?))
}

#[test]
fn commands_are_answered_and_counted(rt: HostRuntime) -> Result<(), Fail> {
    let alloc = rt.alloc();
    let script =
        b"raw vol uint8 6 2 2 2 2 2\nphase\nactor\nset 0 0 0 0 9\nget 0 0 0 0\nget 0 6 0 0\nset 0 0 0 0 256\n";
    let Ran { report, stores } = ran(alloc, script, 2, &rt)?;
    assert_eq!(rt; stores.len(), 1);
    match report {
        Ok(report) => expect(&report, &rt),
        Err(_) => Err(Fail::new("no report")),
    }
}

/// A set and a get of one voxel, and two refusals, in one cell.
fn expect(report: &Report, rt: &impl Abort) -> Result<(), Fail> {
    let replies = report.replies.as_slice();
    assert_eq!(rt; replies.len(), 4);
    assert_eq!(rt; replies[0].answer, Answer::Done);
    assert_eq!(rt; replies[1].answer, Answer::Value(9));
    let outside = Answer::Refused(Refusal::Outside);
    assert_eq!(rt; replies[2].answer, outside);
    let large = Answer::Refused(Refusal::TooLarge { value: 256 });
    assert_eq!(rt; replies[3].answer, large);
    assert_eq!(rt; replies[3].call, 3);
    assert_eq!(rt; report.tally.hits, 1);
    assert_eq!(rt; report.tally.misses, 1);
    assert_eq!(rt; report.tally.writebacks, 1);
    assert_eq!(rt; report.unsaved.len(), 0);
    Ok(())
}

#[test]
fn too_few_slots_are_refused(rt: HostRuntime) -> Result<(), Fail> {
    let Ran { report, stores } = ran(rt.alloc(), b"raw vol uint8 6 2 2 2 2 2\n", 1, &rt)?;
    let refusal = RunErr::Slots {
        found: 1,
        low: 2,
        high: 4096,
    };
    assert_eq!(rt; report.err(), Some(refusal));
    assert_eq!(rt; stores.len(), 1);
    Ok(())
}

#[test]
fn views_ask_and_fetches_load(rt: HostRuntime) -> Result<(), Fail> {
    let alloc = rt.alloc();
    let script =
        b"raw vol uint8 6 2 2 2 2 2\nphase\nactor\nset 0 1 0 0 255\nview a 6 1 0 volatile 1 1 0 0 0 1 0 0 0 0\nfetch 9\nview b 6 1 0 volatile 1 1 0 0 0 1 0 0 0 0\n";
    let Ran { report, stores } = ran(alloc, script, 3, &rt)?;
    assert_eq!(rt; stores.len(), 1);
    match report {
        Ok(report) => expect_frames(&report, &rt),
        Err(_) => Err(Fail::new("no report")),
    }
}

/// A frame that shows one cell of three, a fetch of the two others, and a frame that shows all.
fn expect_frames(report: &Report, rt: &impl Abort) -> Result<(), Fail> {
    let replies = report.replies.as_slice();
    assert_eq!(rt; replies.len(), 4);
    let partial = Painted {
        wanted: 0,
        complete: false,
        not_ready: 4,
    };
    assert_eq!(rt; replies[1].answer, Answer::Frame(partial));
    let fetched = Answer::Fetched {
        loaded: 2,
        held: 0,
        refused: 0,
    };
    assert_eq!(rt; replies[2].answer, fetched);
    let whole = Painted {
        wanted: 0,
        complete: true,
        not_ready: 0,
    };
    assert_eq!(rt; replies[3].answer, Answer::Frame(whole));
    let shots = report.shots.as_slice();
    assert_eq!(rt; shots.len(), 2);
    assert!(rt; shots[0].shown);
    assert_eq!(rt;
        shots[0].picture.mask(),
        [0, 0, 255, 255, 255, 255].as_slice()
    );
    assert_eq!(rt; shots[1].picture.values(), [0, 255, 0, 0, 0, 0].as_slice());
    Ok(())
}
