// Worked examples of reports, of what `info` prints, and of a text that is printed.

use arr_history::{Tally, Unsaved};
use cell_grid::{Extent, Geometry, Kind, Level};
use cell_store::MemSink;
use plain_data::Items;
use run_report::{Answer, PrintErr, Reply, Report, Shot, Unwritten, info_text, print_bytes};
use scale_pick::Picture;
use std::alloc::{AllocError, Global};
use std::process::Abort;
use std::test::Fail;
use view_script::Name;

/// Compares the text and the status of a report.
fn expect_report(
    rt: &impl Abort,
    alloc: Global,
    report: &Report,
    unwritten: &[Unwritten],
    status: u8,
    want: &str,
) -> Result<(), AllocError> {
    let text = report.text(alloc, unwritten)?;
    assert_eq!(rt; text.as_str(), want);
    assert_eq!(rt; report.status(unwritten), status);
    Ok(())
}

#[test]
fn report_of_two_failed_puts(rt: HostRuntime) -> Result<(), Fail> {
    let alloc = rt.alloc();
    let done = Reply {
        phase: 0,
        actor: 0,
        call: 1,
        answer: Answer::Done,
    };
    let replies = Items::from_vec(vec![in alloc; done]?);
    let tally = Tally {
        hits: 1,
        misses: 3,
        loads: 2,
        evictions: 4,
        writebacks: 5,
        closed: 6,
    };
    let unsaved = vec![in alloc;
        Unsaved {
            cell: 2,
            memory: true
        },
        Unsaved {
            cell: 0,
            memory: false
        },
    ]?;
    let report = Report::new(replies, Items::new(alloc), tally, unsaved);
    let want =
        "0.0.1 done\ntally hits 1 misses 3 loads 2 evictions 4 writebacks 5 closed 6\nunsaved 0 write-fault\nunsaved 2 memory\n";
    expect_report(&rt, alloc, &report, &[], 7, want)?;
    Ok(())
}

#[test]
fn info_of_a_pyramid(rt: HostRuntime) -> Result<(), Fail> {
    let alloc = rt.alloc();
    let fine = Level {
        extent: Extent::new([4, 4, 1], [2, 2, 1])?,
        factor: [1, 1, 1],
        kind: Kind::U8,
    };
    let coarse = Level {
        extent: Extent::new([2, 2, 1], [2, 2, 1])?,
        factor: [2, 2, 1],
        kind: Kind::U8,
    };
    let geometry = Geometry::new(vec![in alloc; fine, coarse]?)?;
    let text = info_text(alloc, &geometry)?;
    assert_eq!(rt;
        text.as_str(),
        "levels 2 cells 5\nlevel 0 kind uint8 size 4 4 1 cell 2 2 1 factor 1 1 1 cells 4\nlevel 1 kind uint8 size 2 2 1 cell 2 2 1 factor 2 2 1 cells 1\n"
    );
    Ok(())
}

#[test]
fn a_picture_that_was_not_written_has_a_line(rt: HostRuntime) -> Result<(), Fail> {
    let alloc = rt.alloc();
    let tally = Tally {
        hits: 0,
        misses: 0,
        loads: 0,
        evictions: 0,
        writebacks: 0,
        closed: 0,
    };
    let shot = Shot {
        name: Name::of(b"b").ok_or("no name")?,
        picture: Picture::new(alloc, 1, 1)?,
        shown: true,
    };
    let unwritten = [Unwritten {
        name: shot.name.text(),
        memory: false,
    }];
    let shots = Items::from_vec(vec![in alloc; shot]?);
    let report = Report::new(Items::new(alloc), shots, tally, Vec::new(alloc));
    assert_eq!(rt; report.shots.len(), 1);
    let want =
        "tally hits 0 misses 0 loads 0 evictions 0 writebacks 0 closed 0\nunwritten b write-fault\n";
    expect_report(&rt, alloc, &report, &unwritten, 5, want)?;
    Ok(())
}

#[test]
fn a_text_is_printed_in_pieces_until_a_write_fails(rt: HostRuntime) -> Result<(), Fail> {
    let alloc = rt.alloc();
    let mut sink = MemSink::new(alloc, 3, vec![in alloc; 4]?);
    assert_eq!(rt; print_bytes(&mut sink, b"memory\n").is_ok(), true);
    assert_eq!(rt; sink.bytes(), b"memory\n".as_slice());
    match print_bytes(&mut sink, b"more") {
        Ok(()) => return Err(Fail::from("the fourth write fails")),
        Err(err) => assert_eq!(rt; err.status(), 6),
    }
    assert_eq!(rt; sink.bytes(), b"memory\n".as_slice());
    assert_eq!(rt; PrintErr::Memory.status(), 7);
    Ok(())
}
