// A small history, event by event, and its counts.
ghost use Rattle.std.specs.Prelude.{◌≡◌, ℕ, ◌<◌, length, IfOk};
ghost use Rattle.cell_grid.specs.Pyramid.{cells_of, voxels_of};
ghost use Rattle.arr_history.specs.Checked.{array_of};

use super::*;
use cell_grid::{Extent, Geometry, Kind, Level};
use std::alloc::{AllocError, Global};
use std::test::Fail;

/// Six voxels in a row of three cells, each two voxels wide, high and deep.
fn three_cells(alloc: Global) -> Result<Geometry, Fail> {
    let level = Level {
        extent: Extent::new([6, 2, 2], [2, 2, 2])?,
        factor: [1, 1, 1],
        kind: Kind::U8,
    };
    Ok(Geometry::new(vec![in alloc; level]?)?)
}

/// An array of zeros for each cell.
fn zeros(alloc: Global, geometry: &Geometry) -> Result<Vec<Vec<u64>>, AllocError>
    ensures count { IfOk result (λ arrays. length arrays.items ≡ cells_of geometry.now) }
    ensures lengths { IfOk result (λ arrays. (n : ℕ) → n < cells_of geometry.now → length (array_of arrays.items n) ≡ voxels_of geometry.now n) }
{
    let mut arrays = Vec::new(alloc);
    for cell in 0..geometry.cells() {
        arrays.push(vec![in alloc; 0; geometry.voxels(cell) as usize]?)?;
    }
    Ok(arrays)
}

#[test]
fn a_write_needs_a_mark_and_a_claim_an_absent_cell(rt: HostRuntime) -> Result<(), Fail> {
    let alloc = rt.alloc();
    let geometry = three_cells(alloc)?;
    let arrays = zeros(alloc, &geometry)?;
    let void = vec![in alloc; false; geometry.cells() as usize]?;
    assert!(rt; geometry.cells() <= 3);
    let mut checker = Checker::new(alloc, &geometry, arrays, void, 2, 2)?;
    let (k, cell, at, value) = (0, 0, 0, 0);
    assert!(rt; checker.step(&Event::Miss { k, cell }));
    assert!(rt; checker.step(&Event::Claim { k, cell }));
    assert!(rt; checker.step(&Event::Live { k, cell, slot: 0 }));
    assert!(rt; checker.step(&Event::Read { k, cell, at, value }));
    assert!(rt; !checker.step(&Event::Write { k, cell, at, value }));
    assert!(rt; !checker.step(&Event::Claim { k: 1, cell }));
    Ok(())
}

#[test]
fn the_counts_of_a_run_and_of_its_shutting(rt: HostRuntime) {
    let (k, cell, slot) = (0, 0, 0);
    let gone = Event::Gone {
        k,
        cell,
        saved: true,
    };
    let mut tally = Tally::default().with_event(&Event::Miss { k, cell });
    tally = tally.with_event(&Event::Live { k, cell, slot });
    tally = tally.with_event(&Event::Pin { k, cell });
    tally = tally.with_event(&gone);
    tally = tally.with_closing(&gone);
    let want = Tally {
        hits: 1,
        misses: 1,
        loads: 1,
        evictions: 1,
        writebacks: 2,
        closed: 1,
    };
    assert_eq!(rt; tally, want);
    let twice = Tally {
        hits: 2,
        misses: 2,
        loads: 2,
        evictions: 2,
        writebacks: 4,
        closed: 2,
    };
    assert_eq!(rt; tally.plus(want), twice);
    histories_keep_laws();
    histories_hold_from_the_opening();
    histories_split();
    histories_compose();
    claims_come_first();
    tallies_grow();
    tallies_add_up();
}
