// Two volumes, and cells over them that threads share: three cells of eight voxels in two slots, and a pyramid of five cells of four
// voxels in eight.
ghost use Rattle.std.specs.Prelude.{◌≡◌, IfOk};
ghost use Rattle.live_cells.specs.Cells.{knows, IsCellPassOf};
ghost use Rattle.crew_tests.specs.Kept.{IsSole};

use arr_history::Tally;
use cell_file::Keys;
use cell_grid::{Extent, Geometry, Kind, Level};
use cell_store::MemStore;
use live_cells::{CellPass, Cells};
use plain_data::is_root_name;
use std::alloc::Global;
use std::collections::BTreeMap;
use std::process::Abort;
use std::test::Fail;

/// The counts of a run: hits, misses, loads, evictions, writebacks and closed.
pub(crate) fn tally(counts: [u64; 6]) -> Tally {
    let [hits, misses, loads, evictions, writebacks, closed] = counts;
    Tally {
        hits,
        misses,
        loads,
        evictions,
        writebacks,
        closed,
    }
}

/// Three cells in a row, one level.
fn row(alloc: Global) -> Result<Geometry, Fail> {
    let level = Level {
        extent: Extent::new([6, 2, 2], [2, 2, 2])?,
        factor: [1, 1, 1],
        kind: Kind::U8,
    };
    Ok(Geometry::new(vec![in alloc; level]?)?)
}

/// Those in two slots, over one store in memory, with their first pass.
pub(crate) fn three_cells(
    rt: &impl Abort,
    alloc: Global,
    store: MemStore,
) -> Result<(Cells<MemStore>, CellPass<MemStore>), Fail>
    ensures pass { IfOk result (λ r. IsCellPassOf r.0 r.1) }
    ensures sole { IfOk result (λ r. IsSole (knows r.1)) }
{
    let geometry = row(alloc)?;
    assert!(rt; is_root_name(b"vol"));
    assert!(rt; geometry.levels() == 1);
    assert!(rt; geometry.frame() <= 8);
    let keys = Keys::new(&geometry, "vol", true)?;
    match Cells::new(alloc, &geometry, &keys, 2, vec![in alloc; store]?) {
        Ok(made) => Ok(made),
        Err(_) => Err(Fail::new("out of memory")),
    }
}

/// A store that holds nothing, whose calls of these numbers fail.
pub(crate) fn empty(alloc: Global, fail: Vec<u64>) -> MemStore {
    MemStore::new(alloc, BTreeMap::new(alloc), fail)
}
