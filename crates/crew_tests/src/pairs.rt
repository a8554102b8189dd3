// Two passes over three cells in two slots, and how they end. The first pass waits meanwhile.
ghost use Rattle.std.specs.Prelude.{◌≡◌, [], IfOk};
ghost use Rattle.live_cells.specs.Cells.{knows, IsCellPassOf};
ghost use Rattle.crew_tests.specs.Kept.{IsFirstOfThree};

use crate::fixture::three_cells;
use arr_history::Closed;
use cell_store::MemStore;
use live_cells::{CellPass, Cells};
use std::alloc::Global;
use std::process::Abort;
use std::test::Fail;

/// Three cells of eight voxels in two slots over one store in memory, and their first pass.
pub(crate) type Shared = (Cells<MemStore>, CellPass<MemStore>);

/// Those, and two more passes.
pub(crate) fn two_passes(
    rt: &impl Abort,
    alloc: Global,
    store: MemStore,
) -> Result<(Shared, CellPass<MemStore>, CellPass<MemStore>), Fail>
    ensures first { IfOk result (λ r. IsCellPassOf r.0.0 r.0.1 × IsFirstOfThree (knows r.0.1)) }
    ensures one { IfOk result (λ r. IsCellPassOf r.0.0 r.1 × ((knows r.1).pins ≡ [])) }
    ensures two { IfOk result (λ r. IsCellPassOf r.0.0 r.2 × ((knows r.2).pins ≡ [])) }
{
    let (cells, mut first) = three_cells(rt, alloc, store)?;
    let Ok(one) = cells.split(&mut first) else {
        panic!(rt; "no memory for a pass")
    };
    let Ok(two) = cells.split(&mut first) else {
        panic!(rt; "no memory for a pass")
    };
    Ok(((cells, first), one, two))
}

/// Joins both passes, and shuts the cells.
pub(crate) fn join_and_shut(
    shared: Shared,
    one: CellPass<MemStore>,
    two: CellPass<MemStore>,
) -> Closed<MemStore>
    requires first { IsCellPassOf shared.0 shared.1 × IsFirstOfThree (knows shared.1) }
    requires one { IsCellPassOf shared.0 one × ((knows one).pins ≡ []) }
    requires two { IsCellPassOf shared.0 two × ((knows two).pins ≡ []) }
{
    let (cells, mut first) = shared;
    cells.join(&mut first, one);
    cells.join(&mut first, two);
    let (closed, _trail) = cells.shut(first);
    closed
}
