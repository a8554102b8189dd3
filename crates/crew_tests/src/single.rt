// Calls on cells by a pass that has no pin, and has none afterwards.
ghost use Rattle.std.specs.Prelude.{◌≡◌, []};
ghost use Rattle.live_cells.specs.Cells.{knows, IsCellPassOf};
ghost use Rattle.crew_tests.specs.Kept.{StaysFree};

use cell_file::CellErr;
use cell_store::MemStore;
use live_cells::{CellPass, Cells};
use std::sync::Wait;

/// The number of a voxel of the finest level.
pub(crate) fn get<R: Wait>(
    rt: &R,
    cells: &Cells<MemStore>,
    pass: &mut CellPass<MemStore>,
    pos: [u64; 3],
) -> Result<u64, CellErr>
    requires pass { IsCellPassOf cells.now pass.old }
    requires free { (knows pass.old).pins ≡ [] }
    ensures pass { IsCellPassOf cells.now pass.new }
    ensures free { StaysFree (knows pass.old) (knows pass.new) }
{
    cells.get(rt, pass, 0, pos)
}

/// Writes a voxel of the finest level.
pub(crate) fn set<R: Wait>(
    rt: &R,
    cells: &Cells<MemStore>,
    pass: &mut CellPass<MemStore>,
    pos: [u64; 3],
    value: u64,
) -> Result<(), CellErr>
    requires pass { IsCellPassOf cells.now pass.old }
    requires free { (knows pass.old).pins ≡ [] }
    ensures pass { IsCellPassOf cells.now pass.new }
    ensures free { StaysFree (knows pass.old) (knows pass.new) }
{
    cells.set(rt, pass, 0, pos, value)
}
