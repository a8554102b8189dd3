// Where a request for a cell goes.
ghost use Rattle.std.specs.Prelude.{◌≡◌, ◌<◌, length};
ghost use Rattle.cell_grid.specs.Pyramid.{cells_of};
ghost use Rattle.volatile_cell.specs.Requests.{hints_of};

use crate::hint::Hints;
use cell_grid::Geometry;

/// Where a request for a cell goes: the coarsest level comes first, and in a priority the request goes to the back.
pub fn hints(geometry: &Geometry, cell: u32) -> Hints
    requires { cell < cells_of geometry.now }
    ensures hints { result ≡ hints_of geometry.now cell }
    ensures exists { result.priority < length geometry.now }
{
    let (level, _) = geometry.grid_of(cell);
    Hints {
        priority: geometry.levels() - 1 - level,
        to_front: false,
    }
}
