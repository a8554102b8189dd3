// The level of a cell.
ghost use Rattle.std.specs.Prelude.{◌≡◌, ◌+◌, ◌<◌, ◌≤◌, length, Some, slice_get};
ghost use Rattle.cell_grid.specs.Pyramid.{cells_in, cells_of, first_cell, cell_at};

use crate::Level;

/// A cell's level, what it looks like, and the cell's number there.
#[derive(Clone, Copy)]
pub struct Found<'a> {
    pub level: u8,
    pub shape: &'a Level,
    pub number: u32,
}

/// The level of a cell, and the cell's number there. At most 8 levels are looked at.
pub fn find(levels: &[Level], cell: u32) -> Found<'_>
    requires few { length levels.now ≤ 8 }
    requires cell { cell < cells_of levels.now }
    ensures found { cell_at levels.now cell ≡ Some (record { level = result.level; shape = result.shape.now; number = result.number }) }
    ensures exists { slice_get levels.now result.level ≡ Some result.shape.now }
    ensures number { cell ≡ first_cell levels.now result.level + result.number }
    ensures below { result.number < cells_in result.shape.now }
{
    let mut number = cell;
    for (level, shape) in levels.iter().enumerate() {
        let count = shape.extent.cells();
        if number < count {
            return Found {
                level: level as u8,
                shape,
                number,
            };
        }
        number -= count;
    }
    unreachable!()
}
