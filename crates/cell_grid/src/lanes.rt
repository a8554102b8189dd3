// Which store a cell belongs to.
ghost use Rattle.std.specs.Prelude.{◌≡◌, ◌<◌, ◌≤◌};
ghost use Rattle.cell_grid.specs.Pyramid.{lane_of};

/// The store of a cell, by its number.
pub fn lane(cell: u32, lanes: u32) -> u32
    requires { 1 ≤ lanes }
    ensures lane { result ≡ lane_of cell lanes }
    ensures below { result < lanes }
{
    cell % lanes
}
