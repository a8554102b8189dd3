// The rules for boxes and pyramids: each function gives the refusal of its rule, where that is broken.
ghost use Rattle.std.specs.Prelude.{◌≡◌, ◌^◌, ◌<◌, ◌≤◌, length, slice_index};
ghost use Rattle.voxel_box.specs.Box.{volume};
ghost use Rattle.cell_grid.specs.Grid.{cell_count};
ghost use Rattle.cell_grid.specs.GridErr.{broken_grid_rule, zero_side, side_too_large, zero_factor, broken_level};

use crate::{GridErr, Level};

/// The longest side of a level.
const MAX_SIDE: u64 = 2147483647;

/// The most voxels of a full cell.
const MAX_VOXELS: u128 = 2097152;

/// The most cells, of a level and of all levels together.
const MAX_CELLS: u128 = 262144;

/// The most levels of a pyramid.
const MAX_LEVELS: usize = 8;

/// The first rule that a box and its cells break.
pub fn broken_rule(dims: [u64; 3], cell: [u32; 3]) -> Option<GridErr>
    ensures { result ≡ broken_grid_rule dims cell }
{
    if let Some(refusal) = zero_side(dims) {
        return Some(refusal);
    }
    if let Some(refusal) = zero_side([cell[0] as u64, cell[1] as u64, cell[2] as u64]) {
        return Some(refusal);
    }
    if let Some(refusal) = side_too_large(dims) {
        return Some(refusal);
    }
    let voxels = volume(cell);
    if voxels > MAX_VOXELS {
        return Some(GridErr::CellTooLarge { voxels });
    }
    let count = cell_count(dims, cell);
    if count > MAX_CELLS {
        return Some(GridErr::TooManyCells { count });
    }
    None
}

/// The first side that is zero.
fn zero_side(sides: [u64; 3]) -> Option<GridErr>
    ensures { result ≡ zero_side sides }
{
    match sides {
        [0, _, _] => Some(GridErr::ZeroSide { axis: 0 }),
        [_, 0, _] => Some(GridErr::ZeroSide { axis: 1 }),
        [_, _, 0] => Some(GridErr::ZeroSide { axis: 2 }),
        _ => None,
    }
}

/// The first side that is too large.
fn side_too_large(dims: [u64; 3]) -> Option<GridErr>
    ensures { result ≡ side_too_large dims }
{
    let [x, y, z] = dims;
    if x > MAX_SIDE {
        Some(GridErr::SideTooLarge { axis: 0, found: x })
    } else if y > MAX_SIDE {
        Some(GridErr::SideTooLarge { axis: 1, found: y })
    } else if z > MAX_SIDE {
        Some(GridErr::SideTooLarge { axis: 2, found: z })
    } else {
        None
    }
}

/// The product of three sides.
fn volume(sides: [u32; 3]) -> u128
    ensures { result ≡ volume sides }
{
    sides[0] as u128 * sides[1] as u128 * sides[2] as u128
}

/// How many cells a box has.
fn cell_count(dims: [u64; 3], cell: [u32; 3]) -> u128
    requires x { 0 < slice_index cell 0 }
    requires y { 0 < slice_index cell 1 }
    requires z { 0 < slice_index cell 2 }
    requires wide { slice_index dims 0 < 2 ^ 31 }
    requires high { slice_index dims 1 < 2 ^ 31 }
    requires deep { slice_index dims 2 < 2 ^ 31 }
    ensures { result ≡ cell_count dims cell }
{
    let x = dims[0].div_ceil(cell[0] as u64);
    let y = dims[1].div_ceil(cell[1] as u64);
    let z = dims[2].div_ceil(cell[2] as u64);
    x as u128 * y as u128 * z as u128
}

/// The first rule that the levels of a pyramid break.
pub fn broken_level(levels: &[Level]) -> Option<GridErr>
    ensures { result ≡ broken_level levels.now }
{
    if levels.is_empty() {
        return Some(GridErr::NoLevel);
    }
    if levels.len() > MAX_LEVELS {
        let count = levels.len() as u64;
        return Some(GridErr::TooManyLevels { count });
    }
    if let Some(refusal) = zero_factor(levels) {
        return Some(refusal);
    }
    let count = levels
        .iter()
        .map(|level| level.extent.cells() as u128)
        .sum();
    if count > MAX_CELLS {
        return Some(GridErr::TooManyCells { count });
    }
    None
}

/// The first factor that is zero.
fn zero_factor(levels: &[Level]) -> Option<GridErr>
    requires { length levels.now ≤ 8 }
    ensures { result ≡ zero_factor 0 levels.now }
{
    for (level, shape) in levels.iter().enumerate() {
        let level = level as u8;
        match shape.factor {
            [0, _, _] => return Some(GridErr::ZeroFactor { level, axis: 0 }),
            [_, 0, _] => return Some(GridErr::ZeroFactor { level, axis: 1 }),
            [_, _, 0] => return Some(GridErr::ZeroFactor { level, axis: 2 }),
            _ => {}
        }
    }
    None
}
