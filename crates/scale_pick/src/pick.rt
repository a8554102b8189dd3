// The level that is best for a map.
ghost use Rattle.std.specs.Prelude.{◌≡◌, ◌<◌, length};
ghost use Rattle.scale_pick.specs.Wanted.{best_level, covers, covers_axis};

use cell_grid::{Geometry, Level};
use whole_affine::Affine;

/// The first level where no step of the map, on any axis, is longer than a voxel; else the last level.
pub fn best(geometry: &Geometry, affine: &Affine) -> u8
    ensures best { result ≡ best_level geometry.now affine.now }
    ensures exists { result < length geometry.now }
{
    let last = geometry.levels() - 1;
    for level in 0..last {
        if covers(affine, geometry.level(level)) {
            return level;
        }
    }
    last
}

/// No step of the map is longer than a voxel of the level.
fn covers(affine: &Affine, level: &Level) -> bool
    ensures { result ≡ covers affine.now level.now }
{
    covers_axis(affine, level, 0) && covers_axis(affine, level, 1) && covers_axis(affine, level, 2)
}

fn covers_axis(affine: &Affine, level: &Level, axis: u8) -> bool
    requires { axis < 3 }
    ensures { result ≡ covers_axis affine.now level.now axis }
{
    let longest = affine.q() * level.factor[axis as usize] as u64;
    let [column, row] = affine.step(axis);
    column.unsigned_abs() <= longest && row.unsigned_abs() <= longest
}
