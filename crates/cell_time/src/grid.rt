// The cells that are timed: a row of 4096, of 64 voxels of one byte.
ghost use Rattle.std.specs.Prelude.{◌≡◌, ◌≤◌, IfSome, length};
ghost use Rattle.cell_grid.specs.Pyramid.{frame_of};

use crate::blank::Blank;
use cell_file::Keys;
use cell_grid::{Extent, Geometry, Kind, Level};
use plain_data::is_root_name;
use std::alloc::Global;

pub fn geometry(alloc: Global) -> Option<Geometry>
    ensures frames { IfSome result (λ g. frame_of g ≤ 64) }
{
    let level = Level {
        extent: Extent::new([16384, 4, 4], [4, 4, 4]).ok()?,
        factor: [1, 1, 1],
        kind: Kind::U8,
    };
    let geometry = Geometry::new(vec![in alloc; level].ok()?).ok()?;
    if geometry.frame() > 64 {
        return None;
    }
    Some(geometry)
}

pub fn keys(geometry: &Geometry) -> Option<Keys>
    ensures { IfSome result (λ k. k.levels ≡ geometry.now) }
{
    if geometry.levels() != 1 || !is_root_name(b"vol") {
        return None;
    }
    Keys::new(geometry, "vol", true).ok()
}

/// One store.
pub fn stores(alloc: Global) -> Option<Vec<Blank>>
    ensures { IfSome result (λ s. length s.items ≡ 1) }
{
    vec![in alloc; Blank {}].ok()
}
