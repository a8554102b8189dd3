// The volume that a script opens.
ghost use Rattle.std.specs.Prelude.{◌≡◌, IfOk, IsTrue, length};
ghost use Rattle.plain_data.specs.RootName as names;
ghost use Rattle.view_script.specs.Script.{root_of};
ghost use Rattle.n5_meta.specs.Asks.{IsAskedOfSetup};
ghost use Rattle.viewrun_calls.specs.Volume.{AnswersAlways, AsksVolume, IsMade, OpensVolume, keys_of, raw_levels};

use cell_file::Keys;
use cell_grid::{Extent, Geometry, Kind, Level, Memory};
use cell_store::Store;
use n5_meta::{OpenErr, open_pyramid};
use std::alloc::Global;
use view_script::Head;

/// The levels of the volume that a script's head names. A raw head asks nothing of the store.
pub fn open_volume<S: Store>(alloc: Global, head: &Head, store: &mut S) -> Result<Geometry, OpenErr>
    ensures opens { OpensVolume head.now (S.contents store.old) (S.contents store.new) result }
    ensures asks { IsAskedOfSetup (AsksVolume head.now) (S.contents store.old) (S.contents store.new) result }
    ensures made { IfOk result (λ geometry. IsMade head.now geometry) }
{
    match head {
        Head::Raw {
            kind,
            dims,
            cell,
            ..
        } => raw_geometry(alloc, *kind, *dims, *cell),
        Head::Pyramid { root } => open_pyramid(alloc, store, root.as_str()),
    }
}

/// The keys of the cells of a volume.
pub fn volume_keys(head: &Head, geometry: &Geometry) -> Result<Keys, Memory>
    requires root { IsTrue (names.is_root_name (root_of head.now)) }
    requires made { IsMade head.now geometry.now }
    ensures { IfOk result (λ keys. keys ≡ keys_of head.now geometry.now) }
{
    match head {
        Head::Raw { root, .. } => Keys::new(geometry, root.as_str(), true),
        Head::Pyramid { root } => Keys::new(geometry, root.as_str(), false),
    }
}

/// A pyramid of one level.
#[tactic(auto, unfolding(crate::specs::Volume::raw_levels))]
fn raw_geometry(
    alloc: Global,
    kind: Kind,
    dims: [u64; 3],
    cell: [u32; 3],
) -> Result<Geometry, OpenErr>
    ensures answers { AnswersAlways result (raw_levels kind dims cell) }
    ensures one_level { IfOk result (λ geometry. length geometry ≡ 1) }
{
    let extent = match Extent::new(dims, cell) {
        Ok(extent) => extent,
        Err(err) => return Err(OpenErr::Grid { err }),
    };
    let mut levels = Vec::new(alloc);
    let level = Level {
        extent,
        factor: [1, 1, 1],
        kind,
    };
    if levels.push(level).is_err() {
        return Err(OpenErr::Memory);
    }
    match Geometry::new(levels) {
        Ok(geometry) => Ok(geometry),
        Err(err) => Err(OpenErr::Grid { err }),
    }
}
