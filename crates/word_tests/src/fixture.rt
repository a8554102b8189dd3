// A small table for tests.
ghost use Rattle.std.specs.Prelude.{◌≡◌, length, IfOk};
ghost use Rattle.cell_grid.specs.Pyramid.{cells_of, frame_of};
ghost use Rattle.pin_rule.specs.Calls.{view, IsPassOf};
ghost use Rattle.pin_rule.specs.Trying.{IsFirst};
ghost use Rattle.word_tests.specs.Tried.{IsTried};

use crate::quiet::Quiet;
use crate::steps::Grid;
use cell_file::Keys;
use cell_grid::{Extent, Geometry, Kind, Level};
use cell_store::{MemStore, Store};
use pin_rule::{Pass, Pins};
use plain_data::is_root_name;
use std::alloc::{AllocError, Global};
use std::collections::BTreeMap;
use std::process::Abort;
use std::test::Fail;

/// Three cells of eight voxels of one byte.
pub fn grid(rt: &impl Abort, alloc: Global) -> Result<Grid, Fail>
    ensures sizes { IfOk result (λ r. (cells_of r.0 ≡ 3) × (frame_of r.0 ≡ 8) × (r.1.levels ≡ r.0)) }
{
    let level = Level {
        extent: Extent::new([6, 2, 2], [2, 2, 2])?,
        factor: [1, 1, 1],
        kind: Kind::U8,
    };
    let geometry = Geometry::new(vec![in alloc; level]?)?;
    assert!(rt; is_root_name(b"vol"));
    assert_eq!(rt; geometry.levels(), 1);
    assert_eq!(rt; geometry.cells(), 3);
    assert_eq!(rt; geometry.frame(), 8);
    let keys = Keys::new(&geometry, "vol", true)?;
    Ok((geometry, keys))
}

/// A table of two slots over one empty store that tells nothing, whose calls of these numbers fail.
pub fn table(alloc: Global, grid: &Grid, fail: Vec<u64>) -> Result<(Pins<Quiet>, Pass<Quiet>), Fail>
    requires sizes { (cells_of grid.now.0 ≡ 3) × (frame_of grid.now.0 ≡ 8) × (grid.now.1.levels ≡ grid.now.0) }
    ensures tried { IfOk result (λ r. IsTried grid.now.0 grid.now.1 r.0) }
    ensures pass { IfOk result (λ r. IsPassOf r.0 r.1 × IsFirst (view r.1)) }
{
    let store = MemStore::new(alloc, BTreeMap::new(alloc), fail);
    table_over(alloc, grid, vec![in alloc; Quiet { store }]?)
}

/// A table of two slots over one store.
pub fn table_over<S: Store + Drop>(
    alloc: Global,
    grid: &Grid,
    stores: Vec<S>,
) -> Result<(Pins<S>, Pass<S>), Fail>
    requires sizes { (cells_of grid.now.0 ≡ 3) × (frame_of grid.now.0 ≡ 8) × (grid.now.1.levels ≡ grid.now.0) }
    requires store { length stores.items ≡ 1 }
    ensures tried { IfOk result (λ r. IsTried grid.now.0 grid.now.1 r.0) }
    ensures pass { IfOk result (λ r. IsPassOf r.0 r.1 × IsFirst (view r.1)) }
{
    let (geometry, keys) = grid;
    match Pins::new(alloc, geometry, keys, 2, stores) {
        Ok(made) => Ok(made),
        Err(_) => Err(AllocError.into()),
    }
}
