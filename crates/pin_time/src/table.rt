// The table that is timed: two cells, two slots, and two stores that tell nothing.
ghost use Rattle.std.specs.Prelude.{◌≡◌, ℕ, ◌≤◌, IfSome, slice_index};
ghost use Rattle.cell_grid.specs.declared.kind.Kind.TheVariants.{U8};
ghost use Rattle.cell_grid.specs.Pyramid.{cells_of, frame_of, voxels_of, kind_of};
ghost use Rattle.pin_rule.specs.Calls.{view, IsPassOf};
ghost use Rattle.pin_rule.specs.Trying.{IsFirst};
ghost use Rattle.pin_time.specs.Timed.{IsTimed};

use cell_file::Keys;
use cell_grid::{Extent, Geometry, Kind, Level};
use cell_store::{Got, MemStore, Put, Store};
use pin_rule::{Pass, Pins};
use plain_data::is_root_name;
use std::alloc::Global;
use std::collections::BTreeMap;

/// A store in memory that tells neither what it holds nor its log.
#[derive(Drop)]
pub struct Quiet {
    store: MemStore,
}

impl Store for Quiet {
    ghost use Rattle.cell_store.specs.Store.{untold};
    ghost use Rattle.cell_store.specs.MemStore.{contents_of};

    ghost contents = { λ s. untold (contents_of s.store).faults };

    fn get(&mut self, key: &str, limit: u64, into: &mut Vec<u8>) -> Got {
        self.store.get(key, limit, into)
    }

    fn put(&mut self, key: &str, bytes: &[u8]) -> Put {
        self.store.put(key, bytes)
    }
}

/// Two cells of 64 voxels of one byte.
pub fn geometry(alloc: Global) -> Option<Geometry>
    ensures sizes { IfSome result (λ g. (cells_of g ≡ 2) × (frame_of g ≡ 64)) }
    ensures first { IfSome result (λ g. (voxels_of g 0 ≡ 64) × (kind_of g 0 ≡ U8)) }
    ensures second { IfSome result (λ g. (voxels_of g 1 ≡ 64) × (kind_of g 1 ≡ U8)) }
{
    let level = Level {
        extent: Extent::new([8, 4, 4], [4, 4, 4]).ok()?,
        factor: [1, 1, 1],
        kind: Kind::U8,
    };
    let geometry = Geometry::new(vec![in alloc; level].ok()?).ok()?;
    if geometry.cells() != 2 || geometry.frame() != 64 {
        return None;
    }
    if geometry.voxels(0) != 64 || geometry.kind(0) != Kind::U8 {
        return None;
    }
    if geometry.voxels(1) != 64 || geometry.kind(1) != Kind::U8 {
        return None;
    }
    Some(geometry)
}

/// A table of two slots over two empty stores.
pub fn table(alloc: Global, geometry: &Geometry) -> Option<(Pins<Quiet>, Pass<Quiet>)>
    requires sizes { (cells_of geometry.now ≡ 2) × (frame_of geometry.now ≡ 64) }
    requires first { (voxels_of geometry.now 0 ≡ 64) × (kind_of geometry.now 0 ≡ U8) }
    requires second { (voxels_of geometry.now 1 ≡ 64) × (kind_of geometry.now 1 ≡ U8) }
    ensures timed { IfSome result (λ r. IsTimed r.0 0 × IsTimed r.0 1) }
    ensures pass { IfSome result (λ r. IsPassOf r.0 r.1 × IsFirst (view r.1)) }
{
    let keys = keys(geometry)?;
    let stores = vec![in alloc; empty(alloc), empty(alloc)].ok()?;
    match Pins::new(alloc, geometry, &keys, 2, stores) {
        Ok(made) => Some(made),
        Err(_) => None,
    }
}

fn keys(geometry: &Geometry) -> Option<Keys>
    ensures { IfSome result (λ k. k.levels ≡ geometry.now) }
{
    if geometry.levels() != 1 || !is_root_name(b"vol") {
        return None;
    }
    Keys::new(geometry, "vol", true).ok()
}

fn empty(alloc: Global) -> Quiet {
    Quiet {
        store: MemStore::new(alloc, BTreeMap::new(alloc), Vec::new(alloc)),
    }
}

/// The numbers of a frame that is filled.
pub fn ones() -> [u64; 64]
    ensures bytes { (i : ℕ) → slice_index result i ≤ 255 }
{
    [1; 64]
}
