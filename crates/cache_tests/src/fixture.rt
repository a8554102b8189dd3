// Two volumes, and caches over them: a pyramid of five cells of four voxels, and three cells of eight voxels in two slots.
ghost use Rattle.std.specs.Prelude.{◌≡◌, IfOk};
ghost use Rattle.sole_cache.specs.Cached.{handles_out};

use cell_file::Keys;
use cell_grid::{Extent, Geometry, Kind, Level};
use cell_store::MemStore;
use plain_data::is_root_name;
use sole_cache::SoleCache;
use std::alloc::Global;
use std::collections::BTreeMap;
use std::process::Abort;
use std::test::Fail;

/// Four cells of four voxels, and a coarser level of one cell.
pub(crate) fn pyramid(alloc: Global) -> Result<Geometry, Fail> {
    let fine = Level {
        extent: Extent::new([4, 4, 1], [2, 2, 1])?,
        factor: [1, 1, 1],
        kind: Kind::U8,
    };
    let coarse = Level {
        extent: Extent::new([2, 2, 1], [2, 2, 1])?,
        factor: [2, 2, 1],
        kind: Kind::U8,
    };
    Ok(Geometry::new(vec![in alloc; fine, coarse]?)?)
}

/// A store that holds blocks of cell 1 and of the coarse one. Under the key of cell 2 it may hold what is no block.
fn store(alloc: Global, has_bad_block: bool) -> Result<MemStore, Fail> {
    let fine = [0, 0, 0, 3, 0, 0, 0, 2, 0, 0, 0, 2, 0, 0, 0, 1, 5, 6, 7, 8];
    let coarse = [
        0, 0, 0, 3, 0, 0, 0, 2, 0, 0, 0, 2, 0, 0, 0, 1, 11, 12, 13, 14,
    ];
    let mut held = BTreeMap::new(alloc);
    let key = format!(in alloc; "pyr/setup0/timepoint0/s0/1/0/0")?;
    let _ = held.insert(key, Vec::from_array(alloc, fine)?)?;
    let key = format!(in alloc; "pyr/setup0/timepoint0/s1/0/0/0")?;
    let _ = held.insert(key, Vec::from_array(alloc, coarse)?)?;
    if has_bad_block {
        let key = format!(in alloc; "pyr/setup0/timepoint0/s0/0/1/0")?;
        let _ = held.insert(key, Vec::from_array(alloc, [0, 0, 0])?)?;
    }
    Ok(MemStore::new(alloc, held, Vec::new(alloc)))
}

/// A cache of eight slots over that store, without the bad block.
pub(crate) fn cache(
    alloc: Global,
    geometry: &Geometry,
    rt: &impl Abort,
) -> Result<SoleCache<MemStore>, Fail>
    ensures free { IfOk result (λ cache. handles_out cache ≡ 0) }
    ensures levels { IfOk result (λ cache. cache.levels ≡ geometry.now) }
{
    cache_over(alloc, geometry, store(alloc, false)?, rt)
}

/// The same with it.
pub(crate) fn cache_with_a_bad_block(
    alloc: Global,
    geometry: &Geometry,
    rt: &impl Abort,
) -> Result<SoleCache<MemStore>, Fail>
    ensures free { IfOk result (λ cache. handles_out cache ≡ 0) }
    ensures levels { IfOk result (λ cache. cache.levels ≡ geometry.now) }
{
    cache_over(alloc, geometry, store(alloc, true)?, rt)
}

fn cache_over(
    alloc: Global,
    geometry: &Geometry,
    store: MemStore,
    rt: &impl Abort,
) -> Result<SoleCache<MemStore>, Fail>
    ensures free { IfOk result (λ cache. handles_out cache ≡ 0) }
    ensures levels { IfOk result (λ cache. cache.levels ≡ geometry.now) }
{
    let own = geometry.copy()?;
    assert!(rt; is_root_name(b"pyr"));
    assert!(rt; own.frame() <= 4);
    let keys = Keys::new(&own, "pyr", false)?;
    match SoleCache::new(alloc, own, keys, 8, vec![in alloc; store]?) {
        Ok(cache) => Ok(cache),
        Err(_) => Err(Fail::new("out of memory")),
    }
}

/// Three cells in a row, one level.
fn row(alloc: Global) -> Result<Geometry, Fail> {
    let level = Level {
        extent: Extent::new([6, 2, 2], [2, 2, 2])?,
        factor: [1, 1, 1],
        kind: Kind::U8,
    };
    Ok(Geometry::new(vec![in alloc; level]?)?)
}

/// A cache of two slots over those, with one store in memory.
pub(crate) fn two_slots(
    alloc: Global,
    store: MemStore,
    rt: &impl Abort,
) -> Result<SoleCache<MemStore>, Fail>
    ensures { IfOk result (λ cache. handles_out cache ≡ 0) }
{
    let geometry = row(alloc)?;
    assert!(rt; is_root_name(b"vol"));
    assert!(rt; geometry.levels() == 1);
    assert!(rt; geometry.frame() <= 8);
    let keys = Keys::new(&geometry, "vol", true)?;
    match SoleCache::new(alloc, geometry, keys, 2, vec![in alloc; store]?) {
        Ok(cache) => Ok(cache),
        Err(_) => Err(Fail::new("out of memory")),
    }
}

/// A store that holds nothing, whose calls of these numbers fail.
pub(crate) fn empty(alloc: Global, fail: Vec<u64>) -> MemStore {
    MemStore::new(alloc, BTreeMap::new(alloc), fail)
}
