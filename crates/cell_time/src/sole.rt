// The cache of one thread.
ghost use Rattle.std.specs.Prelude.{◌≡◌, ◌≤◌, IfSome};
ghost use Rattle.sole_cache.specs.Cached.{handles_out};

use crate::blank::Blank;
use crate::grid::{geometry, keys, stores};
use crate::request::{Request, What, is_set, voxel_for};
use sole_cache::SoleCache;
use std::alloc::Global;

/// How often it was done. None where memory wanted.
pub fn done_alone(alloc: Global, request: Request) -> Option<u64>
    requires slots { (2 ≤ request.slots) × (request.slots ≤ 4096) }
{
    let mut cache = cache(alloc, request.slots)?;
    let done = rounds_done(&mut cache, request);
    let _closed = cache.shut();
    Some(done)
}

fn cache(alloc: Global, slots: u32) -> Option<SoleCache<Blank>>
    requires slots { (2 ≤ slots) × (slots ≤ 4096) }
    ensures { IfSome result (λ cache. handles_out cache ≡ 0) }
{
    let geometry = geometry(alloc)?;
    let keys = keys(&geometry)?;
    SoleCache::new(alloc, geometry, keys, slots, stores(alloc)?).ok()
}

fn rounds_done(cache: &mut SoleCache<Blank>, request: Request) -> u64
    requires free { handles_out cache.old ≡ 0 }
    ensures free { handles_out cache.new ≡ 0 }
{
    let mut done: u64 = 0;
    for round in 0..request.rounds {
        if is_done(cache, request.what, round) {
            done = done.wrapping_add(1);
        }
    }
    done
}

fn is_done(cache: &mut SoleCache<Blank>, what: What, round: u32) -> bool
    requires free { handles_out cache.old ≡ 0 }
    ensures free { handles_out cache.new ≡ 0 }
{
    let voxel = voxel_for(what, 0, round);
    if is_set(what) {
        cache.set(0, voxel, 1).is_ok()
    } else {
        cache.get(0, voxel).is_ok()
    }
}
