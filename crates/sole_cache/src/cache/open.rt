//! Making a cache.
ghost use Rattle.std.specs.Prelude.{◌≡◌, ℕ, ◌+◌, ◌*◌, ◌^◌, ◌<◌, ◌≤◌, [], false, None, IfOk, IfErr, length, replicate, map};
ghost use Rattle.std.specs.Vec.{vec_capacity};
ghost use Rattle.cell_grid.specs.Pyramid.{cells_of, frame_of, IsPyramid};
ghost use Rattle.recency.specs.Order.{opening_order};
ghost use Rattle.sole_cache.specs.Open.{free_slot, IsOpened};

use crate::cache::SoleCache;
use crate::slot::Slot;
use arr_history::{Tally, Unmade, Unsaved};
use cell_file::Keys;
use cell_grid::Geometry;
use cell_store::Store;
use recency::Recency;
use std::alloc::{AllocError, Global};

/// The longest head of a block, and the most bytes of an element.
const HEAD: usize = 16;

const WIDEST: usize = 8;

impl<S: Store> SoleCache<S> {
    /// A cache of this many slots over these stores, with no cell live. Takes memory for the slots and their frames, for a
    /// spare frame, for two blocks and for a number of each cell; no later call takes any. Where memory is wanting the stores
    /// come back.
    pub fn new(
        alloc: Global,
        geometry: Geometry,
        keys: Keys,
        slots: u32,
        stores: Vec<S>,
    ) -> Result<SoleCache<S>, Unmade<S>>
        requires made { keys.levels ≡ geometry }
        requires some_slots { 2 ≤ slots }
        requires few_slots { slots ≤ 4096 }
        requires few_words { slots * frame_of geometry ≤ 2 ^ 24 }
        requires some_stores { 1 ≤ length stores.items }
        requires few_stores { length stores.items ≤ 16 }
        ensures opened { IfOk result (λ cache. IsOpened geometry keys slots (cache)) }
        ensures stores { IfOk result (λ cache. cache.shown ≡ map S.contents stores.items) }
        ensures unmade { IfErr result (λ unmade. unmade.stores.items ≡ stores.items) }
    {
        let _plain = keys.plain(); // read for what its contract tells the proof
        match take_parts(alloc, &geometry, slots) {
            Ok(parts) => Ok(SoleCache {
                geometry,
                keys,
                stores,
                table: parts.table,
                slots: parts.slots,
                pinned: parts.pinned,
                recency: parts.recency,
                free_from: 0,
                spare: parts.spare,
                got: parts.got,
                put: parts.put,
                unsaved: parts.unsaved,
                tally: Tally::default(),
            }),
            Err(_) => Err(Unmade { stores }),
        }
    }
}

/// All for which a cache takes memory.
#[derive(Drop)]
struct Parts {
    table: Vec<Option<u32>>,
    slots: Vec<Slot>,
    pinned: Vec<bool>,
    recency: Recency,
    spare: Vec<u64>,
    got: Vec<u8>,
    put: Vec<u8>,
    unsaved: Vec<Unsaved>,
}

/// The parts of a cache in which no cell is live.
fn take_parts(alloc: Global, geometry: &Geometry, slots: u32) -> Result<Parts, AllocError>
    requires some_slots { 2 ≤ slots }
    requires few_slots { slots ≤ 4096 }
    ensures table { IfOk result (λ parts. parts.table.items ≡ replicate (cells_of geometry.now) None) }
    ensures slots { IfOk result (λ parts. parts.slots.items ≡ replicate slots (free_slot (frame_of geometry.now))) }
    ensures pinned { IfOk result (λ parts. parts.pinned.items ≡ replicate slots false) }
    ensures order { IfOk result (λ parts. parts.recency ≡ opening_order slots) }
    ensures spare { IfOk result (λ parts. length parts.spare.items ≡ frame_of geometry.now) }
    ensures put { IfOk result (λ parts. length parts.put.items ≡ 16 + 8 * frame_of geometry.now) }
    ensures unsaved { IfOk result (λ parts. parts.unsaved.items ≡ []) }
    ensures room { IfOk result (λ parts. slots ≤ vec_capacity parts.unsaved) }
    ensures pyramid { IfOk result (λ _. IsPyramid geometry.now) }
{
    let frame = geometry.frame() as usize;
    let block = HEAD + WIDEST * frame;
    Ok(Parts {
        table: vec![in alloc; None; geometry.cells() as usize]?,
        slots: free_slots(alloc, slots, frame)?,
        pinned: vec![in alloc; false; slots as usize]?,
        recency: Recency::new(alloc, slots)?,
        spare: vec![in alloc; 0; frame]?,
        got: Vec::with_capacity(alloc, block)?,
        put: vec![in alloc; 0; block]?,
        unsaved: Vec::with_capacity(alloc, slots as usize)?,
    })
}

/// Slots without cells, each with a frame of this many voxels.
fn free_slots(alloc: Global, count: u32, frame: usize) -> Result<Vec<Slot>, AllocError>
    ensures { IfOk result (λ slots. slots.items ≡ replicate count (free_slot frame)) }
{
    let mut slots = Vec::with_capacity(alloc, count as usize)?;
    for _slot in 0..count {
        slots.push(Slot {
            cell: None,
            pins: 0,
            marked: false,
            frame: vec![in alloc; 0; frame]?,
        })?;
    }
    Ok(slots)
}
