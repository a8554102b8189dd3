//! Getting and putting a cell, by the store that it belongs to.
ghost use Rattle.std.specs.Prelude.{◌≡◌, ◌≢◌, ◌⊎◌, ℕ, ◌+◌, ◌*◌, ◌<◌, ◌≤◌, List, [], ◌∷◌, IsTrue, true, false, Some, Err, OnOk, OnErr, IfErr, length, map, take, slice_index, slice_set};
ghost use Rattle.cell_grid.specs.Kind.{greatest_of};
ghost use Rattle.cell_grid.specs.Pyramid.{cells_of, voxels_of, sides_of, kind_of, lane_of};
ghost use Rattle.cell_store.specs.Faults.{Rose};
ghost use Rattle.n5_block.specs.Block.{block};
ghost use Rattle.cell_store.specs.declared.store.Put.{Put};
ghost use Rattle.store_calls.specs.Calls.{StoreCall, AreCalled};
ghost use Rattle.cell_file.specs.Asks.{AreFetch, save_answer, save_call};
ghost use Rattle.cell_file.specs.File.{IsCauseOf};
ghost use Rattle.cell_file.specs.Keys.{edited_key};
ghost use Rattle.cell_file.specs.Standing.{width_of, standing, refusal_of};
ghost use Rattle.sole_cache.specs.Slot.{slot_in};
ghost use Rattle.sole_cache.specs.Cached.{store_in};
ghost use Rattle.sole_cache.specs.Moves.{Fetched, Saved};
ghost use Rattle.cell_store.specs.Store.{held_of};

use crate::slot::Slot;
use cell_file::{FetchErr, Keys, SaveErr, fetch, save};
use cell_grid::{Geometry, lane};
use cell_store::Store;

/// Fetches a cell's values to the front of a frame, from the cell's store.
pub fn fetch_cell<S: Store>(
    stores: &mut Vec<S>,
    keys: &Keys,
    geometry: &Geometry,
    cell: u32,
    got: &mut Vec<u8>,
    frame: &mut Vec<u64>,
) -> Result<(), FetchErr>
    requires made { keys.now.levels ≡ geometry.now }
    requires cell { cell < cells_of geometry.now }
    requires room { voxels_of geometry.now cell ≤ length frame.old.items }
    requires some { 0 < length stores.old.items }
    requires few { length stores.old.items ≤ 16 }

    ensures one { let lane = lane_of cell (length (map S.contents stores.old.items)) in map S.contents stores.new.items ≡ slice_set (map S.contents stores.old.items) lane (store_in (map S.contents stores.new.items) lane) }
    ensures fetched { let lane = lane_of cell (length (map S.contents stores.old.items)) in OnOk result (Fetched (edited_key geometry.now cell) true (store_in (map S.contents stores.old.items) lane) (store_in (map S.contents stores.new.items) lane)) }
    ensures not_fetched { let lane = lane_of cell (length (map S.contents stores.old.items)) in OnErr result (Fetched (edited_key geometry.now cell) false (store_in (map S.contents stores.old.items) lane) (store_in (map S.contents stores.new.items) lane)) }
    ensures values { let before = store_in (map S.contents stores.old.items) (lane_of cell (length (map S.contents stores.old.items))) in IsTrue before.told → OnOk result (standing geometry.now keys.now (held_of before) cell ≡ Some (take (voxels_of geometry.now cell) frame.new.items)) }
    ensures refused { let before = store_in (map S.contents stores.old.items) (lane_of cell (length (map S.contents stores.old.items))) in IsTrue before.told → IfErr result (λ err. IsCauseOf (refusal_of geometry.now keys.now (held_of before) cell) err) }
    ensures read_fault { let lane = lane_of cell (length (map S.contents stores.old.items)) in result ≡ Err FetchErr.ReadFault → Rose (store_in (map S.contents stores.old.items) lane).faults (store_in (map S.contents stores.new.items) lane).faults }
    ensures fits { OnOk result ((i : ℕ) → i < voxels_of geometry.now cell → slice_index frame.new.items i ≤ greatest_of (kind_of geometry.now cell)) }
    ensures length { length frame.new.items ≡ length frame.old.items }

    // The calls of the stores.
    ensures called { let lane = lane_of cell (length (map S.contents stores.old.items)) in (calls : List StoreCall) × AreFetch geometry.now keys.now lane cell result calls × AreCalled calls (map S.contents stores.old.items) (map S.contents stores.new.items) }
{
    let lane = lane(cell, stores.len() as u32) as usize;
    fetch(
        &mut stores[lane],
        keys,
        geometry,
        cell,
        got,
        frame.as_mut_slice(),
    )
}

/// Puts the values of a slot's frame as a cell's block, into the cell's store.
pub fn save_cell<S: Store>(
    stores: &mut Vec<S>,
    keys: &Keys,
    geometry: &Geometry,
    cell: u32,
    slots: &[Slot],
    slot: usize,
    put: &mut Vec<u8>,
) -> Result<(), SaveErr>
    requires made { keys.now.levels ≡ geometry.now }
    requires cell { cell < cells_of geometry.now }
    requires slot { slot < length slots.now }
    requires frame { voxels_of geometry.now cell ≤ length (slot_in slots.now slot).frame }
    requires fits { (i : ℕ) → i < voxels_of geometry.now cell → slice_index (slot_in slots.now slot).frame i ≤ greatest_of (kind_of geometry.now cell) }
    requires room { 16 + width_of geometry.now cell * voxels_of geometry.now cell ≤ length put.old.items }
    requires some { 0 < length stores.old.items }
    requires few { length stores.old.items ≤ 16 }

    ensures one { let lane = lane_of cell (length (map S.contents stores.old.items)) in map S.contents stores.new.items ≡ slice_set (map S.contents stores.old.items) lane (store_in (map S.contents stores.new.items) lane) }
    ensures saved { let lane = lane_of cell (length (map S.contents stores.old.items)) in OnOk result (Saved (edited_key geometry.now cell) true (store_in (map S.contents stores.old.items) lane) (store_in (map S.contents stores.new.items) lane)) }
    ensures not_saved { let lane = lane_of cell (length (map S.contents stores.old.items)) in OnErr result (Saved (edited_key geometry.now cell) false (store_in (map S.contents stores.old.items) lane) (store_in (map S.contents stores.new.items) lane)) }
    ensures stands { let lane = lane_of cell (length (map S.contents stores.old.items)) in IsTrue (store_in (map S.contents stores.old.items) lane).told → OnOk result (standing geometry.now keys.now (held_of (store_in (map S.contents stores.new.items) lane)) cell ≡ Some (take (voxels_of geometry.now cell) (slot_in slots.now slot).frame)) }
    ensures bytes { let lane = lane_of cell (length (map S.contents stores.old.items)) in IsTrue (store_in (map S.contents stores.old.items) lane).told → OnOk result ((held_of (store_in (map S.contents stores.new.items) lane)) (edited_key geometry.now cell) ≡ Some (block (width_of geometry.now cell) (sides_of geometry.now cell) (take (voxels_of geometry.now cell) (slot_in slots.now slot).frame))) }
    ensures others { let lane = lane_of cell (length (map S.contents stores.old.items)) in IsTrue (store_in (map S.contents stores.old.items) lane).told → (other : ℕ) → other < cells_of geometry.now → other ≢ cell → standing geometry.now keys.now (held_of (store_in (map S.contents stores.new.items) lane)) other ≡ standing geometry.now keys.now (held_of (store_in (map S.contents stores.old.items) lane)) other }
    ensures write_fault { let lane = lane_of cell (length (map S.contents stores.old.items)) in result ≡ Err SaveErr.WriteFault → Rose (store_in (map S.contents stores.old.items) lane).faults (store_in (map S.contents stores.new.items) lane).faults }
    ensures length { length put.new.items ≡ length put.old.items }

    // The call of the stores.
    ensures called { let lane = lane_of cell (length (map S.contents stores.old.items)) in (answer : Put) × (result ≡ save_answer answer) × AreCalled (save_call geometry.now lane cell (take (voxels_of geometry.now cell) (slot_in slots.now slot).frame) answer ∷ []) (map S.contents stores.old.items) (map S.contents stores.new.items) }
{
    let lane = lane(cell, stores.len() as u32) as usize;
    let voxels = geometry.voxels(cell) as usize;
    let slot = &slots[slot];
    save(
        &mut stores[lane],
        keys,
        geometry,
        cell,
        &slot.frame[..voxels],
        put.as_mut_slice(),
    )
}
