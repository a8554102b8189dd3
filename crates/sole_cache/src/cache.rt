//! The cache: a table from cells to slots, the slots, and the stores.
ghost use Rattle.std.specs.Prelude.{◌≡◌, ℕ, ◌<◌};

use crate::slot::Slot;
use arr_history::{Tally, Unsaved};
use cell_file::Keys;
use cell_grid::Geometry;
use cell_store::Store;
use recency::Recency;
use std::marker::Model;

mod acquire;
mod find;
mod open;
mod shut;
mod steps;
mod voxels;

/// Cells of a pyramid, loaded into slots from one or more stores.
///
/// All memory is taken by `new`. A cell belongs to the store of number `cell mod stores`.
#[derive(Drop)]
pub struct SoleCache<S: Store> {
    geometry: Geometry,
    keys: Keys,
    stores: Vec<S>,
    // the slot of each cell
    table: Vec<Option<u32>>,
    slots: Vec<Slot>,
    // which slots have a pin
    pinned: Vec<bool>,
    recency: Recency,
    // each slot below this one has a cell
    free_from: usize,
    // a frame into which the next cell is decoded, and the bytes got and put
    spare: Vec<u64>,
    got: Vec<u8>,
    put: Vec<u8>,
    // room for the cells that shutting can't put
    unsaved: Vec<Unsaved>,
    tally: Tally,
}

impl<S: Store> Model for SoleCache<S> {
    ghost use Rattle.std.specs.Vec.{vec_capacity};
    ghost use Rattle.std.specs.Prelude.{map};
    ghost use Rattle.sole_cache.specs.Cached.{Cached};
    ghost use Rattle.sole_cache.specs.Valid.{IsFrameKept};

    ghost Value = { Cached };

    ghost view = { λ c. record { levels = c.geometry; keys = c.keys; shown = map S.contents c.stores.items; table = c.table.items; slots = c.slots.items; order = c.recency; tally = c.tally; unsaved = c.unsaved.items } };

    ghost invariant = { λ c. IsFrameKept (record { levels = c.geometry; keys = c.keys; shown = map S.contents c.stores.items; table = c.table.items; slots = c.slots.items; order = c.recency; tally = c.tally; unsaved = c.unsaved.items }) c.pinned.items c.free_from c.spare.items c.put.items (vec_capacity c.unsaved) };
}
