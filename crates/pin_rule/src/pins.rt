// The table of a cache, and where its words lie.
ghost use Rattle.std.specs.Prelude.{◌≡◌, ◌+◌, ◌*◌, ◌<◌, length};
ghost use Rattle.cell_grid.specs.Pyramid.{cells_of, frame_of};
ghost use Rattle.pin_rule.specs.Plans.{IsTable};

use crate::made::Made;
use crate::pass::View;
use crate::plays::Kept;
use atomic_table::{Shared, Table};
use cell_file::Keys;
use cell_grid::Geometry;
use cell_store::Store;
use std::alloc::Global;

pub(crate) type Words<S> = Shared<Option<S>, View<S>, Made<S>, Kept>;

/// The cells of a cache over shared words. Threads share it by reference, and each pass steps in it without a lock.
///
/// Word 0 is 0. Then there is one word for each cell, one for each slot, one for each lane, and one for each voxel of each
/// slot's frame.
pub struct Pins<S: Store> {
    pub(crate) alloc: Global,
    pub(crate) geometry: Geometry,
    pub(crate) keys: Keys,
    pub(crate) cells: usize,
    pub(crate) slots: usize,
    pub(crate) lanes: usize,
    pub(crate) frame: usize,
    pub(crate) table: Table<Option<S>, View<S>, Made<S>, Kept, Global>,
    ghost whole: { IsTable table.shared.key table.shared.table_id.words table.shared.table_id.slots },
    ghost sized: { (cells ≡ cells_of table.shared.key.levels.value) × (slots ≡ table.shared.key.slots) × (lanes ≡ length table.shared.key.stores.value.items) × (frame ≡ frame_of table.shared.key.levels.value) },
    ghost same: { (geometry ≡ table.shared.key.levels.value) × (keys ≡ table.shared.key.keys.value) },
}

impl<S: Store> Pins<S> {
    ghost use Rattle.std.specs.Prelude.{Some, ◌≤◌};
    ghost use Rattle.pin_words.specs.Layout.{slot_at, lane_at, frame_at};
    ghost use Rattle.pin_rule.specs.Calls.{plan_at, slot_count, lane_count, made_of};

    /// The levels of its pyramid.
    pub fn geometry(&self) -> &Geometry
        ensures { result.now ≡ (made_of self.now).levels.value }
    {
        &self.geometry
    }

    /// The keys of its cells, which are those of its levels.
    pub fn keys(&self) -> &Keys
        ensures same { result.now ≡ (made_of self.now).keys.value }
        ensures levels { result.now.levels ≡ (made_of self.now).levels.value }
    {
        &self.keys
    }

    /// How many slots there are.
    pub fn slots(&self) -> u32
        ensures count { result ≡ slot_count self.now }
        ensures some { (2 ≤ result) × (result ≤ 4096) }
    {
        self.slots as u32
    }

    /// How many lanes there are.
    pub fn lanes(&self) -> u32
        ensures count { result ≡ lane_count self.now }
        ensures some { (0 < result) × (result ≤ 16) }
    {
        self.lanes as u32
    }

    // The index of a slot's word.
    pub(crate) fn slot_index(&self, slot: u32) -> usize
        requires { slot < slot_count self.now }
        ensures at { result ≡ slot_at (plan_at S.contents self.now) slot }
        ensures inside { result < self.now.table.shared.table_id.words }
    {
        1 + self.cells + slot as usize
    }

    // The index of a lane's word.
    pub(crate) fn lane_index(&self, lane: u32) -> usize
        requires { lane < lane_count self.now }
        ensures at { result ≡ lane_at (plan_at S.contents self.now) lane }
        ensures inside { result < self.now.table.shared.table_id.words }
    {
        1 + self.cells + self.slots + lane as usize
    }

    // The index of a word in a slot's frame.
    pub(crate) fn frame_index(&self, slot: u32, at: usize) -> usize
        requires { (slot < slot_count self.now) × (at < frame_of (made_of self.now).levels.value) }
        ensures at { result ≡ frame_at (plan_at S.contents self.now) slot at }
        ensures inside { result < self.now.table.shared.table_id.words }
    {
        1 + self.cells + self.slots + self.lanes + (slot as usize * self.frame + at)
    }
}
