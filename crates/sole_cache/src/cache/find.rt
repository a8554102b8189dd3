//! What is found without a change.
ghost use Rattle.std.specs.Prelude.{◌≡◌, ◌≢◌, ℕ, ◌<◌, ◌≤◌, length, Some, None, IfSome, IfNone, slice_set};
ghost use Rattle.cell_grid.specs.Pyramid.{cells_of};
ghost use Rattle.recency.specs.Order.{victim_of};
ghost use Rattle.sole_cache.specs.Cached.{slot_of, slot_at};
ghost use Rattle.sole_cache.specs.Valid.{IsCache};
ghost use Rattle.sole_cache.specs.Room.{IsLowestFree, IsFull, pinned};

use crate::cache::SoleCache;
use crate::slot::{cell_of, first_free, is_marked};
use cell_grid::Geometry;
use cell_store::Store;

impl<S: Store> SoleCache<S> {
    /// The levels of its pyramid.
    pub fn geometry(&self) -> &Geometry
        ensures { result.now ≡ self.now.levels }
    {
        &self.geometry
    }

    /// The slot of a cell.
    pub(crate) fn slot_of(&self, cell: u32) -> Option<u32>
        requires { cell < cells_of self.now.levels }
        ensures slot { result ≡ slot_of self.now cell }
        ensures inside { cell < length self.now.table }
        ensures valid { IsCache self.now }
    {
        self.table[cell as usize]
    }

    /// The cell of a slot.
    pub(crate) fn owner(&self, slot: u32) -> Option<u32>
        requires { slot < length self.now.slots }
        ensures owner { result ≡ (slot_at self.now slot).cell }
        ensures valid { IsCache self.now }
    {
        cell_of(self.slots.as_slice(), slot as usize)
    }

    /// Whether a live cell is marked.
    pub(crate) fn is_marked(&self, cell: u32, slot: u32) -> bool
        requires { slot_of self.now cell ≡ Some slot }
        ensures marked { result ≡ (slot_at self.now slot).marked }
        ensures valid { IsCache self.now }
    {
        let _ = cell;
        is_marked(self.slots.as_slice(), slot as usize)
    }

    /// The lowest slot without a cell.
    pub(crate) fn lowest_free(&mut self) -> Option<u32>
        ensures lowest { IsLowestFree self.old.slots result }
        ensures same { self.new ≡ self.old }
        ensures valid { IsCache self.old }
    {
        let free = first_free(self.slots.as_slice(), self.free_from);
        self.free_from = match free {
            Some(slot) => slot as usize,
            None => self.slots.len(),
        };
        free
    }

    /// Remembers that each slot has a cell.
    pub(crate) fn all_taken(&mut self)
        requires { IsLowestFree self.old.slots None }
        ensures { self.new ≡ self.old }
    {
        self.free_from = self.slots.len();
    }

    /// The slot whose cell leaves next: the first in the order that nobody has pinned.
    pub(crate) fn victim(&self) -> Option<u32>
        requires { IsLowestFree self.now.slots None }
        ensures first { result ≡ victim_of self.now.order (pinned self.now.slots) }
        ensures some { IfSome result (λ slot. (slot < length self.now.slots) × (((slot_at self.now slot).pins ≡ 0) × ((slot_at self.now slot).cell ≢ None))) }
        ensures none { IfNone result (IsFull self.now) }
        ensures valid { IsCache self.now }
    {
        self.recency.victim(self.pinned.as_slice())
    }
}
