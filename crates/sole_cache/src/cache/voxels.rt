//! Reading and writing voxels, by handles and by positions.
ghost use Rattle.std.specs.Prelude.{◌≡◌, ◌≢◌, ℕ, ◌+◌, ◌^◌, ◌<◌, ◌≤◌, List, [], ◌∷◌, ◌++◌, IsTrue, Ok, Some, None, Err, OnOk, OnErr, IfOk, length, slice_index};
ghost use Rattle.cell_grid.specs.Pyramid.{cells_of, voxels_of, kind_of};
ghost use Rattle.cell_grid.specs.Kind.{greatest_of};
ghost use Rattle.store_calls.specs.Calls.{StoreCall};
ghost use Rattle.arr_history.specs.declared.event.Event.{Event};
ghost use Rattle.arr_history.specs.declared.event.Event.TheVariants as happening;
ghost use Rattle.sole_cache.specs.Cached.{slot_of, slot_at, state_of, handles_out};
ghost use Rattle.sole_cache.specs.Valid.{IsCache};
ghost use Rattle.sole_cache.specs.Moves.{Runs, IsStoodFor};
ghost use Rattle.sole_cache.specs.Handle.{Handle, IsHandleOf};
ghost use Rattle.sole_cache.specs.Pieces.{IsCellCaused};
ghost use Rattle.sole_cache.specs.Acquires.{Quiet, GetsVoxel, SetsVoxel};

use crate::cache::SoleCache;
use crate::handle::SoleHandle;
use crate::slot::{frame_of, set_value, value_of};
use cell_file::CellErr;
use cell_store::Store;

impl<S: Store> SoleCache<S> {
    /// The number of a voxel of a pinned cell. It takes no memory, and one step.
    pub fn read(&mut self, h: &SoleHandle, at: u32) -> u64
        requires handle { IsHandleOf self.old h.now }
        requires at { at < voxels_of self.old.levels h.now.cell }
        ensures value { result ≡ (state_of self.old).arrays h.now.cell at }
        ensures runs { Runs self.old (happening.Read 0 h.now.cell at result ∷ []) self.new }
        ensures unchanged { self.new ≡ self.old }
        ensures valid { IsCache self.new }
    {
        value_of(self.slots.as_slice(), h.slot() as usize, at as usize)
    }

    /// The numbers of a pinned cell, one for each of its voxels, and those of a greater cell that was in its frame before. To read one
    /// changes nothing.
    pub fn frame(&self, h: &SoleHandle) -> &[u64]
        requires handle { IsHandleOf self.now h.now }
        ensures whole { voxels_of self.now.levels h.now.cell ≤ length result.now }
        ensures small { length result.now ≤ 2 ^ 32 }
        ensures values { (at : ℕ) → at < voxels_of self.now.levels h.now.cell → slice_index result.now at ≡ (state_of self.now).arrays h.now.cell at }
        ensures runs { (at : ℕ) → at < voxels_of self.now.levels h.now.cell → Runs self.now (happening.Read 0 h.now.cell at (slice_index result.now at) ∷ []) self.now }
        ensures valid { IsCache self.now }
    {
        frame_of(self.slots.as_slice(), h.slot() as usize)
    }

    /// Marks a pinned cell, and writes a voxel of it. It takes no memory, and one step.
    pub fn write(&mut self, h: &SoleHandle, at: u32, value: u64)
        requires handle { IsHandleOf self.old h.now }
        requires at { at < voxels_of self.old.levels h.now.cell }
        requires value { value ≤ greatest_of (kind_of self.old.levels h.now.cell) }
        ensures runs { Runs self.old (happening.Mark 0 h.now.cell ∷ happening.Write 0 h.now.cell at value ∷ []) self.new }
        ensures stores { self.new.shown ≡ self.old.shown }
        ensures handles { handles_out self.new ≡ handles_out self.old }
        ensures held { (other : Handle) → IsHandleOf self.old other → IsHandleOf self.new other }
        ensures stood { IsStoodFor self.new }
    {
        set_value(&mut self.slots, h.slot() as usize, at as usize, value);
    }

    /// Gives a handle back.
    pub fn release(&mut self, h: SoleHandle)
        requires handle { IsHandleOf self.old h }
        ensures quiet { Quiet self.old (happening.Unpin 0 h.cell ∷ []) self.new }
        ensures handles { handles_out self.old ≡ handles_out self.new + 1 }
        ensures held { (other : Handle) → other.slot ≢ h.slot → IsHandleOf self.old other → IsHandleOf self.new other }
        ensures stood { IsStoodFor self.new }
    {
        self.unpin(h.cell(), h.slot());
        h.spend();
    }

    /// The number of a voxel, by its level and its position there. `Outside` exactly where there is no such voxel; else the
    /// refusal is that of `acquire`.
    pub fn get(&mut self, level: u8, pos: [u64; 3]) -> Result<u64, CellErr>
        requires room { handles_out self.old < 64 }
        ensures got { (events : List Event) × (calls : List StoreCall) × GetsVoxel self.old level pos result events calls self.new × Runs self.old events self.new }
        ensures caused { IsCellCaused self.old self.new level pos result }
        ensures handles { handles_out self.new ≡ handles_out self.old }
        ensures stood { IsStoodFor self.new }
    {
        let Some(place) = self.geometry.place(level, pos) else {
            return Err(CellErr::Outside);
        };
        match self.acquire(place.cell) {
            Ok(h) => {
                let value = self.read(&h, place.at);
                self.release(h);
                Ok(value)
            }
            Err(refusal) => Err(CellErr::Acquire(refusal)),
        }
    }

    /// Writes a voxel, by its level and its position there. `Outside` exactly where there is no such voxel; else `TooLarge`
    /// exactly where the value is above the greatest of the level's kind; else the refusal is that of `acquire`, and no voxel
    /// is changed.
    pub fn set(&mut self, level: u8, pos: [u64; 3], value: u64) -> Result<(), CellErr>
        requires room { handles_out self.old < 64 }
        ensures done { (events : List Event) × (calls : List StoreCall) × SetsVoxel self.old level pos value result events calls self.new × Runs self.old events self.new }
        ensures caused { IsCellCaused self.old self.new level pos result }
        ensures handles { handles_out self.new ≡ handles_out self.old }
        ensures stood { IsStoodFor self.new }
    {
        let Some(place) = self.geometry.place(level, pos) else {
            return Err(CellErr::Outside);
        };
        if value > self.geometry.kind(place.cell).greatest() {
            return Err(CellErr::TooLarge { value });
        }
        match self.acquire(place.cell) {
            Ok(h) => {
                self.write(&h, place.at, value);
                self.release(h);
                Ok(())
            }
            Err(refusal) => Err(CellErr::Acquire(refusal)),
        }
    }
}
