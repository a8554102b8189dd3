//! Acquiring a cell, and looking for one.
ghost use Rattle.std.specs.Prelude.{◌≡◌, ◌≢◌, ◌⊎◌, ℕ, ◌+◌, ◌<◌, List, [], ◌∷◌, ◌++◌, IsTrue, true, false, Ok, Some, None, Err, OnOk, OnErr, IfOk, IfErr, length, slice_set};
ghost use Rattle.cell_grid.specs.Pyramid.{cells_of};
ghost use Rattle.cell_store.specs.Faults.{Rose};
ghost use Rattle.store_calls.specs.Calls.{StoreCall, AreCalled};
ghost use Rattle.arr_history.specs.declared.event.Event.{Event};
ghost use Rattle.sole_cache.specs.Cached.{store_of, slot_of, slot_at, handles_out};
ghost use Rattle.sole_cache.specs.Valid.{IsCache};
ghost use Rattle.sole_cache.specs.Room.{IsFull, IsLowestFree, IsVictim};
ghost use Rattle.sole_cache.specs.Moves.{Moves, Runs, IsStoodFor};
ghost use Rattle.sole_cache.specs.Handle.{Handle, IsHandleOf};
ghost use Rattle.arr_history.specs.declared.event.Event.TheVariants as happening;
ghost use Rattle.sole_cache.specs.Slot.{loaded_with, emptied};
ghost use Rattle.sole_cache.specs.Pieces.{IsCaused, IsReplacedBy};
ghost use Rattle.sole_cache.specs.Acquires.{Acquires, Looks};
ghost use Rattle.sole_cache.specs.Asked.{IsCellGot, IsTurnedOut, IsReplaced};

use crate::cache::SoleCache;
use crate::handle::SoleHandle;
use arr_history::{Event, Seen};
use cell_file::{AcquireErr, FetchErr, SaveErr};
use cell_store::Store;

impl<S: Store> SoleCache<S> {
    /// Pins a cell, which is loaded where it isn't live. Where no slot is free the first cell in the order that nobody has
    /// pinned leaves, put where it is marked. Takes no memory of its own, and a fixed number of steps besides the getting,
    /// the putting, and the walk to the lowest free slot or past the pinned ones.
    ///
    /// `Full` where the cell isn't live and every slot has a pin. `ReadFault` and `WriteFault` only where that store's count
    /// of faults rose. `Malformed` and `TooLong` where the bytes that decide of the cell are so. After a refusal no voxel is
    /// changed.
    pub fn acquire(&mut self, cell: u32) -> Result<SoleHandle, AcquireErr>
        requires cell { cell < cells_of self.old.levels }
        requires room { handles_out self.old < 64 }

        ensures acquires { (events : List Event) × (calls : List StoreCall) × Acquires self.old cell result events calls self.new }
        ensures caused { IsCaused self.old self.new cell result }
        ensures full { slot_of self.old cell ≡ None → IsFull self.old → result ≡ Err AcquireErr.Full }

        ensures handle { IfOk result (λ h. IsHandleOf self.new h) }
        ensures granted { OnOk result (handles_out self.new ≡ handles_out self.old + 1) }
        ensures refused { OnErr result (handles_out self.new ≡ handles_out self.old) }
        ensures held { (h : Handle) → IsHandleOf self.old h → IsHandleOf self.new h }
        ensures stood { IsStoodFor self.new }
    {
        if let Some(slot) = self.slot_of(cell) {
            self.pin(cell, slot);
            return Ok(SoleHandle::on(cell, slot, false));
        }
        self.miss(cell);
        if let Some(slot) = self.lowest_free() {
            return self.load_free(cell, slot);
        }
        match self.victim() {
            Some(slot) => match self.owner(slot) {
                Some(due) => self.replace(cell, due, slot),
                None => unreachable!(),
            },
            None => Err(AcquireErr::Full),
        }
    }

    /// Pins a cell where it is live. Else it answers that the cell is absent, and nothing changes but the count of misses.
    /// It takes no memory.
    pub fn look(&mut self, cell: u32) -> Result<SoleHandle, Seen>
        requires cell { cell < cells_of self.old.levels }
        requires room { handles_out self.old < 64 }

        ensures looks { (events : List Event) × Looks self.old cell result events self.new }
        ensures handle { IfOk result (λ h. IsHandleOf self.new h) }
        ensures granted { OnOk result (handles_out self.new ≡ handles_out self.old + 1) }
        ensures refused { OnErr result (handles_out self.new ≡ handles_out self.old) }
        ensures held { (h : Handle) → IsHandleOf self.old h → IsHandleOf self.new h }
        ensures stood { IsStoodFor self.new }
    {
        match self.slot_of(cell) {
            Some(slot) => {
                self.pin(cell, slot);
                Ok(SoleHandle::on(cell, slot, false))
            }
            None => {
                self.miss(cell);
                Err(Seen::Absent)
            }
        }
    }
}

// The two ways of loading.
impl<S: Store> SoleCache<S> {
    /// Loads an absent cell into a free slot, and answers a handle on it.
    fn load_free(&mut self, cell: u32, slot: u32) -> Result<SoleHandle, AcquireErr>
        requires cell { cell < length self.old.table }
        requires absent { slot_of self.old cell ≡ None }
        requires slot { slot < length self.old.slots }
        requires free { (slot_at self.old slot).cell ≡ None }
        ensures handle { IfOk result (λ h. h ≡ record { cell = cell; slot = slot; loaded = true }) }
        ensures loaded { OnOk result (Runs self.old (happening.Claim 0 cell ∷ happening.Live 0 cell slot ∷ []) self.new) }
        ensures seated { OnOk result ((self.new.table ≡ slice_set self.old.table cell (Some slot)) × ((frame : List ℕ) × (self.new.slots ≡ slice_set self.old.slots slot (loaded_with cell frame)))) }
        ensures dropped { OnErr result (Runs self.old (happening.Claim 0 cell ∷ happening.Drop 0 cell ∷ []) self.new) }
        ensures stayed { OnErr result ((self.new.table ≡ self.old.table) × (self.new.slots ≡ self.old.slots)) }
        ensures asked { (calls : List StoreCall) × IsCellGot self.old cell result calls × AreCalled calls self.old.shown self.new.shown }
        ensures caused { IsCaused self.old self.new cell result }
        ensures own { IfErr result (λ err. (err ≢ AcquireErr.Full) × (err ≢ AcquireErr.WriteFault)) }
        ensures valid { IsCache self.new }
    {
        match self.load(cell, slot) {
            Ok(()) => Ok(SoleHandle::on(cell, slot, true)),
            Err(FetchErr::ReadFault) => Err(AcquireErr::ReadFault),
            Err(FetchErr::Malformed { edited, err }) => Err(AcquireErr::Malformed { edited, err }),
            Err(FetchErr::TooLong { edited, len, limit }) => {
                Err(AcquireErr::TooLong { edited, len, limit })
            }
            Err(FetchErr::Memory) => Err(AcquireErr::Memory),
        }
    }

    /// Turns the cell of a slot without pins out of it, and loads an absent cell there.
    fn replace(&mut self, cell: u32, due: u32, slot: u32) -> Result<SoleHandle, AcquireErr>
        requires cell { cell < length self.old.table }
        requires absent { slot_of self.old cell ≡ None }
        requires taken { IsLowestFree self.old.slots None }
        requires due { slot_of self.old due ≡ Some slot }
        requires unpinned { (slot_at self.old slot).pins ≡ 0 }
        ensures replaced { (events : List Event) × (calls : List StoreCall) × IsReplaced self.old cell due slot result events calls × Runs self.old events self.new × AreCalled calls self.old.shown self.new.shown }
        ensures seated { IfOk result (λ h. IsHandleOf self.new h) }
        ensures one_pin { OnOk result ((slot_at self.new slot).pins ≡ 1) }
        ensures no_pin { OnErr result ((slot_at self.new slot).pins ≡ 0) }
        ensures caused { IsReplacedBy self.old self.new cell due result }
        ensures others { (i : ℕ) → i ≢ slot → slot_at self.new i ≡ slot_at self.old i }
        ensures granted { OnOk result (handles_out self.new ≡ handles_out self.old + 1) }
        ensures refused { OnErr result (handles_out self.new ≡ handles_out self.old) }
        ensures sound { IsCache self.old }
        ensures valid { IsCache self.new }
    {
        match self.evict(due, slot) {
            Ok(()) => self.refill(cell, slot),
            Err(SaveErr::WriteFault) => Err(AcquireErr::WriteFault),
            Err(SaveErr::Memory) => Err(AcquireErr::Memory),
        }
    }

    /// Loads an absent cell into the one free slot.
    fn refill(&mut self, cell: u32, slot: u32) -> Result<SoleHandle, AcquireErr>
        requires cell { cell < length self.old.table }
        requires absent { slot_of self.old cell ≡ None }
        requires slot { slot < length self.old.slots }
        requires free { (slot_at self.old slot).cell ≡ None }
        requires one { (i : ℕ) → i < length self.old.slots → i ≢ slot → (slot_at self.old i).cell ≢ None }
        ensures handle { IfOk result (λ h. h ≡ record { cell = cell; slot = slot; loaded = true }) }
        ensures loaded { OnOk result (Runs self.old (happening.Claim 0 cell ∷ happening.Live 0 cell slot ∷ []) self.new) }
        ensures seated { OnOk result ((self.new.table ≡ slice_set self.old.table cell (Some slot)) × ((frame : List ℕ) × (self.new.slots ≡ slice_set self.old.slots slot (loaded_with cell frame)))) }
        ensures dropped { OnErr result (Runs self.old (happening.Claim 0 cell ∷ happening.Drop 0 cell ∷ []) self.new) }
        ensures stayed { OnErr result ((self.new.table ≡ self.old.table) × (self.new.slots ≡ self.old.slots)) }
        ensures asked { (calls : List StoreCall) × IsCellGot self.old cell result calls × AreCalled calls self.old.shown self.new.shown }
        ensures caused { IsCaused self.old self.new cell result }
        ensures own { IfErr result (λ err. (err ≢ AcquireErr.Full) × (err ≢ AcquireErr.WriteFault)) }
        ensures valid { IsCache self.new }
    {
        match self.load_free(cell, slot) {
            Ok(handle) => {
                self.all_taken();
                Ok(handle)
            }
            Err(refusal) => Err(refusal),
        }
    }

    /// Turns a cell out of its slot, and counts it as evicted.
    fn evict(&mut self, cell: u32, slot: u32) -> Result<(), SaveErr>
        requires live { slot_of self.old cell ≡ Some slot }
        requires unpinned { (slot_at self.old slot).pins ≡ 0 }
        ensures gone { OnOk result (Runs self.old (happening.Close 0 cell ∷ happening.Gone 0 cell (slot_at self.old slot).marked ∷ []) self.new) }
        ensures left { OnOk result ((self.new.table ≡ slice_set self.old.table cell None) × (self.new.slots ≡ slice_set self.old.slots slot (emptied (slot_at self.old slot)))) }
        ensures back { OnErr result (Runs self.old (happening.Close 0 cell ∷ happening.Back 0 cell ∷ []) self.new) }
        ensures stayed { OnErr result ((self.new.table ≡ self.old.table) × (self.new.slots ≡ self.old.slots)) }
        ensures marked { OnErr result ((slot_at self.old slot).marked ≡ true) }
        ensures asked { (calls : List StoreCall) × IsTurnedOut self.old cell slot result calls × AreCalled calls self.old.shown self.new.shown }
        ensures write_fault { result ≡ Err SaveErr.WriteFault → Rose (store_of self.old cell).faults (store_of self.new cell).faults }
        ensures sound { IsCache self.old }
        ensures valid { IsCache self.new }
    {
        let saved = self.is_marked(cell, slot);
        self.turn_out(cell, slot)?;
        self.count(&Event::Gone { k: 0, cell, saved });
        Ok(())
    }
}
