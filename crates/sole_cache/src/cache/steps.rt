//! The steps of which calls are made, each with its events.
ghost use Rattle.std.specs.Prelude.{◌≡◌, ◌≢◌, ℕ, ◌+◌, ◌-◌, ◌<◌, List, [], ◌∷◌, IsTrue, true, false, Some, None, Err, OnOk, OnErr, IfErr, length, take, slice_set};
ghost use Rattle.cell_grid.specs.Pyramid.{cells_of, voxels_of, sides_of};
ghost use Rattle.cell_store.specs.Faults.{Rose};
ghost use Rattle.n5_block.specs.Block.{block};
ghost use Rattle.cell_store.specs.declared.store.Put.{Put};
ghost use Rattle.store_calls.specs.Calls.{StoreCall, AreCalled};
ghost use Rattle.cell_file.specs.Asks.{AreFetch, save_answer};
ghost use Rattle.cell_file.specs.File.{IsCauseOf};
ghost use Rattle.cell_file.specs.Keys.{edited_key};
ghost use Rattle.cell_file.specs.Standing.{width_of, refusal_of};
ghost use Rattle.arr_history.specs.declared.event.Event.TheVariants as happening;
ghost use Rattle.arr_history.specs.Tally.{tally_raised};
ghost use Rattle.sole_cache.specs.Slot.{slot_with_pins, slot_with_value, loaded_with, emptied};
ghost use Rattle.sole_cache.specs.Cached.{store_of, stands, slot_of, slot_at, handles_out};
ghost use Rattle.sole_cache.specs.Value.{with_shown, vacated};
ghost use Rattle.sole_cache.specs.Valid.{IsCache};
ghost use Rattle.sole_cache.specs.Moves.{IsSaved, Moves, Runs};
ghost use Rattle.sole_cache.specs.Acquires.{lane_at, put_call};
ghost use Rattle.sole_cache.specs.Asked.{IsTurnedOut};
ghost use Rattle.cell_store.specs.Store.{held_of};

use crate::cache::SoleCache;
use crate::outside::{fetch_cell, save_cell};
use crate::slot::{empty_slot, pins_of, set_pins, set_value, take_slot};
use arr_history::Event;
use cell_file::{FetchErr, SaveErr};
use cell_store::Store;

impl<S: Store> SoleCache<S> {
    /// One more pin of a live cell.
    pub(crate) fn pin(&mut self, cell: u32, slot: u32)
        requires live { slot_of self.old cell ≡ Some slot }
        requires room { handles_out self.old < 64 }
        ensures runs { Runs self.old (happening.Pin 0 cell ∷ []) self.new }
        ensures stores { self.new.shown ≡ self.old.shown }
        ensures table { self.new.table ≡ self.old.table }
        ensures slots { let s = slot_at self.old slot in self.new.slots ≡ slice_set self.old.slots slot (slot_with_pins s (s.pins + 1)) }
        ensures valid { IsCache self.new }
    {
        let pins = pins_of(self.slots.as_slice(), slot as usize);
        set_pins(&mut self.slots, slot as usize, pins + 1);
        self.pinned[slot as usize] = true;
        self.recency.touch(slot);
        self.tally = self.tally.with_event(&Event::Pin { k: 0, cell });
    }

    /// A look for a cell that isn't live.
    pub(crate) fn miss(&mut self, cell: u32)
        requires cell { cell < length self.old.table }
        requires absent { slot_of self.old cell ≡ None }
        ensures runs { Runs self.old (happening.Miss 0 cell ∷ []) self.new }
        ensures stays { self.new ≡ record self.old { tally = self.new.tally } }
        ensures valid { IsCache self.new }
    {
        self.tally = self.tally.with_event(&Event::Miss { k: 0, cell });
    }

    /// Turns a cell without pins out of its slot, put where it is marked. Where it could not be put it comes back.
    pub(crate) fn turn_out(&mut self, cell: u32, slot: u32) -> Result<(), SaveErr>
        requires live { slot_of self.old cell ≡ Some slot }
        requires unpinned { (slot_at self.old slot).pins ≡ 0 }

        ensures gone { OnOk result (Moves self.old (happening.Close 0 cell ∷ happening.Gone 0 cell (slot_at self.old slot).marked ∷ []) self.new) }
        ensures left { OnOk result ((self.new.table ≡ slice_set self.old.table cell None) × (self.new.slots ≡ slice_set self.old.slots slot (emptied (slot_at self.old slot)))) }
        ensures back { OnErr result (Moves self.old (happening.Close 0 cell ∷ happening.Back 0 cell ∷ []) self.new) }
        ensures stayed { OnErr result ((self.new.table ≡ self.old.table) × (self.new.slots ≡ self.old.slots)) }
        ensures marked { OnErr result ((slot_at self.old slot).marked ≡ true) }
        ensures asked { (calls : List StoreCall) × IsTurnedOut self.old cell slot result calls × AreCalled calls self.old.shown self.new.shown }
        ensures tally { self.new.tally ≡ self.old.tally }
        ensures unsaved { self.new.unsaved ≡ self.old.unsaved }
        ensures write_fault { result ≡ Err SaveErr.WriteFault → Rose (store_of self.old cell).faults (store_of self.new cell).faults }
        ensures valid { IsCache self.new }
    {
        if !self.is_marked(cell, slot) {
            self.vacate(cell, slot);
            return Ok(());
        }
        self.save(cell, slot)?;
        self.vacate(cell, slot);
        Ok(())
    }

    /// Puts a marked cell without pins. Where it could not be put its slot is touched.
    fn save(&mut self, cell: u32, slot: u32) -> Result<(), SaveErr>
        requires live { slot_of self.old cell ≡ Some slot }
        requires unpinned { (slot_at self.old slot).pins ≡ 0 }
        requires marked { (slot_at self.old slot).marked ≡ true }

        ensures stays { OnOk result (self.new ≡ with_shown self.old self.new.shown) }
        ensures saved { OnOk result (IsSaved self.old cell slot self.new.shown) }
        ensures back { OnErr result (Moves self.old (happening.Close 0 cell ∷ happening.Back 0 cell ∷ []) self.new) }
        ensures stayed { OnErr result ((self.new.table ≡ self.old.table) × (self.new.slots ≡ self.old.slots)) }
        ensures asked { (answer : Put) × (result ≡ save_answer answer) × AreCalled (put_call self.old cell slot answer ∷ []) self.old.shown self.new.shown }
        ensures tally { self.new.tally ≡ self.old.tally }
        ensures unsaved { self.new.unsaved ≡ self.old.unsaved }
        ensures write_fault { result ≡ Err SaveErr.WriteFault → Rose (store_of self.old cell).faults (store_of self.new cell).faults }
        ensures valid { IsCache self.new }
    {
        match save_cell(
            &mut self.stores,
            &self.keys,
            &self.geometry,
            cell,
            self.slots.as_slice(),
            slot as usize,
            &mut self.put,
        ) {
            Ok(()) => Ok(()),
            Err(refusal) => {
                self.recency.touch(slot);
                Err(refusal)
            }
        }
    }

    /// Takes a cell without pins, for whose frame its store stands, out of its slot.
    fn vacate(&mut self, cell: u32, slot: u32)
        requires live { slot_of self.old cell ≡ Some slot }
        requires unpinned { (slot_at self.old slot).pins ≡ 0 }
        requires stood { IsTrue (store_of self.old cell).told → stands self.old cell ≡ Some (take (voxels_of self.old.levels cell) (slot_at self.old slot).frame) }
        ensures left { self.new ≡ vacated self.old cell slot }
        ensures unsaved { self.new.unsaved ≡ self.old.unsaved }
        ensures valid { IsCache self.new }
    {
        self.table[cell as usize] = None;
        empty_slot(&mut self.slots, slot as usize);
        self.recency.leave(slot);
        self.free_from = self.free_from.min(slot as usize);
    }

    /// Loads an absent cell into a free slot, with one pin. Where it could not be got nothing changes but the stores.
    pub(crate) fn load(&mut self, cell: u32, slot: u32) -> Result<(), FetchErr>
        requires cell { cell < length self.old.table }
        requires absent { slot_of self.old cell ≡ None }
        requires slot { slot < length self.old.slots }
        requires free { (slot_at self.old slot).cell ≡ None }

        ensures loaded { OnOk result (Runs self.old (happening.Claim 0 cell ∷ happening.Live 0 cell slot ∷ []) self.new) }
        ensures seated { OnOk result ((self.new.table ≡ slice_set self.old.table cell (Some slot)) × ((frame : List ℕ) × (self.new.slots ≡ slice_set self.old.slots slot (loaded_with cell frame)))) }
        ensures dropped { OnErr result (Runs self.old (happening.Claim 0 cell ∷ happening.Drop 0 cell ∷ []) self.new) }
        ensures stayed { OnErr result ((self.new.table ≡ self.old.table) × (self.new.slots ≡ self.old.slots)) }

        ensures asked { (calls : List StoreCall) × AreFetch self.old.levels self.old.keys (lane_at self.old cell) cell result calls × AreCalled calls self.old.shown self.new.shown }
        ensures stood { IsTrue (store_of self.old cell).told → OnOk result ((values : List ℕ) × (stands self.old cell ≡ Some values)) }
        ensures refused { IsTrue (store_of self.old cell).told → IfErr result (λ err. IsCauseOf (refusal_of self.old.levels self.old.keys (held_of (store_of self.old cell)) cell) err) }
        ensures read_fault { result ≡ Err FetchErr.ReadFault → Rose (store_of self.old cell).faults (store_of self.new cell).faults }
        ensures valid { IsCache self.new }
    {
        fetch_cell(
            &mut self.stores,
            &self.keys,
            &self.geometry,
            cell,
            &mut self.got,
            &mut self.spare,
        )?;
        take_slot(&mut self.slots, slot as usize, cell, &mut self.spare);
        self.pinned[slot as usize] = true;
        self.table[cell as usize] = Some(slot);
        self.recency.admit(slot);
        self.tally = self.tally.with_event(&Event::Live { k: 0, cell, slot });
        Ok(())
    }

    /// One pin fewer of a pinned cell.
    pub(crate) fn unpin(&mut self, cell: u32, slot: u32)
        requires live { slot_of self.old cell ≡ Some slot }
        requires pinned { 0 < (slot_at self.old slot).pins }
        ensures runs { Runs self.old (happening.Unpin 0 cell ∷ []) self.new }
        ensures stores { self.new.shown ≡ self.old.shown }
        ensures table { self.new.table ≡ self.old.table }
        ensures slots { let s = slot_at self.old slot in self.new.slots ≡ slice_set self.old.slots slot (slot_with_pins s (s.pins - 1)) }
        ensures valid { IsCache self.new }
    {
        let pins = pins_of(self.slots.as_slice(), slot as usize);
        set_pins(&mut self.slots, slot as usize, pins - 1);
        self.pinned[slot as usize] = pins > 1;
    }

    /// Counts an event of the run part.
    pub(crate) fn count(&mut self, event: &Event)
        ensures { self.new ≡ record self.old { tally = tally_raised self.old.tally (event.now ∷ []) [] } }
    {
        self.tally = self.tally.with_event(event);
    }
}
