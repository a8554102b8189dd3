//! Shutting a cache.
ghost use Rattle.std.specs.Prelude.{◌≡◌, ◌≢◌, ℕ, ◌+◌, ◌<◌, ◌≤◌, List, [], ◌∷◌, ◌++◌, true, false, Some, None, length, map, take};
ghost use Rattle.arr_history.specs.declared.event.Event.{Event};
ghost use Rattle.arr_history.specs.Tally.{tally_raised};
ghost use Rattle.sole_cache.specs.Cached.{Cached, slot_of, slot_at, handles_out};
ghost use Rattle.sole_cache.specs.Valid.{IsCache};
ghost use Rattle.sole_cache.specs.Moves.{Moves, IsStoodFor};
ghost use Rattle.sole_cache.specs.Shut.{ClosesSlot, IsShut};

use crate::cache::SoleCache;
use arr_history::{Closed, Event, Unsaved};
use cell_file::SaveErr;
use cell_store::Store;

impl<S: Store> SoleCache<S> {
    /// Closes each live cell, slot after slot: it is put where it is marked, and gone; where it could not be put it comes back
    /// and is named unsaved. Gives the stores back. It takes no memory of its own.
    pub fn shut(self) -> Closed<S>
        requires { handles_out self ≡ 0 }
        ensures { IsShut self (map S.contents result.stores.items) result.unsaved.items result.tally }
    {
        let mut cache = self;
        cache.forget_unsaved();
        for slot in 0..cache.slots() {
            cache.close(slot);
        }
        cache.into_closed()
    }

    /// Closes the cell of a slot, where there is one.
    fn close(&mut self, slot: u32)
        requires slot { slot < length self.old.slots }
        requires room { length self.old.unsaved < length self.old.slots }
        requires unpinned { (slot_at self.old slot).pins ≡ 0 }
        ensures closed { ClosesSlot self.old self.new slot self.old.unsaved self.new.unsaved }
        ensures others { (i : ℕ) → i ≢ slot → slot_at self.new i ≡ slot_at self.old i }
        ensures slots { length self.new.slots ≡ length self.old.slots }
        ensures valid { IsCache self.new }
    {
        let Some(cell) = self.owner(slot) else {
            return;
        };
        let saved = self.is_marked(cell, slot);
        match self.turn_out(cell, slot) {
            Ok(()) => self.count_closing(&Event::Gone { k: 0, cell, saved }),
            Err(refusal) => self.name_unsaved(Unsaved {
                cell,
                memory: wants_memory(refusal),
            }),
        }
    }

    /// Counts an event of the shutting.
    fn count_closing(&mut self, event: &Event)
        ensures { self.new ≡ record self.old { tally = tally_raised self.old.tally [] (event.now ∷ []) } }
    {
        self.tally = self.tally.with_closing(event);
    }

    /// Names a cell that could not be put.
    fn name_unsaved(&mut self, unsaved: Unsaved)
        requires { length self.old.unsaved < length self.old.slots }
        ensures { self.new ≡ record self.old { unsaved = self.old.unsaved ++ unsaved ∷ [] } }
    {
        let _ = self.unsaved.push(unsaved);
    }

    /// No cell is named.
    fn forget_unsaved(&mut self)
        ensures { self.new ≡ record self.old { unsaved = [] } }
    {
        self.unsaved.clear();
    }

    /// How many slots there are.
    fn slots(&self) -> u32
        ensures slots { result ≡ length self.now.slots }
        ensures valid { IsCache self.now }
    {
        self.slots.len() as u32
    }

    /// The stores, the cells named and the counts.
    fn into_closed(self) -> Closed<S>
        ensures stores { map S.contents result.stores.items ≡ self.shown }
        ensures unsaved { result.unsaved.items ≡ self.unsaved }
        ensures tally { result.tally ≡ self.tally }
        ensures valid { IsCache self }
    {
        let SoleCache {
            geometry: _,
            keys: _,
            stores,
            table: _,
            slots: _,
            pinned: _,
            recency: _,
            free_from: _,
            spare: _,
            got: _,
            put: _,
            unsaved,
            tally,
        } = self;
        Closed {
            stores,
            unsaved,
            tally,
        }
    }
}

/// Whether memory was wanting for a put; else the store failed.
fn wants_memory(refusal: SaveErr) -> bool
    ensures memory { result ≡ true → refusal ≡ SaveErr.Memory }
    ensures fault { result ≡ false → refusal ≡ SaveErr.WriteFault }
{
    match refusal {
        SaveErr::Memory => true,
        SaveErr::WriteFault => false,
    }
}
