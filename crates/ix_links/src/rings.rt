ghost use Rattle.std.specs.Prelude.{◌≡◌, ℕ, ◌<◌, List, length, slice_index, slice_set, IfOk};
ghost use Rattle.std.specs.List.{range_with_len};

use std::alloc::{AllocError, Global};

/// Entries in rings: each with the one after it and the one before it.
#[derive(Debug, Drop)]
pub(crate) struct Rings {
    pub(crate) after: Vec<u32>,
    pub(crate) before: Vec<u32>,
}

impl Rings {
    /// Each entry is a ring of its own. Grows by eight bytes an entry.
    pub(crate) fn new(alloc: Global, entries: u32) -> Result<Rings, AllocError>
        ensures after { IfOk result (λ rings. rings.after.items ≡ range_with_len 0 entries) }
        ensures before { IfOk result (λ rings. rings.before.items ≡ range_with_len 0 entries) }
    {
        Ok(Rings {
            after: (0..entries).collect(alloc)?,
            before: (0..entries).collect(alloc)?,
        })
    }

    /// Puts an entry behind another one.
    pub(crate) fn insert(&mut self, place: u32, entry: u32)
        requires place_in_range { place < length self.old.after.items }
        requires next_in_range { slice_index self.old.after.items place < length self.old.before.items }
        requires entry_after { entry < length self.old.after.items }
        requires entry_before { entry < length self.old.before.items }
        ensures after { let next = slice_index self.old.after.items place in self.new.after.items ≡ slice_set (slice_set self.old.after.items place entry) entry next }
        ensures before { let next = slice_index self.old.after.items place in self.new.before.items ≡ slice_set (slice_set self.old.before.items next entry) entry place }
    {
        let next = self.after[place as usize];
        self.after[place as usize] = entry;
        self.after[entry as usize] = next;
        self.before[next as usize] = entry;
        self.before[entry as usize] = place;
    }

    /// Takes an entry out of its ring.
    pub(crate) fn remove(&mut self, entry: u32)
        requires entry_after { entry < length self.old.after.items }
        requires entry_before { entry < length self.old.before.items }
        requires next_in_range { slice_index self.old.after.items entry < length self.old.before.items }
        requires previous_in_range { slice_index self.old.before.items entry < length self.old.after.items }
        ensures after { let previous = slice_index self.old.before.items entry in self.new.after.items ≡ slice_set self.old.after.items previous (slice_index self.old.after.items entry) }
        ensures before { let next = slice_index self.old.after.items entry in self.new.before.items ≡ slice_set self.old.before.items next (slice_index self.old.before.items entry) }
    {
        let previous = self.before[entry as usize];
        let next = self.after[entry as usize];
        self.after[previous as usize] = next;
        self.before[next as usize] = previous;
    }
}
