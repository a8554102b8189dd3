//! A handle on a pinned cell.
ghost use Rattle.std.specs.Prelude.{◌≡◌};

use std::marker::Model;

/// A pin on a live cell. It has to be given back by `release`.
pub struct SoleHandle {
    cell: u32,
    slot: u32,
    loaded: bool,
}

impl Model for SoleHandle {
    ghost use Rattle.sole_cache.specs.Handle.{Handle};

    ghost Value = { Handle };

    ghost view = { λ h. record { cell = h.cell; slot = h.slot; loaded = h.loaded } };
}

impl SoleHandle {
    /// A handle on a cell in a slot.
    pub(crate) fn on(cell: u32, slot: u32, loaded: bool) -> SoleHandle
        ensures { result ≡ record { cell = cell; slot = slot; loaded = loaded } }
    {
        SoleHandle { cell, slot, loaded }
    }

    /// Its cell.
    pub fn cell(&self) -> u32
        ensures { result ≡ self.now.cell }
    {
        self.cell
    }

    /// The slot in which the cell is.
    pub fn slot(&self) -> u32
        ensures { result ≡ self.now.slot }
    {
        self.slot
    }

    /// Whether the cell was loaded for this handle.
    pub fn loaded(&self) -> bool
        ensures { result ≡ self.now.loaded }
    {
        self.loaded
    }

    /// Spends the handle.
    pub(crate) fn spend(self) {
        let SoleHandle {
            cell: _,
            slot: _,
            loaded: _,
        } = self;
    }
}
