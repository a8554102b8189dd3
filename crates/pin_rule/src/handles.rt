// What belongs to a pass. Each is to be spent by a call of the table that gave it. In contracts each is a record of its
// numbers, as specs/Parts has them.
ghost use Rattle.std.specs.Prelude.{◌≡◌};

use std::marker::Model;

/// A counted hold on a live cell.
pub struct Handle {
    pub(crate) cell: u32,
    pub(crate) slot: u32,
    pub(crate) marked: bool,
    pub(crate) loaded: bool,
}

impl Model for Handle {
    ghost use Rattle.pin_rule.specs.Parts.{PinnedCell};

    ghost Value = { PinnedCell };

    ghost view = { λ x. record { cell = x.cell; slot = x.slot; marked = x.marked; loaded = x.loaded } };
}

impl Handle {
    pub fn cell(&self) -> u32
        ensures { result ≡ self.now.cell }
    {
        self.cell
    }

    /// The slot in which the cell is live.
    pub fn slot(&self) -> u32
        ensures { result ≡ self.now.slot }
    {
        self.slot
    }

    /// Whether the cell was marked through this handle.
    pub fn marked(&self) -> bool
        ensures { result ≡ self.now.marked }
    {
        self.marked
    }

    /// Whether the cell was loaded for this handle.
    pub fn loaded(&self) -> bool
        ensures { result ≡ self.now.loaded }
    {
        self.loaded
    }
}

/// A cell that this pass alone may load.
pub struct Claim {
    pub(crate) cell: u32,
}

impl Model for Claim {
    ghost use Rattle.pin_rule.specs.Parts.{ClaimedCell};

    ghost Value = { ClaimedCell };

    ghost view = { λ x. record { cell = x.cell } };
}

impl Claim {
    pub fn cell(&self) -> u32
        ensures { result ≡ self.now.cell }
    {
        self.cell
    }
}

/// A slot that this pass alone may fill.
pub struct Slot {
    pub(crate) slot: u32,
    pub(crate) filled: Option<u32>,
}

impl Model for Slot {
    ghost use Rattle.pin_rule.specs.Parts.{OwnSlot};

    ghost Value = { OwnSlot };

    ghost view = { λ x. record { slot = x.slot; filled = x.filled } };
}

impl Slot {
    pub fn slot(&self) -> u32
        ensures { result ≡ self.now.slot }
    {
        self.slot
    }

    /// The cell for which it is filled.
    pub fn filled(&self) -> Option<u32>
        ensures { result ≡ self.now.filled }
    {
        self.filled
    }
}

/// The store of a lane, while this pass has it.
pub struct Lane<S> {
    pub(crate) lane: u32,
    pub store: S,
}

impl<S> Model for Lane<S> {
    ghost use Rattle.pin_rule.specs.Parts.{OwnLane};

    ghost Value = { OwnLane S };

    ghost view = { λ x. record { lane = x.lane; store = x.store } };
}

impl<S> Lane<S> {
    pub fn lane(&self) -> u32
        ensures { result ≡ self.now.lane }
    {
        self.lane
    }
}

/// A cell that this pass has closed.
pub struct Leaving {
    pub(crate) cell: u32,
    pub(crate) slot: u32,
    pub(crate) marked: bool,
}

impl Model for Leaving {
    ghost use Rattle.pin_rule.specs.Parts.{ClosedCell};

    ghost Value = { ClosedCell };

    ghost view = { λ x. record { cell = x.cell; slot = x.slot; marked = x.marked } };
}

impl Leaving {
    pub fn cell(&self) -> u32
        ensures { result ≡ self.now.cell }
    {
        self.cell
    }

    pub fn slot(&self) -> u32
        ensures { result ≡ self.now.slot }
    {
        self.slot
    }

    /// Whether it has to be put before it is gone.
    pub fn marked(&self) -> bool
        ensures { result ≡ self.now.marked }
    {
        self.marked
    }
}
