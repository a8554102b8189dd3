//! Where a cell of a cache is.
ghost use Rattle.std.specs.Prelude.{◌≡◌};
ghost use Rattle.arr_history.specs.Next.{marked, leaving, returned};

/// The state of a cell. Its pins are counted beside it.
#[derive(Clone, Copy, Debug, PartialEq, Eq)]
pub enum CellState {
    /// In no slot.
    Absent,
    /// Claimed by the pass `k`, which loads it.
    Loading { k: u32 },
    /// In a slot, and marked where it has to be put before it leaves.
    Live { slot: u32, marked: bool },
    /// Being put by the pass `k`, or about to be gone.
    Leaving { k: u32, slot: u32, marked: bool },
}

/// What a look finds of a cell that it doesn't pin.
#[derive(Clone, Copy, Debug, PartialEq, Eq)]
pub enum Seen {
    Absent,
    Loading,
    Live,
    Leaving,
}

impl CellState {
    /// With the mark, where it is live.
    pub(crate) fn marked(self) -> CellState
        ensures { result ≡ marked self }
    {
        match self {
            CellState::Live { slot, .. } => CellState::Live { slot, marked: true },
            other => other,
        }
    }

    /// On its way out by a pass, where it is live.
    pub(crate) fn leaving(self, k: u32) -> CellState
        ensures { result ≡ leaving k self }
    {
        match self {
            CellState::Live { slot, marked } => CellState::Leaving { k, slot, marked },
            other => other,
        }
    }

    /// Live again, where it is leaving.
    pub(crate) fn returned(self) -> CellState
        ensures { result ≡ returned self }
    {
        match self {
            CellState::Leaving { slot, marked, .. } => CellState::Live { slot, marked },
            other => other,
        }
    }
}
