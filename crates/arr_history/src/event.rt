//! What may happen to a cell of a cache.

/// One event of a run, with the number `k` of the pass whose event it is. A cache of one thread has the number 0.
#[derive(Clone, Copy, Debug, PartialEq, Eq)]
pub enum Event {
    /// A live cell gets one more pin: a hit.
    Pin {
        k: u32,
        cell: u32,
    },
    /// A cell was looked for and wasn't live.
    Miss {
        k: u32,
        cell: u32,
    },
    /// A cell loses a pin.
    Unpin {
        k: u32,
        cell: u32,
    },
    /// A pinned cell is marked: it has to be put before it leaves.
    Mark {
        k: u32,
        cell: u32,
    },
    /// A voxel of a pinned cell is read.
    Read {
        k: u32,
        cell: u32,
        at: u32,
        value: u64,
    },
    /// A voxel of a pinned and marked cell is written.
    Write {
        k: u32,
        cell: u32,
        at: u32,
        value: u64,
    },
    /// An absent cell is being loaded.
    Claim {
        k: u32,
        cell: u32,
    },
    /// A loading cell is absent again.
    Drop {
        k: u32,
        cell: u32,
    },
    /// A loading cell is live in a slot, with one pin.
    Live {
        k: u32,
        cell: u32,
        slot: u32,
    },
    /// A live cell without pins is leaving its slot.
    Close {
        k: u32,
        cell: u32,
    },
    /// A leaving cell is absent; it was put where it was marked.
    Gone {
        k: u32,
        cell: u32,
        saved: bool,
    },
    /// A leaving cell is live again, since it could not be put.
    Back {
        k: u32,
        cell: u32,
    },
}
