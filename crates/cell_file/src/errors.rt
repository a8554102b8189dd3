// Why a cell is not fetched, saved, acquired, read or written.
use n5_block::BlockErr;
use thiserror::Error;

/// Why a cell was not fetched.
#[derive(Clone, Copy, Debug, PartialEq, Eq, Error)]
pub enum FetchErr {
    /// A get failed.
    #[error("the store failed in a get")]
    ReadFault,
    /// The bytes that decide are no block of the cell: those under its edited key where that is held, else those under
    /// its base key.
    #[error("the bytes are no block of the cell")]
    Malformed { edited: bool, err: BlockErr },
    /// The bytes that decide are more than the cell's full block has.
    #[error("the block is longer than one of the full cell")]
    TooLong { edited: bool, len: u64, limit: u64 },
    #[error("out of memory")]
    Memory,
}

/// Why a cell was not saved.
#[derive(Clone, Copy, Debug, PartialEq, Eq, Error)]
pub enum SaveErr {
    /// The put failed.
    #[error("the store failed in a put")]
    WriteFault,
    #[error("out of memory")]
    Memory,
}

/// Why a cell was not acquired.
#[derive(Clone, Copy, Debug, PartialEq, Eq, Error)]
pub enum AcquireErr {
    /// A get of the cell's block failed.
    #[error("the store failed in a get")]
    ReadFault,
    /// The put of the cell that was to leave failed.
    #[error("the store failed in a put")]
    WriteFault,
    #[error("the bytes are no block of the cell")]
    Malformed { edited: bool, err: BlockErr },
    #[error("the block is longer than one of the full cell")]
    TooLong { edited: bool, len: u64, limit: u64 },
    /// Every slot has a pin.
    #[error("every slot is pinned")]
    Full,
    #[error("out of memory")]
    Memory,
}

/// Why a voxel was not read or written.
#[derive(Clone, Copy, Debug, PartialEq, Eq, Error)]
pub enum CellErr {
    /// The level doesn't exist, or the position is outside it.
    #[error("the position is outside the volume")]
    Outside,
    /// The value is above the greatest of the level's kind.
    #[error("the value is too large")]
    TooLarge { value: u64 },
    /// The cell could not be had.
    #[error("the cell was not acquired")]
    Acquire(AcquireErr),
}
