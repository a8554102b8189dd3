// Why a pyramid can't be opened.
use crate::{MetaErr, Spot};
use cell_grid::GridErr;
use thiserror::Error;

/// Why a pyramid can't be opened: the first refusal in the order of work, or want of memory.
#[derive(Clone, Copy, Debug, PartialEq, Eq, Error)]
pub enum OpenErr {
    #[error("the attributes of {spot}: {err}")]
    Meta { spot: Spot, err: MetaErr },
    #[error("there are no attributes")]
    NoAttributes { spot: Spot },
    #[error("the attributes have more than 2^20 bytes")]
    TooLong { spot: Spot, len: u64 },
    #[error("the levels are not 1 to 8")]
    LevelCount { count: u64 },
    #[error("the levels make no pyramid")]
    Grid { err: GridErr },
    #[error("the store failed")]
    ReadFault,
    #[error("out of memory")]
    Memory,
}
