// Why a grid is refused.
use thiserror::Error;

/// Why a box or a pyramid is refused, by the first rule that it breaks in this order.
#[derive(Clone, Copy, Debug, PartialEq, Eq, Error)]
pub enum GridErr {
    #[error("a side is zero")]
    ZeroSide { axis: u8 },
    #[error("a side is above 2^31 - 1")]
    SideTooLarge { axis: u8, found: u64 },
    #[error("a cell has more than 2^21 voxels")]
    CellTooLarge { voxels: u128 },
    #[error("there are more than 2^18 cells")]
    TooManyCells { count: u128 },
    #[error("there is no level")]
    NoLevel,
    #[error("there are more than 8 levels")]
    TooManyLevels { count: u64 },
    #[error("a factor is zero")]
    ZeroFactor { level: u8, axis: u8 },
    #[error("out of memory")]
    Memory,
}
