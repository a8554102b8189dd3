// Why bytes are refused as a block.
use thiserror::Error;

/// Why bytes are refused as a block, by the first rule that they break, in this order but for `Short`, which may be
/// found at the head or behind it.
#[derive(Clone, Copy, Debug, PartialEq, Eq, Error)]
pub enum BlockErr {
    /// The bytes are fewer than the head has, or than the elements need.
    #[error("too few bytes")]
    Short { len: u64, need: u64 },
    /// The mode isn't 0, the default.
    #[error("a mode other than the default")]
    Mode { found: u16 },
    /// The number of axes isn't 3.
    #[error("the axes are not 3")]
    Axes { found: u16 },
    /// A side is outside its bounds: smaller than the cell needs, or larger than a full cell.
    #[error("a side is outside its bounds")]
    Side { axis: u8, found: u32 },
    /// The bytes are more than the elements need.
    #[error("bytes behind the elements")]
    Trailing { len: u64, need: u64 },
}
