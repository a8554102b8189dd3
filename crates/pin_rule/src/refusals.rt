// What a call answers where a step found that it can't be done.

use arr_history::Seen;
use thiserror::Error;

/// The cell wasn't live.
#[derive(Clone, Copy, Debug, PartialEq, Eq, Error)]
#[error("the cell isn't live")]
pub struct NotLive {
    pub state: Seen,
}

/// Each slot was taken.
#[derive(Clone, Copy, Debug, PartialEq, Eq, Error)]
#[error("no slot is free")]
pub struct NoFree;

/// The cell wasn't absent: the word that was found.
#[derive(Clone, Copy, Debug, PartialEq, Eq, Error)]
#[error("the cell isn't absent: its word is {word}")]
pub struct Taken {
    pub word: u64,
}

/// The cell wasn't live in this slot, with this mark and no pin: the word that was found.
#[derive(Clone, Copy, Debug, PartialEq, Eq, Error)]
#[error("the cell can't be closed: its word is {word}")]
pub struct Busy {
    pub word: u64,
}

/// Another pass had the lane: the word that was found.
#[derive(Clone, Copy, Debug, PartialEq, Eq, Error)]
#[error("the lane is taken: its word is {word}")]
pub struct LaneTaken {
    pub word: u64,
}
