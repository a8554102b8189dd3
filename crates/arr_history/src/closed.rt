//! What a cache gives back.

use crate::tally::Tally;

/// A cache that wasn't made, for want of memory: its stores come back as they were.
#[derive(Drop)]
pub struct Unmade<S> {
    pub stores: Vec<S>,
}

/// A cell whose last array could not be put.
#[derive(Clone, Copy, Debug, PartialEq, Eq)]
pub struct Unsaved {
    pub cell: u32,
    /// Whether memory was wanting; else the store failed.
    pub memory: bool,
}

/// What is left of a cache that was shut.
#[derive(Drop)]
pub struct Closed<S> {
    pub stores: Vec<S>,
    pub unsaved: Vec<Unsaved>,
    pub tally: Tally,
}
