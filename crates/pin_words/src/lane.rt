//! What a pass knows of the lane that it has. No value of these types is made.

use arr_history::Event;
use std::collections::LinkedList;

/// A marked cell that the pass has closed, or has saved, while it had the lane. The history is that at the cell's closing.
pub struct Change {
    pub cell: u32,
    pub saved: bool,
    pub at: LinkedList<Event>,
}

/// The store with which a pass gave a lane back.
pub struct Given<S> {
    pub lane: u32,
    pub store: S,
}

/// A lane of the pass: its store and the history as they were at the taking, and what the pass has done since, the last first.
pub struct Taken<S> {
    pub lane: u32,
    pub store: S,
    pub at: LinkedList<Event>,
    pub changes: LinkedList<Change>,
    /// The cells for which it has filled a slot.
    pub fills: LinkedList<u32>,
}
