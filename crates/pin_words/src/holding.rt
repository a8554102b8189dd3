//! What a pass holds. No value of these types is made.

use arr_history::Event;
use std::collections::LinkedList;

/// A pin of the pass: the cell, its slot, and whether the pass has marked the cell through this pin.
pub struct Pin {
    pub cell: u32,
    pub slot: u32,
    pub marked: bool,
}

/// A slot of the pass: the cell that its frame is filled for, and the numbers with which the frame begins.
pub struct Held {
    pub slot: u32,
    pub filled: Option<u32>,
    pub words: LinkedList<u64>,
}

/// A cell that the pass has closed: its slot and its mark, and the history as it was then.
pub struct Left {
    pub cell: u32,
    pub slot: u32,
    pub marked: bool,
    pub at: LinkedList<Event>,
}
