//! What a pass knows and does. No value of these types is made.

use crate::holding::{Held, Left, Pin};
use crate::lane::{Given, Taken};
use arr_history::Event;
use std::collections::LinkedList;

/// A compare-exchange that the pass has tried: the kind of step, the number of the cell, slot or lane, and the word that it found.
pub struct Try {
    pub kind: u32,
    pub number: u32,
    pub found: u64,
}

/// A pass that was joined into the first one.
pub struct Ended {
    pub number: u32,
    pub mine: LinkedList<Event>,
    pub rises: LinkedList<u64>,
}

/// Where a pass is between two of its steps.
pub enum Stage {
    /// It was joined, and is no pass any more.
    Spent,
    /// It is in no call.
    Idle,
    /// It counts in the word of this cell, and is on its way back.
    Visiting(u32),
    /// It was joined of two that had seen these.
    Joining(LinkedList<Event>, LinkedList<Event>),
}

/// What a pass knows and holds, as contracts see it.
pub struct Doing<S, M> {
    pub number: u32,
    /// The beginning of the history that it has seen.
    pub seen: LinkedList<Event>,
    /// Its own events.
    pub mine: LinkedList<Event>,
    /// Of the first pass: the passes that were joined into it, and how many numbers were drawn.
    pub ended: LinkedList<Ended>,
    pub drawn: u32,
    pub pins: LinkedList<Pin>,
    /// The cells that it has claimed.
    pub claims: LinkedList<u32>,
    pub slots: LinkedList<Held>,
    pub leaving: LinkedList<Left>,
    pub lane: Option<Taken<S>>,
    /// The stores with which it gave lanes back since another pass was last out beside it, the last first.
    pub given: LinkedList<Given<S>>,
    /// For each lane, the rounds with its store over which the store's count of faults rose.
    pub rises: LinkedList<u64>,
    /// Its compare-exchanges, the last first.
    pub tries: LinkedList<Try>,
    pub stage: Stage,
    /// What the table was told when it was made.
    pub made: M,
}
