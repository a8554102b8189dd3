//! What passes know, for clauses alone. No value of these types is ever made.
use std::collections::LinkedList;

/// A call in the history: the number of the pass that made it, and the reply that it got.
pub struct Entry<C, R> {
    pub by: u32,
    pub call: C,
    pub reply: R,
}

/// A pass that was joined: its number, and its calls in order.
pub struct Ended<C, R> {
    pub number: u32,
    pub mine: LinkedList<Entry<C, R>>,
}

/// What a pass does between two steps.
pub enum Stage<T, C, R> {
    /// It was joined, and is no pass any more.
    Spent,
    /// Nothing.
    Idle,
    /// It has its turn, and took this value.
    Holds(T),
    /// It has taken in another pass. These are what the two had seen.
    Joining(LinkedList<Entry<C, R>>, LinkedList<Entry<C, R>>),
}

/// What a pass knows.
pub struct PassView<T, C, R> {
    pub number: u32,
    /// The value that the turn was made with; none in a spent view.
    pub opening: Option<T>,
    /// The beginning of the history that the pass knows.
    pub seen: LinkedList<Entry<C, R>>,
    /// The pass's own calls, in order.
    pub mine: LinkedList<Entry<C, R>>,
    /// Of pass 0: the passes that were joined into it, and how many numbers were drawn.
    pub ended: LinkedList<Ended<C, R>>,
    pub drawn: u32,
    pub stage: Stage<T, C, R>,
}
