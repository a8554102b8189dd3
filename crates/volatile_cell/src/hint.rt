// Where a request goes.

/// Where a request goes in the queue: its priority, of which 0 is the first, and whether it goes to the front there.
#[derive(Clone, Copy, Debug, PartialEq, Eq)]
pub struct Hints {
    pub priority: u8,
    pub to_front: bool,
}
