// What the queue of fetches is asked.

/// What the queue of fetches is asked.
#[derive(Clone, Copy, Debug, PartialEq, Eq)]
pub enum QueueCall {
    /// A pair comes to the front or to the back of a priority.
    Put {
        viewer: u32,
        cell: u32,
        priority: u8,
        to_front: bool,
    },
    /// The next request is taken.
    Take,
    /// A viewer's requests go to the prefetch list.
    Clear {
        viewer: u32,
    },
}
