// What the queue of fetches replies.
use fetch_queue::Request;

/// What the queue of fetches replies: to a put, to a take, to a clear.
#[derive(Clone, Copy, Debug, PartialEq, Eq)]
pub enum QueueReply {
    Done,
    Taken(Option<Request>),
    Cleared(u32),
}
