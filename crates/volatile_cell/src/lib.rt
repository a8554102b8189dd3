//! Cells that may not be there, looked at by the strategy of a frame, and the queue of those that are wanted.
#![tactic(auto)]

mod budget;
mod eyes;
mod hint;
mod look;
mod queue_call;
mod queue_reply;
mod requests;

pub use budget::Budget;
pub use eyes::Eyes;
pub use fetch_queue::Request;
pub use hint::Hints;
pub use look::Look;
pub use queue_call::QueueCall;
pub use queue_reply::QueueReply;
pub use requests::hints;
pub use scale_pick::Strategy;
