//! The queue of fetches as an object behind a turn, and its calls.
#![tactic(auto)]

mod asking;
mod laws;
mod queue_desk;

pub use asking::{clear, put, take};
pub use laws::histories_are_asked;
pub use queue_desk::QueueDesk;
pub use volatile_cell::{QueueCall, QueueReply};
