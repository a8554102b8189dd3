//! The queue of what is fetched next: requests by priority, and behind them those of earlier frames.
#![tactic(auto)]

mod queues;
mod ranks;
mod request;

pub use queues::{Memory, Queues};
pub use request::Request;
