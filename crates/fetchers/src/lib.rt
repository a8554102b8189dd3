//! Fetchers: they serve the requests of a queue, and so load the cells that viewers asked for.
#![tactic(auto)]

mod fetched;
mod fetching;
mod nap;
mod served;
mod serving;
mod until_closed;

pub use fetched::Fetched;
pub use fetching::{Memory, serve_up_to};
pub use served::Served;
pub use serving::serve_one;
pub use until_closed::serve_until_closed;
