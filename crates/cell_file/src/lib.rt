//! A cell from and to a store: its keys, what a store stands for at it, and the fetching and saving of its block.
#![tactic(auto)]

mod asks;
mod decide;
mod errors;
mod file;
mod keys;
mod laws;
mod shape;

pub use errors::{AcquireErr, CellErr, FetchErr, SaveErr};
pub use file::{fetch, save};
pub use keys::Keys;
pub use laws::{cells_have_keys_of_their_own, stores_stand_for_what_they_hold};
