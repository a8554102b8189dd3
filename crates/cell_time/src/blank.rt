// A store that holds nothing.

use cell_store::{Got, Put, Store};

/// A store that holds nothing, forgets what is put, and tells nothing. Its calls take no time and no memory.
#[derive(Drop)]
pub struct Blank {}

impl Store for Blank {
    ghost use Rattle.cell_store.specs.Store.{untold};

    ghost contents = { λ s. untold 0 };

    fn get(&mut self, _key: &str, _limit: u64, into: &mut Vec<u8>) -> Got {
        into.clear();
        Got::Missing
    }

    fn put(&mut self, _key: &str, _bytes: &[u8]) -> Put {
        Put::Done
    }
}
