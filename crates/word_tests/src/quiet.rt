// A store in memory that tells nothing.
use cell_store::{Got, MemStore, Put, Store};

/// A store in memory that tells neither what it holds nor its log.
#[derive(Drop)]
pub struct Quiet {
    pub store: MemStore,
}

impl Store for Quiet {
    ghost use Rattle.cell_store.specs.Store.{untold};
    ghost use Rattle.cell_store.specs.MemStore.{contents_of};

    ghost contents = { λ s. untold (contents_of s.store).faults };

    fn get(&mut self, key: &str, limit: u64, into: &mut Vec<u8>) -> Got {
        self.store.get(key, limit, into)
    }

    fn put(&mut self, key: &str, bytes: &[u8]) -> Put {
        self.store.put(key, bytes)
    }
}
