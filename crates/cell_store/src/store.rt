// A store of bytes under keys.
ghost use Rattle.cell_store.specs.Store.{Contents, Gets, Puts};

/// What a get answers.
#[derive(Clone, Copy, Debug, PartialEq, Eq)]
pub enum Got {
    /// The bytes stand in the buffer.
    Found,
    /// The key isn't held.
    Missing,
    /// The key holds this many bytes, more than the limit.
    TooLong { len: u64 },
    /// The outside failed.
    Failed,
    /// There was no memory.
    NoMemory,
}

/// What a put answers.
#[derive(Clone, Copy, Debug, PartialEq, Eq)]
pub enum Put {
    /// The bytes stand under the key.
    Done,
    /// The outside failed. The key may hold anything.
    Failed,
    /// There was no memory. The key may hold anything.
    NoMemory,
}

/// Bytes under keys, each put and got as a whole.
pub trait Store {
    /// What the store shows of itself: what it holds and its log, where it tells them, and its count of faults.
    ghost contents: { Self → Contents };

    /// Reads the bytes under a key into a buffer, at most `limit` of them. After any other answer than `Found`
    /// the buffer is empty. A get changes nothing that is held.
    fn get(&mut self, key: &str, limit: u64, into: &mut Vec<u8>) -> Got
        ensures { Gets (contents self.old) (contents self.new) key.now limit result into.new.items };

    /// Puts bytes under a key, in place of those that it held.
    fn put(&mut self, key: &str, bytes: &[u8]) -> Put
        ensures { Puts (contents self.old) (contents self.new) key.now bytes.now result };
}
