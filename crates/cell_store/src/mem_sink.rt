// A sink in memory, some of whose writes fail.
ghost use Rattle.std.specs.Prelude.{◌≡◌, ◌≢◌, ◌+◌, ◌-◌, ◌^◌, ◌<◌, ◌≤◌, ℕ, List, [], ◌++◌, true, IsTrue, length, min, take, vec_len, if◌then◌else◌};
ghost use Rattle.cell_store.specs.Calls.{counted, fails_next};
ghost use Rattle.cell_store.specs.Pieces.{Pieces, stream_of, write_answer};
ghost use Rattle.cell_store.specs.Stream.{Gives};

use crate::calls::Calls;
use crate::{Gave, Sink};
use std::alloc::Global;
use std::marker::Model;

/// A sink in memory, for tests. It tells what is written, takes a piece a call, and its writes of given numbers,
/// counted from 1, answer `Failed`.
#[derive(Drop)]
pub struct MemSink {
    bytes: Vec<u8>,
    piece: u32,
    calls: Calls,
}

impl Model for MemSink {
    ghost Value = { Pieces };

    ghost view = { λ s. record { bytes = s.bytes.items; piece = s.piece; calls = s.calls } };

    ghost invariant = { λ s. 0 < s.piece };
}

impl MemSink {
    /// An empty sink that takes at most `piece` bytes a write, and whose writes of the numbers in `fail` answer
    /// `Failed`. It takes no memory.
    pub fn new(alloc: Global, piece: u32, fail: Vec<u64>) -> MemSink
        requires { 1 ≤ piece }
        ensures { result ≡ record { bytes = []; piece = piece; calls = record { failing = fail.items; made = 0; faults = 0 } } }
    {
        MemSink {
            bytes: Vec::new(alloc),
            piece,
            calls: Calls::new(fail),
        }
    }

    /// The bytes that were written.
    pub fn bytes(&self) -> &[u8]
        ensures { result.now ≡ self.now.bytes }
    {
        self.bytes.as_slice()
    }
}

impl Sink for MemSink {
    ghost stream = { stream_of };

    fn write(&mut self, bytes: &[u8]) -> Gave
        requires { 0 < length bytes.now }
        ensures gives { Gives (stream_of self.old) (stream_of self.new) bytes.now result }
        ensures answer { result ≢ Gave.NoMemory → result ≡ write_answer self.old (length bytes.now) }
        ensures fails { IsTrue (fails_next self.old.calls) → result ≡ Gave.Failed }
        ensures counts { self.new.calls ≡ counted self.old.calls }
        ensures piece { self.new.piece ≡ self.old.piece }
    {
        if self.calls.next_fails() {
            return Gave::Failed;
        }
        let n = bytes.len().min(self.piece as usize);
        match self.bytes.extend_from_slice(&bytes[..n]) {
            Ok(()) => Gave::Wrote { n },
            Err(_) => Gave::NoMemory,
        }
    }
}

#[cfg(test)]
mod tests {
    use super::*;
    use std::test::Fail;

    #[test]
    fn a_sink_in_memory_takes_pieces_and_fails_at_the_given_writes(
        rt: HostRuntime,
    ) -> Result<(), Fail> {
        let alloc = rt.alloc();
        let mut sink = MemSink::new(alloc, 5, [2].to_vec(alloc)?);
        assert_eq!(rt; sink.write(b"0.0.0 value"), Gave::Wrote { n: 5 });
        assert_eq!(rt; sink.write(b" value"), Gave::Failed);
        assert_eq!(rt; sink.bytes(), b"0.0.0".as_slice());
        assert_eq!(rt; sink.write(b"!"), Gave::Wrote { n: 1 });
        assert_eq!(rt; sink.bytes(), b"0.0.0!".as_slice());
        Ok(())
    }
}
