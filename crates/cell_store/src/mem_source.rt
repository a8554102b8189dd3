// A source in memory, some of whose reads fail.
ghost use Rattle.std.specs.Prelude.{◌≡◌, ◌+◌, ◌-◌, ◌^◌, ◌<◌, ◌≤◌, ℕ, List, true, length, min, take, drop, vec_len, if◌then◌else◌};
ghost use Rattle.cell_store.specs.Calls.{counted, fails_next};
ghost use Rattle.cell_store.specs.Pieces.{Pieces, stream_of, read_answer};
ghost use Rattle.cell_store.specs.Stream.{Takes};

use crate::calls::Calls;
use crate::{Source, Took};
use std::marker::Model;

/// A source in memory, for tests. It tells what is left, reads a piece a call, and its reads of given numbers,
/// counted from 1, answer `Failed`, also where nothing is left.
#[derive(Drop)]
pub struct MemSource {
    bytes: Vec<u8>,
    at: usize,
    piece: u32,
    calls: Calls,
}

impl Model for MemSource {
    ghost Value = { Pieces };

    ghost view = { λ s. record { bytes = drop s.at s.bytes.items; piece = s.piece; calls = s.calls } };

    ghost invariant = { λ s. 0 < s.piece };
}

impl MemSource {
    /// A source of these bytes, at most `piece` of them a read, whose reads of the numbers in `fail` answer
    /// `Failed`. It takes no memory.
    pub fn new(bytes: Vec<u8>, piece: u32, fail: Vec<u64>) -> MemSource
        requires { 1 ≤ piece }
        ensures { result ≡ record { bytes = bytes.items; piece = piece; calls = record { failing = fail.items; made = 0; faults = 0 } } }
    {
        MemSource {
            bytes,
            at: 0,
            piece,
            calls: Calls::new(fail),
        }
    }
}

impl Source for MemSource {
    ghost stream = { stream_of };

    fn read(&mut self, into: &mut [u8]) -> Took
        requires { 0 < length into.old }
        ensures takes { Takes (stream_of self.old) (stream_of self.new) into.new result }
        ensures answer { result ≡ read_answer self.old (length into.old) }
        ensures counts { self.new.calls ≡ counted self.old.calls }
        ensures piece { self.new.piece ≡ self.old.piece }
    {
        if self.calls.next_fails() {
            return Took::Failed;
        }
        if self.at >= self.bytes.len() {
            return Took::End;
        }
        let n = copy_front(&self.bytes[self.at..], into, self.piece as usize);
        self.at += n;
        Took::Read { n }
    }
}

/// Copies the first bytes of a list to the front of another, as many as both have and at most `most`.
fn copy_front(from: &[u8], into: &mut [u8], most: usize) -> usize
    ensures count { result ≡ min (min (length from.now) (length into.old)) most }
    ensures bytes { take result into.new ≡ take result from.now }
{
    let n = from.len().min(into.len()).min(most);
    into[..n].copy_from_slice(&from[..n]);
    n
}

#[cfg(test)]
mod tests {
    use super::*;
    use std::test::Fail;

    #[test]
    fn a_source_in_memory_gives_pieces_and_fails_at_its_end_too(
        rt: HostRuntime,
    ) -> Result<(), Fail> {
        let alloc = rt.alloc();
        let bytes = [1u8, 2, 3].to_vec(alloc)?;
        let mut source = MemSource::new(bytes, 2, [2, 4].to_vec(alloc)?);
        let mut into = [0u8; 3];
        assert_eq!(rt; source.read(&mut into), Took::Read { n: 2 });
        assert_eq!(rt; into.as_slice(), [1, 2, 0].as_slice());
        assert_eq!(rt; source.read(&mut into), Took::Failed);
        assert_eq!(rt; source.read(&mut into), Took::Read { n: 1 });
        assert_eq!(rt; into.as_slice(), [3, 2, 0].as_slice());
        assert_eq!(rt; source.read(&mut into), Took::Failed);
        assert_eq!(rt; source.read(&mut into), Took::End);
        Ok(())
    }
}
