// A journal and its bytes.
ghost use Rattle.std.specs.Prelude.{◌≡◌, ℕ, ◌^◌, ◌<◌, List, [], OnOk, IfSome, IsSome, Some, Option};
ghost use Rattle.put_journal.specs.Journal.{Before, Tells, journal, len_of, file_kind};

use crate::parts::{take_part, take_word};
use crate::sum::sums;
use std::alloc::AllocError;

/// How many bytes stand before the key.
pub const HEAD: usize = 40;

/// Where the byte stands that tells whether a journal counts.
pub const TOLD: usize = 39;

/// What that byte is once a put has ended.
pub const DONE: u8 = 0;

/// What a key held before a put.
#[derive(Clone, Copy, Debug, PartialEq, Eq)]
pub struct Entry<'a> {
    pub key: &'a [u8],
    /// The length of the key's file, where there was one.
    pub len: Option<u64>,
    /// The first bytes of that file: those that the put writes over.
    pub front: &'a [u8],
}

/// Writes the journal of what a key held, in place of what the buffer held.
pub fn write_entry(
    into: &mut Vec<u8>,
    key: &[u8],
    len: Option<u64>,
    front: &[u8],
) -> Result<(), AllocError>
    ensures { OnOk result (into.new.items ≡ journal (record { key = key.now; len = len; front = front.now }) []) }
{
    into.clear();
    let sum = sums(key, front);
    into.extend_from_slice(&(key.len() as u64).to_be_bytes())?;
    into.extend_from_slice(&(front.len() as u64).to_be_bytes())?;
    into.extend_from_slice(&len_of(len).to_be_bytes())?;
    into.extend_from_slice(&sum.to_be_bytes())?;
    into.extend_from_slice(&kind_of(len).to_be_bytes())?;
    into.extend_from_slice(key)?;
    into.extend_from_slice(front)
}

/// What a journal tells, where its bytes are whole and the put has not ended.
pub fn entry_in(bytes: &[u8]) -> Option<Entry<'_>>
    ensures whole { IfSome result (λ e. Tells bytes.now (record { key = e.key.now; len = e.len; front = e.front.now })) }
    ensures only { (b : Before) → Tells bytes.now b → IsSome result }
    ensures same { (b : Before) → Tells bytes.now b → IfSome result (λ e. record { key = e.key.now; len = e.len; front = e.front.now } ≡ b) }
{
    let (key_len, rest) = take_word(bytes)?;
    let (front_len, rest) = take_word(rest)?;
    let (len, rest) = take_word(rest)?;
    let (sum, rest) = take_word(rest)?;
    let (kind, rest) = take_word(rest)?;
    let (key, rest) = take_part(rest, key_len)?;
    let (front, _) = take_part(rest, front_len)?;
    let len = len_told(kind, len)?;
    if sum == sums(key, front) {
        Some(Entry { key, len, front })
    } else {
        None
    }
}

/// The length of a file that is told by these two numbers.
fn len_told(kind: u64, len: u64) -> Option<Option<u64>>
    ensures whole { IfSome result (λ told. (kind ≡ file_kind told) × (len ≡ len_of told)) }
    ensures only { (told : Option ℕ) → kind ≡ file_kind told → len ≡ len_of told → result ≡ Some told }
{
    match (kind, len) {
        (1, len) => Some(Some(len)),
        (2, 0) => Some(None),
        _ => None,
    }
}

/// The length of a file, or 0.
fn len_of(len: Option<u64>) -> u64
    ensures { result ≡ len_of len }
{
    len.unwrap_or(0)
}

/// Whether there was a file.
fn kind_of(len: Option<u64>) -> u64
    ensures { result ≡ file_kind len }
{
    match len {
        Some(_) => 1,
        None => 2,
    }
}

#[cfg(test)]
mod tests {
    use super::*;
    use std::test::Fail;

    #[test]
    fn a_journal_is_read_as_it_was_written(rt: HostRuntime) -> Result<(), Fail> {
        let mut bytes = Vec::new(rt.alloc());
        write_entry(&mut bytes, b"ab", Some(5), &[1, 2, 255])?;
        // The sum 97 + 98 + 1 + 2 + 255 is 256 + 197.
        let mut wanted = [
            0u8, 0, 0, 0, 0, 0, 0, 2, 0, 0, 0, 0, 0, 0, 0, 3, 0, 0, 0, 0, 0, 0, 0, 5, 0, 0, 0, 0,
            0, 0, 1, 197, 0, 0, 0, 0, 0, 0, 0, 1, 97, 98, 1, 2, 255,
        ];
        assert_eq!(rt; bytes.as_slice(), wanted.as_slice());
        let entry = Entry {
            key: b"ab",
            len: Some(5),
            front: &[1, 2, 255],
        };
        bytes.push(9)?;
        assert_eq!(rt; entry_in(bytes.as_slice()), Some(entry));
        assert_eq!(rt; entry_in(&wanted[..44]), None);
        wanted[44] = 254;
        assert_eq!(rt; entry_in(&wanted), None);
        wanted[44] = 255;
        wanted[TOLD] = DONE;
        assert_eq!(rt; entry_in(&wanted), None);
        Ok(())
    }
}
