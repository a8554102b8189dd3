// The parts of a journal, taken from the front.
ghost use Rattle.std.specs.Prelude.{◌≡◌, ℕ, ◌^◌, ◌<◌, ◌++◌, List, length, IfSome, IsSome};
ghost use Rattle.put_journal.specs.Journal.{word};

use byteorder::{BigEndian, ByteOrder};

/// The number at the front, and the bytes behind it.
pub(crate) fn take_word(bytes: &[u8]) -> Option<(u64, &[u8])>
    ensures whole { IfSome result (λ r. bytes.now ≡ word r.0 ++ r.1.now) }
    ensures fits { IfSome result (λ r. r.0 < 2 ^ 64) }
    ensures only { (n : ℕ) (rest : List ℕ) → n < 2 ^ 64 → bytes.now ≡ word n ++ rest → IsSome result }
    ensures same { (n : ℕ) (rest : List ℕ) → n < 2 ^ 64 → bytes.now ≡ word n ++ rest → IfSome result (λ r. (r.0 ≡ n) × (r.1.now ≡ rest)) }
{
    if bytes.len() < 8 {
        return None;
    }
    let (front, rest) = bytes.split_at(8);
    let n = BigEndian::read_u64(front);
    if front == n.to_be_bytes().as_slice() {
        Some((n, rest))
    } else {
        None
    }
}

/// So many bytes at the front, and the bytes behind them.
pub(crate) fn take_part(bytes: &[u8], len: u64) -> Option<(&[u8], &[u8])>
    ensures whole { IfSome result (λ r. (bytes.now ≡ r.0.now ++ r.1.now) × (length r.0.now ≡ len)) }
    ensures only { (part rest : List ℕ) → length part ≡ len → bytes.now ≡ part ++ rest → IsSome result }
    ensures same { (part rest : List ℕ) → length part ≡ len → bytes.now ≡ part ++ rest → IfSome result (λ r. (r.0.now ≡ part) × (r.1.now ≡ rest)) }
{
    if len <= bytes.len() as u64 {
        Some(bytes.split_at(len as usize))
    } else {
        None
    }
}
