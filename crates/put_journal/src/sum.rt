// The sum that tells whether a journal's body is the one that its head speaks of.
ghost use Rattle.std.specs.Prelude.{◌≡◌, ◌+◌, ◌%◌, ◌^◌};
ghost use Rattle.put_journal.specs.Journal.{byte_sum};

/// The sum of bytes in 64 bits, which wraps.
fn sum_of(bytes: &[u8]) -> u64
    ensures { result ≡ byte_sum bytes.now }
{
    let mut total = 0u64;
    for byte in bytes {
        total = total.wrapping_add(*byte as u64);
    }
    total
}

/// The sums of a key and of a front, added in 64 bits.
pub(crate) fn sums(key: &[u8], front: &[u8]) -> u64
    ensures { result ≡ (byte_sum key.now + byte_sum front.now) % 2 ^ 64 }
{
    sum_of(key).wrapping_add(sum_of(front))
}
