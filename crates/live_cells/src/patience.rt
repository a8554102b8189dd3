// Waiting for other passes.

use crossbeam_utils::Backoff;
use std::sync::Wait;
use std::sync::atomic::AtomicU64;
use std::thread;
use std::time::Duration;

/// How often a pass spins and yields before it naps. A spin takes up to a microsecond, so these tries take about as long as the
/// shortest nap does, which the system makes some 50 microseconds longer than it is asked for: a small cell is loaded by then.
const SPINS: u32 = 40;

/// The shortest and the longest nap, in microseconds. Each is no longer than all that was waited before it, and by the longest
/// a great cell, whose load takes milliseconds, is tried a few times and not some dozens.
const SHORTEST: u64 = 50;

const LONGEST: u64 = 400;

/// How long a pass has waited for others: it spins and lets other threads go first, and after some tries it naps between two,
/// each time twice as long.
#[derive(Drop)]
pub(crate) struct Patience {
    spins: u32,
    backoff: Backoff,
    micros: u64,
}

impl Patience {
    pub(crate) fn new() -> Patience {
        Patience {
            spins: 0,
            backoff: Backoff::new(),
            micros: SHORTEST,
        }
    }

    pub(crate) fn wait<R: Wait>(&mut self, rt: &R) {
        if self.spins < SPINS {
            self.spins += 1;
            self.backoff.spin();
            thread::yield_now();
        } else {
            AtomicU64::new(0).park_timeout(rt, 0, Duration::from_micros(self.micros));
            self.micros = self.micros.saturating_mul(2).min(LONGEST);
        }
    }
}
