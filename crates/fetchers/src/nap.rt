// Rest between servings.
ghost use Rattle.std.specs.Prelude.{◌≤◌};
ghost use Rattle.fetchers.specs.declared.nap.TheConstants.{LONGEST};

use std::sync::Wait;
use std::thread::Parker;
use std::time::Duration;

/// The shortest and the longest nap, in microseconds.
const SHORTEST: u64 = 50;

const LONGEST: u64 = 1000;

/// How a fetcher rests where it has nothing to do: each nap in a row is twice as long as the one before, up to the longest.
#[derive(Drop)]
pub(crate) struct Nap {
    parker: Parker,
    micros: u64,
    ghost short: { micros ≤ LONGEST },
}

impl Nap {
    /// The next nap is the shortest.
    pub(crate) fn new() -> Nap {
        Nap {
            parker: Parker::new(),
            micros: SHORTEST,
        }
    }

    /// Sleeps for one nap, or less.
    pub(crate) fn take<R: Wait>(&mut self, rt: &R) {
        self.parker
            .park_timeout(rt, Duration::from_micros(self.micros));
        self.micros = (self.micros * 2).min(LONGEST);
    }

    /// There was something to do: the next nap is the shortest again.
    pub(crate) fn end(&mut self) {
        self.micros = SHORTEST;
    }
}
