// Calls that are counted, of which some fail.
ghost use Rattle.std.specs.Prelude.{◌≡◌, ◌+◌, ◌-◌, ◌^◌, ◌≤◌, ◌==◌, IsTrue, min, if◌then◌else◌};
ghost use Rattle.std.specs.List.{list_any};
ghost use Rattle.cell_store.specs.Faults.{Rose};
ghost use Rattle.cell_store.specs.Calls.{CallCount, raised, fails_next, counted};

use std::marker::Model;

/// Calls counted from 1, of which those of given numbers fail. A count stays at its last value, 2^64 - 1.
#[derive(Drop)]
pub struct Calls {
    failing: Vec<u64>,
    made: u64,
    faults: u64,
}

impl Model for Calls {
    ghost Value = { CallCount };

    ghost view = { λ c. record { failing = c.failing.items; made = c.made; faults = c.faults } };
}

impl Calls {
    /// No call yet. It takes no memory.
    pub fn new(failing: Vec<u64>) -> Calls
        ensures { result ≡ record { failing = failing.items; made = 0; faults = 0 } }
    {
        Calls {
            failing,
            made: 0,
            faults: 0,
        }
    }

    /// Counts a call, and tells whether it fails. It searches the list of failing calls.
    pub fn next_fails(&mut self) -> bool
        ensures fails { result ≡ fails_next self.old }
        ensures counts { self.new ≡ counted self.old }
        ensures never_falls { self.old.faults ≤ self.new.faults }
        ensures rose { IsTrue result → Rose self.old.faults self.new.faults }
    {
        self.made = self.made.saturating_add(1);
        let fails = self.failing.contains(&self.made);
        if fails {
            self.faults = self.faults.saturating_add(1);
        }
        fails
    }
}
