// How many loads a frame has left.
ghost use Rattle.std.specs.Prelude.{◌≡◌, true};
ghost use Rattle.volatile_cell.specs.Budget.{whole, loads_by, asks_by, spent};

use scale_pick::Strategy;
use std::marker::Model;

/// The strategy of a frame, and how many loads it has left.
#[derive(Drop)]
pub struct Budget {
    strategy: Strategy,
    left: u32,
}

impl Model for Budget {
    ghost use Rattle.volatile_cell.specs.Budget.{Allowance};

    ghost Value = { Allowance };

    ghost view = { λ b. record { strategy = b.strategy; left = b.left } };
}

impl Budget {
    /// The whole budget of a strategy: the loads of `Budgeted`, and 0 for the others, which count none.
    pub fn new(strategy: Strategy) -> Budget
        ensures { result ≡ whole strategy }
    {
        let left = match strategy {
            Strategy::Budgeted(loads) => loads,
            _ => 0,
        };
        Budget { strategy, left }
    }

    /// Whether a look loads a cell that isn't live.
    pub fn loads(&self) -> bool
        ensures { result ≡ loads_by self.now.strategy self.now.left }
    {
        match self.strategy {
            Strategy::Blocking => true,
            Strategy::Budgeted(_) => self.left > 0,
            Strategy::Volatile | Strategy::DontLoad => false,
        }
    }

    /// Counts a handle that a look gave which loads; its cell may have been loaded.
    pub fn spend(&mut self, loaded: bool)
        requires { loads_by self.old.strategy self.old.left ≡ true }
        ensures { self.new ≡ spent self.old loaded }
    {
        match self.strategy {
            Strategy::Budgeted(_) if loaded => self.left -= 1,
            _ => {}
        }
    }

    /// Whether a look asks the queue for a cell that isn't ready.
    pub fn asks(&self) -> bool
        ensures { result ≡ asks_by self.now.strategy }
    {
        match self.strategy {
            Strategy::Budgeted(_) | Strategy::Volatile => true,
            Strategy::Blocking | Strategy::DontLoad => false,
        }
    }
}
