//! How often things happened in a run.
ghost use Rattle.std.specs.Prelude.{◌≡◌, [], ◌∷◌};
ghost use Rattle.arr_history.specs.Tally.{tally_raised, plus};

use crate::event::Event;

/// The counts of a run. Each stays at 2^64 - 1 once it has come there.
#[derive(Clone, Copy, Debug, PartialEq, Eq, Default)]
pub struct Tally {
    /// Cells found live.
    pub hits: u64,
    /// Cells looked for that weren't live.
    pub misses: u64,
    /// Cells loaded.
    pub loads: u64,
    /// Cells that left before the shutting.
    pub evictions: u64,
    /// Cells that were put as they left.
    pub writebacks: u64,
    /// Cells that left at the shutting.
    pub closed: u64,
}

impl Tally {
    /// The counts with an event that comes before the shutting.
    pub fn with_event(mut self, event: &Event) -> Tally
        ensures { result ≡ tally_raised self (event.now ∷ []) [] }
    {
        match *event {
            Event::Pin { .. } => self.hits = self.hits.saturating_add(1),
            Event::Miss { .. } => self.misses = self.misses.saturating_add(1),
            Event::Live { .. } => self.loads = self.loads.saturating_add(1),
            Event::Gone { saved, .. } => {
                self.evictions = self.evictions.saturating_add(1);
                self.writebacks = self.writebacks.saturating_add(saved as u64);
            }
            _ => {}
        }
        self
    }

    /// The counts with an event of the shutting.
    pub fn with_closing(self, event: &Event) -> Tally
        ensures { result ≡ tally_raised self [] (event.now ∷ []) }
    {
        let mut counted = self.with_event(event);
        counted.evictions = self.evictions;
        if let Event::Gone { .. } = *event {
            counted.closed = self.closed.saturating_add(1);
        }
        counted
    }

    /// The counts of two runs together.
    pub fn plus(self, other: Tally) -> Tally
        ensures { result ≡ plus self other }
    {
        Tally {
            hits: self.hits.saturating_add(other.hits),
            misses: self.misses.saturating_add(other.misses),
            loads: self.loads.saturating_add(other.loads),
            evictions: self.evictions.saturating_add(other.evictions),
            writebacks: self.writebacks.saturating_add(other.writebacks),
            closed: self.closed.saturating_add(other.closed),
        }
    }
}
