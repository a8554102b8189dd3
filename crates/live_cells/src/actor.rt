// A pass of the table with its counts.
ghost use Rattle.std.specs.Prelude.{◌≡◌, [], ◌∷◌};
ghost use Rattle.arr_history.specs.Tally.{tally_raised};

use arr_history::{Event, Tally};
use pin_rule::Pass;

/// A pass, and the counts of what it has made.
pub(crate) struct Actor<S> {
    pub(crate) pass: Pass<S>,
    pub(crate) tally: Tally,
}

impl<S> Drop for Actor<S> {
    fn drop(self) {
        let Self { pass: _, tally: _ } = self;
    }
}

impl<S> Actor<S> {
    pub(crate) fn into_parts(self) -> (Pass<S>, Tally)
        ensures { (result.0 ≡ self.pass) × (result.1 ≡ self.tally) }
    {
        let Self { pass, tally } = self;
        (pass, tally)
    }
}

/// Counts an event before the shutting.
pub(crate) fn count(tally: &mut Tally, event: &Event)
    ensures { tally.new ≡ tally_raised tally.old (event.now ∷ []) [] }
{
    *tally = tally.with_event(event);
}
