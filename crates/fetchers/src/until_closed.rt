// Serving until a flag is set.
ghost use Rattle.std.specs.Prelude.{◌≡◌};
ghost use Rattle.fetchers.specs.Servings.{AreServed};

use crate::nap::Nap;
use crate::served::Served;
use crate::serving::serve_one;
use std::sync::Wait;
use std::sync::atomic::{AtomicBool, Ordering};
use volatile_cell::Eyes;

/// Serves requests until a load of the flag shows true.
///
/// Where the queue has none, or a serving is refused, it sleeps first: 50 microseconds, and twice as long each time in a row up to
/// a millisecond. So an idle fetcher costs next to nothing, and serves a new request within a millisecond.
pub fn serve_until_closed<R: Wait, E: Eyes>(rt: &R, eyes: &mut E, stop: &AtomicBool)
    requires free { E.held eyes.old ≡ 0 }
    ensures served { AreServed E.front eyes.old eyes.new }
    ensures free { E.held eyes.new ≡ 0 }
{
    let mut nap = Nap::new();
    for _ in rt.forever() {
        if stop.load(Ordering::SeqCst) {
            return;
        }
        match serve_one(eyes) {
            Served::Held | Served::Loaded => nap.end(),
            Served::Idle | Served::Refused(_) => nap.take(rt),
        }
    }
    unreachable!()
}
