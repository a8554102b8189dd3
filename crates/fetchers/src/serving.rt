// The serving of a request.
ghost use Rattle.std.specs.Prelude.{◌≡◌, List};
ghost use Rattle.arr_history.specs.declared.event.Event.{Event};
ghost use Rattle.volatile_cell.specs.Asked.{Asked};
ghost use Rattle.fetchers.specs.Servings.{IsServing};

use crate::served::Served;
use volatile_cell::Eyes;

/// Serves the next request: it takes it, and acquires and releases its cell. It takes no memory of its own.
///
/// Idle exactly where the queue has no request; Refused exactly where the acquire was, with its error.
pub fn serve_one<E: Eyes>(eyes: &mut E) -> Served
    requires free { E.held eyes.old ≡ 0 }
    ensures served { (events : List Event) × (calls : List Asked) × IsServing E.front eyes.old result events calls eyes.new }
    ensures free { E.held eyes.new ≡ 0 }
{
    let Some(request) = eyes.next() else {
        return Served::Idle;
    };
    match eyes.acquire(request.cell) {
        Err(refusal) => Served::Refused(refusal),
        Ok(handle) => {
            let loaded = eyes.loaded(&handle);
            eyes.release(handle);
            if loaded { Served::Loaded } else { Served::Held }
        }
    }
}
