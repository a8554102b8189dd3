// A fetch of so many requests.
ghost use Rattle.std.specs.Prelude.{◌≡◌};
ghost use Rattle.fetchers.specs.Servings.{IsFetch};

use crate::fetched::Fetched;
use crate::served::Served;
use crate::serving::serve_one;
use cell_file::AcquireErr;
use std::alloc::AllocError;
use volatile_cell::Eyes;

/// A serving was refused for want of memory.
pub type Memory = AllocError;

/// Serves so many requests, or fewer where the queue has no more, and counts what became of them. It takes no memory of its own.
///
/// An error where a serving was refused for want of memory; it serves no further then. Other refusals are counted.
pub fn serve_up_to<E: Eyes>(eyes: &mut E, count: u32) -> Result<Fetched, Memory>
    requires free { E.held eyes.old ≡ 0 }
    ensures fetch { IsFetch E.front eyes.old count result eyes.new }
    ensures free { E.held eyes.new ≡ 0 }
{
    let mut fetched = Fetched {
        loaded: 0,
        held: 0,
        refused: 0,
    };
    for _ in 0..count {
        match serve_one(eyes) {
            Served::Idle => return Ok(fetched),
            Served::Held => fetched.held += 1,
            Served::Loaded => fetched.loaded += 1,
            Served::Refused(refusal) => match refusal {
                AcquireErr::Memory => return Err(AllocError),
                _ => fetched.refused += 1,
            },
        }
    }
    Ok(fetched)
}
