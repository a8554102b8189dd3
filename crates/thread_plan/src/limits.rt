// The fewest slots of a run by threads.
ghost use Rattle.std.specs.Prelude.{◌≡◌, ◌≤◌, All, length};
ghost use Rattle.thread_plan.specs.Limits as limits;
ghost use Rattle.thread_plan.specs.Limits.{low_of};

use plain_data::Items;
use view_script::Command;

/// The fewest slots that any run takes.
const FEWEST: u64 = 2;

/// The fewest slots of a script's phases beside so many fetchers: two for each actor of a phase, one for each fetcher, and one, and at
/// least 2. Each actor may hold a cell while it turns another out.
pub fn least_slots(phases: &[Items<Items<Command>>], fetchers: u32) -> u64
    requires actors { All (λ actors. length actors ≤ 16) phases.now }
    requires fetchers { fetchers ≤ 16 }
    ensures { result ≡ low_of phases.now fetchers }
{
    let most = most_actors(phases) as u64;
    FEWEST.max(2 * most + u64::from(fetchers) + 1)
}

/// The most actors of a phase.
#[tactic(auto, using(crate::proofs::LimitLemmas::most_more))]
fn most_actors(phases: &[Items<Items<Command>>]) -> usize
    requires { All (λ actors. length actors ≤ 16) phases.now }
    ensures most { result ≡ limits.most_actors phases.now }
    ensures few { result ≤ 16 }
{
    let mut most = 0;
    for actors in phases {
        most = most.max(actors.len());
    }
    most
}
