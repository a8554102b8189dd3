// Gets and sets of a voxel.
ghost use Rattle.std.specs.Prelude.{◌≡◌, ◌<◌, List};
ghost use Rattle.arr_history.specs.declared.event.Event.{Event};
ghost use Rattle.sole_cache.specs.Cached.{handles_out};
ghost use Rattle.sole_cache.specs.Moves.{Runs};
ghost use Rattle.store_calls.specs.Calls.{StoreCall};
ghost use Rattle.team_run.specs.Serve.{IsGot, IsPutTask};

use crate::outcomes::refusal_of;
use cell_store::Store;
use run_report::Answer;
use sole_cache::SoleCache;

/// Answers the value of a voxel.
pub fn get<S: Store>(cache: &mut SoleCache<S>, level: u8, pos: [u64; 3]) -> Answer
    requires room { handles_out cache.old < 64 }
    ensures got { (events : List Event) × (stores : List StoreCall) × IsGot cache.old level pos result events stores cache.new × Runs cache.old events cache.new }
    ensures handles { handles_out cache.new ≡ handles_out cache.old }
{
    match cache.get(level, pos) {
        Ok(value) => Answer::Value(value),
        Err(err) => Answer::Refused(refusal_of(err)),
    }
}

/// Gives a voxel a value.
pub fn set<S: Store>(cache: &mut SoleCache<S>, level: u8, pos: [u64; 3], value: u64) -> Answer
    requires room { handles_out cache.old < 64 }
    ensures put { (events : List Event) × (stores : List StoreCall) × IsPutTask cache.old level pos value result events stores cache.new × Runs cache.old events cache.new }
    ensures handles { handles_out cache.new ≡ handles_out cache.old }
{
    match cache.set(level, pos, value) {
        Ok(()) => Answer::Done,
        Err(err) => Answer::Refused(refusal_of(err)),
    }
}
