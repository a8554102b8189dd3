//! The law of runs on one thread: what a run tells, paints and leaves is one function of its commands, of what its stores hold, and of which of
//! their calls failed or found no memory. There is no code to run here.
#![tactic(auto)]

ghost use Rattle.alike_runs.specs.Runs.{RunsAreAlike};

use alike_caches::{gets_are_alike, sets_are_alike, shuts_are_alike};
use alike_frames::{fetches_are_alike, frames_are_alike, frames_ask_alike, pictures_are_one};

/// Runs of the same commands over stores that hold the same, whose calls of the stores fail alike, tell the same, with the same
/// pictures, and leave the same but under keys whose last put was not done.
pub fn runs_are_alike()
    ensures { RunsAreAlike }
{
    gets_are_alike();
    sets_are_alike();
    shuts_are_alike();
    frames_are_alike();
    frames_ask_alike();
    fetches_are_alike();
    pictures_are_one();
}
