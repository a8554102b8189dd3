//! A law of calls.
ghost use Rattle.viewrun_calls.specs.Clean.{CanBeGivenAlike, CleanCallsAreOne, FailsAsItself};

use alike_runs::runs_are_alike;
use n5_meta::openings_are_alike;

/// Two calls whose stores answer each call end alike, and leave stores that hold the same under every key. What is asked of two calls can
/// be met: the same script and stores are given alike, and calls fail as they fail themselves.
pub fn clean_calls_are_one()
    ensures one { CleanCallsAreOne }
    ensures given { CanBeGivenAlike }
    ensures met { FailsAsItself }
{
    runs_are_alike();
    openings_are_alike();
}
