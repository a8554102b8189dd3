//! Laws of frames and of servings over caches that are alike: on one thread what each does and answers is one function of what it is asked, of what
//! the stores hold, and of which of their calls fail. There is no code to run here.
#![tactic(auto)]

ghost use Rattle.alike_frames.specs.Frames.{FramesAreAlike, FramesAskAlike, PicturesAreOne};
ghost use Rattle.alike_frames.specs.Servings.{FetchesAreAlike};

use alike_caches::{acquires_are_alike, quiet_is_alike, reads_are_alike};

/// Frames of one view show the same, or are cut off for the same cause, and lead to caches that are alike.
pub fn frames_are_alike()
    ensures { FramesAreAlike }
{
    acquires_are_alike();
    reads_are_alike();
    quiet_is_alike();
}

/// Frames with the same events ask the queue the same.
pub fn frames_ask_alike()
    ensures { FramesAskAlike }
{}

/// Whole pictures that show the same are the same.
pub fn pictures_are_one()
    ensures { PicturesAreOne }
{}

/// Fetches from one queue come to the same servings and the same answer, and lead to caches that are alike.
pub fn fetches_are_alike()
    ensures { FetchesAreAlike }
{
    acquires_are_alike();
    reads_are_alike();
    quiet_is_alike();
}
