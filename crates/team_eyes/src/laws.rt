// What the frame of a pass shows.
ghost use Rattle.team_eyes.specs.Shown.{FramesShowMoments};

use scale_pick::pictures_show_moments;

/// Each pixel of a frame shows a number that its voxel had, in the whole history, while the frame was painted: exactly the one of its
/// array where nobody wrote it meanwhile. Or it is blank.
pub fn frames_show_moments<S, M>()
    ensures { FramesShowMoments S M }
{
    pictures_show_moments();
}
