// Laws of notes, moments and pictures.
ghost use Rattle.scale_pick.specs.Laws.{NotedLooks, ReadMoments, ShownMoments, BlockingIsComplete};

/// The notes of a frame are its reads and its not-ready looks, and nothing else.
pub fn looks_are_noted()
    ensures { NotedLooks }
{}

/// What a pass read of a voxel is a number that the voxel had while the pass was at work.
pub fn reads_are_of_moments()
    ensures { ReadMoments }
{}

/// The number that a pixel shows is one that its voxel had while the frame was painted.
pub fn pictures_show_moments()
    ensures { ShownMoments }
{
    looks_are_noted();
    reads_are_of_moments();
}

/// A frame that loads what isn't there is complete.
pub fn blocking_is_complete()
    ensures { BlockingIsComplete }
{
    looks_are_noted();
}
