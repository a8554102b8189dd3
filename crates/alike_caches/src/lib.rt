//! Laws of caches that are alike: what one does on one thread is one function of what it is asked, of what its stores hold, and of which of their
//! calls fail. There is no code to run here.
#![tactic(auto)]

ghost use Rattle.alike_caches.specs.Laws.{AcquiresAreAlike, ReadsAreAlike, QuietIsAlike, GetsAreAlike, SetsAreAlike, ShutsAreAlike};

/// Acquires of a cell give the same answer by the same events, and leave caches that are alike.
pub fn acquires_are_alike()
    ensures { AcquiresAreAlike }
{}

/// Reads of a voxel give the same number.
pub fn reads_are_alike()
    ensures { ReadsAreAlike }
{}

/// The same events leave caches that are alike, where no store is asked and no cell leaves with a put.
pub fn quiet_is_alike()
    ensures { QuietIsAlike }
{}

/// Gets of a voxel give the same answer, and leave caches that are alike.
pub fn gets_are_alike()
    ensures { GetsAreAlike }
{}

/// So do sets.
pub fn sets_are_alike()
    ensures { SetsAreAlike }
{}

/// The puts by which caches are shut name the same cells, and leave stores that hold the same but under the keys of those.
pub fn shuts_are_alike()
    ensures { ShutsAreAlike }
{}
