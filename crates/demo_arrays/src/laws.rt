// Laws of stores that hold the demonstration's pyramid.
ghost use Rattle.demo_arrays.specs.Laws.{AttributesAreHeld, DemoStands, HoldingAlike, MakingHolds, NoneIsVoid};

/// Once each of its keys was made, stores hold the demonstration's pyramid.
pub fn making_holds()
    ensures { MakingHolds }
{}

/// Stores that hold the same as some that hold the pyramid hold it too.
pub fn holding_alike()
    ensures { HoldingAlike }
{}

/// Where stores hold the pyramid, the first one holds the attributes.
pub fn attributes_are_held()
    ensures { AttributesAreHeld }
{}

/// Where stores hold the pyramid, they stand for the voxels of level 0 that the number decides.
pub fn demo_stands()
    ensures { DemoStands }
{}

/// Where stores hold the pyramid, they have an array of each cell.
pub fn none_is_void()
    ensures { NoneIsVoid }
{}
