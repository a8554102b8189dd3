// A law of the demonstration.
ghost use Rattle.demo_levels.specs.Reading.{DemoIsRead};

/// In a store that holds the attributes that the demonstration puts, its pyramid is the one of its levels.
pub fn demo_is_read()
    ensures { DemoIsRead }
{}
