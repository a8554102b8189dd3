// Laws of the demonstration.
ghost use Rattle.demo_frames.specs.Answers.{DemoIsAnswered};
ghost use Rattle.demo_frames.specs.Showing.{DemoIsShown};

/// A run by threads of the demonstration's script that refuses no command paints the pictures that its number decides.
pub fn demo_is_shown()
    ensures { DemoIsShown }
{}

/// Each edit of it was done then, and each of its pictures is complete.
pub fn demo_is_answered()
    ensures { DemoIsAnswered }
{}
