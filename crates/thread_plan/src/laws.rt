// How the commands of parts stand to those of a script.
ghost use Rattle.thread_plan.specs.Scenes.{ScenesAreCommands};

/// The commands of all parts, one after another, are those of the script.
pub fn scenes_are_commands()
    ensures { ScenesAreCommands }
{}
