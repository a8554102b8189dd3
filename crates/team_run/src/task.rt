// What is due in a run.
use scale_pick::{Picture, View};
use view_script::Name;

/// What an actor does, with the picture that it paints, where it is a view.
#[derive(Drop)]
pub enum Task {
    Get {
        level: u8,
        pos: [u64; 3],
    },
    Set {
        level: u8,
        pos: [u64; 3],
        value: u64,
    },
    View {
        name: Name,
        view: View,
        picture: Picture,
    },
    Fetch {
        count: u32,
    },
}

/// A task and its number: its phase, its actor in the phase and its call of the actor, each from 0.
#[derive(Drop)]
pub struct Due {
    pub phase: u32,
    pub actor: u32,
    pub call: u32,
    pub task: Task,
}
