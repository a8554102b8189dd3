//! What is due in a run by threads: parts for the actors of each phase, with all the memory that they need, and the fewest slots.
#![tactic(auto)]

mod counts;
mod laws;
mod limits;
mod part;
mod plan;

pub use counts::{part_count, shot_count, task_count};
pub use laws::scenes_are_commands;
pub use limits::least_slots;
pub use part::{Part, Scene};
pub use plan::plan_scenes;
