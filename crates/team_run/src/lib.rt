//! Runs of scripts: each command once and in order, over one cache, which is shut then.
#![tactic(auto)]

mod fetch;
mod outcomes;
mod plan;
mod ran;
mod serve;
mod show;
mod solo;
mod stage;
mod task;
mod voxel;

pub use outcomes::{
    Outcome, add_reply, add_shot, answer_alone, answer_of_fetch, answer_with_shot, lacks_level,
    refusal_of,
};
pub use plan::plan_actor;
pub use ran::{Ran, RunErr};
pub use solo::{most_slots, solo_run};
pub use stage::{empty_queue, top_for, view_count};
pub use task::{Due, Task};
