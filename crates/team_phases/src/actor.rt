// An actor of a phase, and what it leaves.
use run_report::{Reply, Shot};
use team_passes::TeamPass;
use thread_plan::Part;

/// An actor: its passes, and its part.
#[derive(Drop)]
pub struct Actor<S> {
    pub pass: TeamPass<S>,
    pub part: Part,
}

/// What an actor leaves of its part: a reply for each command, and a shot for each view.
#[derive(Drop)]
pub struct PartDone {
    pub replies: Vec<Reply>,
    pub shots: Vec<Shot>,
}
