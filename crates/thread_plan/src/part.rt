// What an actor is to do.
use run_report::{Reply, Shot};
use team_run::Due;

/// The tasks of an actor, in order, and room for their replies and for the shots of those that are views.
#[derive(Drop)]
pub struct Part {
    pub tasks: Vec<Due>,
    pub replies: Vec<Reply>,
    pub shots: Vec<Shot>,
}

/// The parts of a phase, one for each actor.
#[derive(Drop)]
pub struct Scene {
    pub parts: Vec<Part>,
}
