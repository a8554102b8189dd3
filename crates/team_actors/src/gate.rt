// What stands round each command of an actor.
/// A gate of a run by threads: it is told before and after each command of an actor, with the number of the phase, of the actor in the
/// phase and of the call. Its calls always return, and nothing that is proved of a run depends on them; a test holds actors by it.
pub trait Gate: Sync {
    fn before(&self, phase: u32, actor: u32, call: u32);

    fn after(&self, phase: u32, actor: u32, call: u32);
}

/// The gate that holds nobody.
#[derive(Drop)]
pub struct OpenGate;

impl Gate for OpenGate {
    fn before(&self, _phase: u32, _actor: u32, _call: u32) {}

    fn after(&self, _phase: u32, _actor: u32, _call: u32) {}
}
