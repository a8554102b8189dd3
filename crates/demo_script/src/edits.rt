// The edits of the demonstration's first phase.
ghost use Rattle.std.specs.Prelude.{◌≡◌, ◌<◌, IfOk};
ghost use Rattle.demo_script.specs.Script.{edit, edits};

use plain_data::Items;
use std::alloc::{AllocError, Global};
use view_script::Command;

/// How many edits an actor makes.
const EDITS: u64 = 256;

/// The edits of an actor.
#[tactic(auto, using(crate::proofs::EditsLemmas::edits_more, crate::proofs::EditsLemmas::edits_none))]
pub(crate) fn edits(alloc: Global, actor: u64) -> Result<Items<Command>, AllocError>
    requires { actor < 4 }
    ensures { IfOk result (λ commands. commands ≡ edits actor 256) }
{
    let mut commands = Items::new(alloc);
    for call in 0..EDITS {
        commands.push(edit(actor, call))?;
    }
    Ok(commands)
}

/// An edit of an actor.
fn edit(actor: u64, call: u64) -> Command
    requires actor { actor < 4 }
    requires call { call < 256 }
    ensures { result ≡ edit actor call }
{
    Command::Set {
        level: 0,
        pos: [2 * call, 128 * actor + call % 128, 7 * call % 64],
        value: 1000 * actor + call,
    }
}
