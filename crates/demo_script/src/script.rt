// The script of the demonstration.
ghost use Rattle.std.specs.Prelude.{◌≡◌, IfOk};
ghost use Rattle.view_script.specs.Script.{IsScript};
ghost use Rattle.demo_script.specs.Script as stated;

use crate::edits::edits;
use crate::views::show;
use plain_data::{Items, Text};
use std::alloc::{AllocError, Global};
use view_script::{Command, Head, Script};

/// The script of the demonstration: four actors edit 256 voxels each, and then each of four actors paints a slice across z.
#[tactic(auto, using(crate::proofs::ScriptLemmas::demo_is_script))]
pub fn demo_script(alloc: Global) -> Result<Script, AllocError>
    ensures script { IfOk result (λ script. script ≡ stated.demo_script) }
    ensures limits { IfOk result IsScript }
{
    let root = Text::from_str(alloc, "demo")?;
    let mut phases = Items::new(alloc);
    phases.push(editing(alloc)?)?;
    phases.push(showing(alloc)?)?;
    Ok(Script {
        head: Head::Pyramid { root },
        range: Some([0, 65535]),
        phases,
    })
}

/// The phase of the edits.
fn editing(alloc: Global) -> Result<Items<Items<Command>>, AllocError>
    ensures { IfOk result (λ actors. actors ≡ stated.editing) }
{
    let mut actors = Items::new(alloc);
    actors.push(edits(alloc, 0)?)?;
    actors.push(edits(alloc, 1)?)?;
    actors.push(edits(alloc, 2)?)?;
    actors.push(edits(alloc, 3)?)?;
    Ok(actors)
}

/// The phase of the pictures.
fn showing(alloc: Global) -> Result<Items<Items<Command>>, AllocError>
    ensures { IfOk result (λ actors. actors ≡ stated.showing) }
{
    let mut actors = Items::new(alloc);
    actors.push(show(alloc, b"demo0", 8)?)?;
    actors.push(show(alloc, b"demo1", 24)?)?;
    actors.push(show(alloc, b"demo2", 40)?)?;
    actors.push(show(alloc, b"demo3", 56)?)?;
    Ok(actors)
}
