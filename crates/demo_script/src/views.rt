// The views of the demonstration's second phase.
ghost use Rattle.std.specs.Prelude.{◌≡◌, [], ◌∷◌, IfOk, IsTrue, true};
ghost use Rattle.whole_affine.specs.Affine.{is_small};
ghost use Rattle.view_script.specs.Name.{is_view_name};
ghost use Rattle.demo_script.specs.Script.{map_at, show_at};

use plain_data::Items;
use scale_pick::{Strategy, View};
use std::alloc::{AllocError, Global};
use view_script::{Command, Name};
use whole_affine::Affine;

/// The sides of a picture, in pixels.
const SIDE: u32 = 512;

/// The one command of an actor: a picture under a name, at a depth of level 0.
pub(crate) fn show(alloc: Global, name: &[u8], depth: i64) -> Result<Items<Command>, AllocError>
    requires name { is_view_name name.now ≡ true }
    requires small { is_small depth ≡ true }
    ensures { IfOk result (λ commands. commands ≡ show_at name.now depth ∷ []) }
{
    let Some(name) = Name::of(name) else {
        unreachable!()
    };
    let view = View {
        affine: map_at(depth),
        width: SIDE,
        height: SIDE,
        level: Some(0),
        strategy: Strategy::Blocking,
        low: 0,
        high: 65535,
    };
    let mut commands = Items::new(alloc);
    commands.push(Command::View { name, view })?;
    Ok(commands)
}

/// The map of a picture that is a slice across z, a pixel for each voxel.
fn map_at(depth: i64) -> Affine
    requires small { is_small depth ≡ true }
    ensures { result ≡ map_at depth }
{
    match Affine::new(1, [[1, 0, 0], [0, 1, 0], [0, 0, depth]]) {
        Ok(map) => map,
        Err(_) => unreachable!(),
    }
}
