// A whole frame.
ghost use Rattle.std.specs.Prelude.{◌≡◌, ◌↔◌, ◌<◌, ◌≤◌, IsTrue, length, IfOk, IfErr, OnOk, IfSome};
ghost use Rattle.scale_pick.specs.declared.strategy.Strategy.TheVariants.{Blocking};
ghost use Rattle.scale_pick.specs.Painted.{painted_of, IsComplete};
ghost use Rattle.scale_pick.specs.Wanted.{wanted_level};
ghost use Rattle.hier_paint.specs.Frames.{IsFrame, IsCutOff};

use crate::find::open_hand;
use crate::hand::Hand;
use crate::paint_rows::paint_rows;
use cell_file::AcquireErr;
use cell_grid::Geometry;
use scale_pick::{Painted, Picture, Shades, View, best, blocking_is_complete};
use volatile_cell::Eyes;

/// Paints a view, and answers what became of it. It takes no memory of its own.
///
/// It begins a frame once, and goes over the picture row by row and over a row pixel by pixel. Each pixel shows the first
/// level, from the wanted one on, that is ready: what was read of its nearest voxel there, or 0 outside that level; and its mask
/// is that level. A pixel that is ready at no level is 0, with mask 255. At the end nothing is held.
///
/// An error of a look ends the frame with that error; nothing is held then either, and the picture's pixels may be anything.
pub fn paint<E: Eyes>(
    eyes: &mut E,
    view: &View,
    picture: &mut Picture,
) -> Result<Painted, AcquireErr>
    requires width { picture.old.width ≡ view.now.width }
    requires height { picture.old.height ≡ view.now.height }
    requires range { view.now.low < view.now.high }
    requires level { IfSome view.now.level (λ level. level < length (E.front.looker eyes.old).levels) }
    requires free { E.held eyes.old ≡ 0 }
    ensures frame { OnOk result (IsFrame E.front eyes.old eyes.new view.now picture.new) }
    ensures answer { IfOk result (λ painted. painted ≡ painted_of (wanted_level (E.front.looker eyes.old).levels view.now) picture.new) }
    ensures complete { IfOk result (λ painted. IsTrue painted.complete ↔ IsComplete (wanted_level (E.front.looker eyes.old).levels view.now) picture.new) }
    ensures blocking { view.now.strategy ≡ Blocking → OnOk result (IsComplete (wanted_level (E.front.looker eyes.old).levels view.now) picture.new) }
    ensures refused { IfErr result (λ err. IsCutOff E.front eyes.old eyes.new view.now picture.new err) }
    ensures free { E.held eyes.new ≡ 0 }
    ensures width { picture.new.width ≡ picture.old.width }
    ensures height { picture.new.height ≡ picture.old.height }
{
    let _cleared = eyes.begin();
    let wanted = wanted_level(eyes.geometry(), view);
    let shades = Shades::new(view.low, view.high);
    let mut hand = Hand::new(view.strategy);
    let outcome = paint_rows(eyes, &mut hand, view, shades, wanted, picture);
    open_hand(eyes, hand);
    blocking_is_complete(); // a law, which does nothing: the contract's proof cites it
    match outcome {
        Err(refusal) => Err(refusal),
        Ok(()) => Ok(Painted::of(picture, wanted)),
    }
}

/// The level that a view wants: the one that is given, else the best one.
fn wanted_level(geometry: &Geometry, view: &View) -> u8
    requires { IfSome view.now.level (λ level. level < length geometry.now) }
    ensures wanted { result ≡ wanted_level geometry.now view.now }
    ensures exists { result < length geometry.now }
    ensures few { length geometry.now ≤ 8 }
{
    let _levels = geometry.levels(); // read for what its contract tells the proof
    match view.level {
        Some(level) => level,
        None => best(geometry, &view.affine),
    }
}
