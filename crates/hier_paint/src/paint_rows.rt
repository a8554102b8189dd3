// The rows of a picture.
ghost use Rattle.std.specs.Prelude.{◌≡◌, ◌<◌, ◌≤◌, length, IfErr, OnErr, OnOk, None};
ghost use Rattle.scale_pick.specs.Picture.{place, IsFilled, SameBefore};
ghost use Rattle.scale_pick.specs.Wanted.{wanted_level};
ghost use Rattle.hier_paint.specs.Hands.{Fits, sight};
ghost use Rattle.hier_paint.specs.Ways.{IsRowWay, AreRowWays, IsRowCut, IsCut};
ghost use Rattle.hier_paint.specs.Works.{Works, Fails};

use crate::hand::Hand;
use crate::pixel::pixel;
use crate::span::{Column, paint_outside, paint_span};
use crate::voxel::row_walk;
use cell_file::AcquireErr;
use scale_pick::{Picture, Shades, View};
use volatile_cell::Eyes;

/// Paints the rows of a picture, from row 0.
pub fn paint_rows<E: Eyes>(
    eyes: &mut E,
    hand: &mut Hand<E::Held>,
    view: &View,
    shades: Shades,
    wanted: u8,
    picture: &mut Picture,
) -> Result<(), AcquireErr>
    requires few { length (E.front.looker eyes.old).levels ≤ 8 }
    requires wanted { wanted ≡ wanted_level (E.front.looker eyes.old).levels view.now }
    requires exists { wanted < length (E.front.looker eyes.old).levels }
    requires low { shades.low ≡ view.now.low }
    requires high { shades.high ≡ view.now.high }
    requires fits { Fits E.front E.held E.holds E.cell_of eyes.old hand.old.held }
    ensures painted { OnOk result (Works E.front eyes.old (sight hand.old) eyes.new (sight hand.new) (AreRowWays (E.front.looker eyes.old).levels view.now picture.new picture.new.height)) }
    ensures fits { Fits E.front E.held E.holds E.cell_of eyes.new hand.new.held }
    ensures refused { IfErr result (λ err. Fails E.front eyes.old (sight hand.old) eyes.new err (IsCut (E.front.looker eyes.old).levels view.now picture.new)) }
    ensures emptied { OnErr result (hand.new.held ≡ None) }
    ensures width { picture.new.width ≡ picture.old.width }
    ensures height { picture.new.height ≡ picture.old.height }
    ensures filled { IsFilled picture.new }
{
    let height = picture.height();
    for y in 0..height {
        match paint_row(eyes, hand, view, shades, wanted, y, picture) {
            Err(refusal) => return Err(refusal),
            Ok(()) => {}
        }
    }
    Ok(())
}

/// Paints a row of a picture, from column 0: a pixel, then those after it that the cell in the hand shows, then those outside the
/// level, and so on.
fn paint_row<E: Eyes>(
    eyes: &mut E,
    hand: &mut Hand<E::Held>,
    view: &View,
    shades: Shades,
    wanted: u8,
    y: u32,
    picture: &mut Picture,
) -> Result<(), AcquireErr>
    requires few { length (E.front.looker eyes.old).levels ≤ 8 }
    requires wanted { wanted ≡ wanted_level (E.front.looker eyes.old).levels view.now }
    requires exists { wanted < length (E.front.looker eyes.old).levels }
    requires row { y < picture.old.height }
    requires low { shades.low ≡ view.now.low }
    requires high { shades.high ≡ view.now.high }
    requires fits { Fits E.front E.held E.holds E.cell_of eyes.old hand.old.held }
    ensures painted { OnOk result (Works E.front eyes.old (sight hand.old) eyes.new (sight hand.new) (IsRowWay (E.front.looker eyes.old).levels view.now picture.new y picture.new.width)) }
    ensures before { SameBefore picture.old picture.new (place picture.old.width 0 y) }
    ensures fits { Fits E.front E.held E.holds E.cell_of eyes.new hand.new.held }
    ensures refused { IfErr result (λ err. Fails E.front eyes.old (sight hand.old) eyes.new err (IsRowCut (E.front.looker eyes.old).levels view.now picture.new y)) }
    ensures emptied { OnErr result (hand.new.held ≡ None) }
    ensures width { picture.new.width ≡ picture.old.width }
    ensures height { picture.new.height ≡ picture.old.height }
    ensures filled { IsFilled picture.new }
{
    let width = picture.width();
    let walk = row_walk(eyes.geometry(), &view.affine, wanted, y, width);
    let mut column = Column { x: 0, walk };
    while column.x < width {
        let voxel = column.walk.voxel();
        match pixel(eyes, hand, view, shades, wanted, voxel, column.x, y) {
            Err(refusal) => return Err(refusal),
            Ok(shot) => picture.set(column.x, y, shot.value, shot.mask),
        }
        let next = Column {
            x: column.x + 1,
            walk: column.walk.next(),
        };
        let after = paint_span(eyes, hand, view, shades, wanted, next, y, picture);
        column = paint_outside(eyes.geometry(), view, wanted, after, y, picture);
    }
    Ok(())
}
