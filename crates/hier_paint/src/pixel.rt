// A pixel, from the first level that is ready.
ghost use Rattle.std.specs.Prelude.{◌≡◌, ◌<◌, ◌≤◌, [], ◌∷◌, length, IfOk, IfErr, OnErr, Some, None};
ghost use Rattle.cell_grid.specs.Pyramid.{cells_of, voxels_of};
ghost use Rattle.arr_history.specs.declared.event.Event.TheVariants as event;
ghost use Rattle.scale_pick.specs.Wanted.{wanted_level};
ghost use Rattle.hier_paint.specs.Nearest.{IsNearest};
ghost use Rattle.hier_paint.specs.Hands.{Fits, cell_in, sight};
ghost use Rattle.hier_paint.specs.Ways.{IsLevelWay, IsPixelWay, IsPixelCut};
ghost use Rattle.hier_paint.specs.Works.{Works, Fails};
ghost use Rattle.hier_paint.specs.Finding.{IsAtVoxel, IsPlaceWay, IsLevelCut};

use crate::find::find;
use crate::hand::Hand;
use crate::voxel::{place_of, voxel_on};
use cell_file::AcquireErr;
use cell_grid::Place;
use scale_pick::{Shades, View};
use volatile_cell::Eyes;

/// A pixel's byte, and the level that it shows.
#[derive(Clone, Copy)]
pub struct Shot {
    pub value: u8,
    pub mask: u8,
}

/// The mask of a pixel that shows no level.
const NO_LEVEL: u8 = 255;

/// Paints a pixel from the first level that is ready, from the wanted one on. `voxel` is its nearest voxel there. Out of
/// line, since few pixels come here.
#[inline(never)]
pub fn pixel<E: Eyes>(
    eyes: &mut E,
    hand: &mut Hand<E::Held>,
    view: &View,
    shades: Shades,
    wanted: u8,
    voxel: [i64; 3],
    x: u32,
    y: u32,
) -> Result<Shot, AcquireErr>
    requires few { length (E.front.looker eyes.old).levels ≤ 8 }
    requires wanted { wanted ≡ wanted_level (E.front.looker eyes.old).levels view.now }
    requires exists { wanted < length (E.front.looker eyes.old).levels }
    requires nearest { IsNearest (E.front.looker eyes.old).levels view.now.affine wanted x y voxel }
    requires column { x < 4096 }
    requires row { y < 4096 }
    requires low { shades.low ≡ view.now.low }
    requires high { shades.high ≡ view.now.high }
    requires fits { Fits E.front E.held E.holds E.cell_of eyes.old hand.old.held }
    ensures painted { IfOk result (λ shot. Works E.front eyes.old (sight hand.old) eyes.new (sight hand.new) (IsPixelWay (E.front.looker eyes.old).levels view.now x y shot.value shot.mask)) }
    ensures fits { Fits E.front E.held E.holds E.cell_of eyes.new hand.new.held }
    ensures refused { IfErr result (λ err. Fails E.front eyes.old (sight hand.old) eyes.new err (IsPixelCut (E.front.looker eyes.old).levels view.now x y)) }
    ensures emptied { OnErr result (hand.new.held ≡ None) }
{
    let levels = eyes.geometry().levels();
    for level in wanted..levels {
        let here = voxel_on(eyes.geometry(), &view.affine, wanted, voxel, level, x, y);
        match at_level(eyes, hand, view, shades, level, here, x, y) {
            Err(refusal) => return Err(refusal),
            Ok(Some(value)) => return Ok(Shot { value, mask: level }),
            Ok(None) => {}
        }
    }
    Ok(Shot {
        value: 0,
        mask: NO_LEVEL,
    })
}

/// What a pixel shows at a level, where that is ready.
fn at_level<E: Eyes>(
    eyes: &mut E,
    hand: &mut Hand<E::Held>,
    view: &View,
    shades: Shades,
    level: u8,
    voxel: [i64; 3],
    x: u32,
    y: u32,
) -> Result<Option<u8>, AcquireErr>
    requires level { level < 8 }
    requires nearest { IsNearest (E.front.looker eyes.old).levels view.now.affine level x y voxel }
    requires low { shades.low ≡ view.now.low }
    requires high { shades.high ≡ view.now.high }
    requires fits { Fits E.front E.held E.holds E.cell_of eyes.old hand.old.held }
    ensures shown { IfOk result (λ value. Works E.front eyes.old (sight hand.old) eyes.new (sight hand.new) (IsLevelWay (E.front.looker eyes.old).levels view.now x y level value)) }
    ensures fits { Fits E.front E.held E.holds E.cell_of eyes.new hand.new.held }
    ensures refused { IfErr result (λ err. Fails E.front eyes.old (sight hand.old) eyes.new err (IsLevelCut (E.front.looker eyes.old).levels view.now x y level)) }
    ensures emptied { OnErr result (hand.new.held ≡ None) }
{
    match place_of(eyes.geometry(), hand, level, voxel) {
        None => Ok(Some(0)),
        Some(place) => at_place(eyes, hand, shades, level, place),
    }
}

/// What is shown of a voxel, where its cell is ready.
fn at_place<E: Eyes>(
    eyes: &mut E,
    hand: &mut Hand<E::Held>,
    shades: Shades,
    level: u8,
    place: Place,
) -> Result<Option<u8>, AcquireErr>
    requires level { level < 8 }
    requires cell { place.cell < cells_of (E.front.looker eyes.old).levels }
    requires at { place.at < voxels_of (E.front.looker eyes.old).levels place.cell }
    requires fits { Fits E.front E.held E.holds E.cell_of eyes.old hand.old.held }
    ensures shown { IfOk result (λ value. Works E.front eyes.old (sight hand.old) eyes.new (sight hand.new) (IsPlaceWay shades.low shades.high level place.cell place.at value)) }
    ensures fits { Fits E.front E.held E.holds E.cell_of eyes.new hand.new.held }
    ensures refused { IfErr result (λ err. Fails E.front eyes.old (sight hand.old) eyes.new err (IsAtVoxel level place.cell)) }
    ensures emptied { OnErr result (hand.new.held ≡ None) }
{
    match find(eyes, hand, level, place.cell) {
        Err(refusal) => Err(refusal),
        Ok(false) => Ok(None),
        Ok(true) => {
            let number = read(eyes, hand, place);
            Ok(Some(shades.shown(number)))
        }
    }
}

/// Reads a voxel of the cell that is held.
fn read<E: Eyes>(eyes: &mut E, hand: &Hand<E::Held>, place: Place) -> u64
    requires holds { cell_in hand.now.held ≡ Some place.cell }
    requires inside { place.at < voxels_of (E.front.looker eyes.old).levels place.cell }
    requires fits { Fits E.front E.held E.holds E.cell_of eyes.old hand.now.held }
    ensures led { E.front.leads eyes.old (event.Read (E.front.looker eyes.old).pass place.cell place.at result ∷ []) [] eyes.new }
    ensures fits { Fits E.front E.held E.holds E.cell_of eyes.new hand.now.held }
{
    match &hand.held {
        Some(held) => eyes.read(&held.handle, place.at),
        None => unreachable!(),
    }
}
