// The pixels of a row that are painted together: those that the cell in the hand shows, and those outside the level.
ghost use Rattle.std.specs.Prelude.{◌≡◌, ◌<◌, ◌≤◌, List, length, slice_get, Some, []};
ghost use Rattle.cell_grid.specs.declared.level.Level.{Level};
ghost use Rattle.scale_pick.specs.Picture.{place, IsFilled, SameBefore};
ghost use Rattle.scale_pick.specs.Wanted.{wanted_level};
ghost use Rattle.hier_paint.specs.Nearest.{IsWalk};
ghost use Rattle.hier_paint.specs.Hands.{Fits, sight};
ghost use Rattle.hier_paint.specs.Spans.{IsSpanWay, IsHeldSpan};
ghost use Rattle.hier_paint.specs.Works.{Works};

use crate::hand::Hand;
use crate::voxel::is_outside;
use cell_grid::Geometry;
use scale_pick::{Picture, Run, Shades, View};
use volatile_cell::Eyes;
use whole_affine::NearestWalk;

/// A column of a row, and the walk of the row there.
#[derive(Clone, Copy)]
pub struct Column {
    pub x: u32,
    pub walk: NearestWalk,
}

/// Paints a row from a column on, as long as the nearest voxel at the wanted level lies in the cell that is held, and answers the
/// column where that ends. It is worked out first, so that the eyes show the run of pixels at once.
pub fn paint_span<E: Eyes>(
    eyes: &mut E,
    hand: &Hand<E::Held>,
    view: &View,
    shades: Shades,
    wanted: u8,
    from: Column,
    y: u32,
    picture: &mut Picture,
) -> Column
    requires wanted { wanted ≡ wanted_level (E.front.looker eyes.old).levels view.now }
    requires row { y < picture.old.height }
    requires walk { IsWalk (E.front.looker eyes.old).levels view.now.affine wanted from.x y picture.old.width from.walk }
    requires low { shades.low ≡ view.now.low }
    requires high { shades.high ≡ view.now.high }
    requires fits { Fits E.front E.held E.holds E.cell_of eyes.old hand.now.held }
    ensures painted { Works E.front eyes.old (sight hand.now) eyes.new (sight hand.now) (IsSpanWay (E.front.looker eyes.old).levels view.now y picture.old from.x picture.new result.x) }
    ensures before { SameBefore picture.old picture.new (place picture.old.width 0 y) }
    ensures walk { IsWalk (E.front.looker eyes.old).levels view.now.affine wanted result.x y picture.old.width result.walk }
    ensures onward { from.x ≤ result.x }
    ensures ends { (shape : Level) → slice_get (E.front.looker eyes.old).levels wanted ≡ Some shape → IsHeldSpan view.now.affine shape.factor wanted y hand.now.held from.x result.x picture.old.width }
    ensures fits { Fits E.front E.held E.holds E.cell_of eyes.new hand.now.held }
    ensures width { picture.new.width ≡ picture.old.width }
    ensures height { picture.new.height ≡ picture.old.height }
    ensures filled { IsFilled picture.new }
{
    let width = picture.width();
    let Some(held) = &hand.held else {
        return from;
    };
    let columns = held.bounds.columns(wanted, from.walk);
    if columns == 0 {
        return from;
    }
    let run = Run {
        first: y as usize * width as usize + from.x as usize,
        columns,
        level: wanted,
    };
    let offsets = held.bounds.offsets(from.walk);
    eyes.show(&held.handle, offsets, shades, run, picture);
    Column {
        x: from.x + columns,
        walk: from.walk.ahead(columns),
    }
}

/// Paints a row from a column on, as long as the nearest voxel at the wanted level lies outside that level. It answers the column
/// where that ends.
pub fn paint_outside(
    geometry: &Geometry,
    view: &View,
    wanted: u8,
    from: Column,
    y: u32,
    picture: &mut Picture,
) -> Column
    requires wanted { wanted ≡ wanted_level geometry.now view.now }
    requires exists { wanted < length geometry.now }
    requires row { y < picture.old.height }
    requires walk { IsWalk geometry.now view.now.affine wanted from.x y picture.old.width from.walk }
    ensures painted { IsSpanWay geometry.now view.now y picture.old from.x picture.new result.x [] }
    ensures before { SameBefore picture.old picture.new (place picture.old.width 0 y) }
    ensures walk { IsWalk geometry.now view.now.affine wanted result.x y picture.old.width result.walk }
    ensures onward { from.x ≤ result.x }
    ensures width { picture.new.width ≡ picture.old.width }
    ensures height { picture.new.height ≡ picture.old.height }
    ensures filled { IsFilled picture.new }
{
    let width = picture.width();
    let dims = geometry.level(wanted).extent.dims();
    let first = y as usize * width as usize;
    let mut walk = from.walk;
    for x in from.x..width {
        if !is_outside(walk.voxel(), dims) {
            return Column { x, walk };
        }
        picture.set_at(first + x as usize, 0, wanted);
        walk = walk.next();
    }
    Column { x: width, walk }
}
