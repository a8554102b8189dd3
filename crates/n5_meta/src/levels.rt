// The levels of a pyramid as they are described. An error is the first rule of the grid that one breaks.
ghost use Rattle.std.specs.Prelude.{◌≡◌, false};
ghost use Rattle.std.specs.Result.{result_err};
ghost use Rattle.n5_meta.specs.Gets.{opening_is_fault};
ghost use Rattle.n5_meta.specs.Pyramid.{AnswersOpened, extent_of, levels_of};
ghost use Rattle.n5_meta.specs.Value.{GivesValue};

use crate::described::Described;
use crate::{Attr, OpenErr};
use cell_grid::{Extent, Level};
use std::alloc::Global;

/// The levels, from level 0 on.
#[tactic(auto, using(crate::proofs::LoopLemmas::level_stops, crate::proofs::LoopLemmas::level_goes_on))]
pub(crate) fn levels_of(alloc: Global, described: &[Described]) -> Result<Vec<Level>, OpenErr>
    ensures levels { AnswersOpened (λ levels. levels.items) result (levels_of described.now) }
    ensures no_fault { opening_is_fault (result_err result) ≡ false }
{
    let mut levels = Vec::new(alloc);
    for level in described {
        let Described { factor, attr } = *level;
        let extent = extent_of(attr)?;
        let kind = attr.kind;
        let level = Level {
            extent,
            factor,
            kind,
        };
        if levels.push(level).is_err() {
            return Err(OpenErr::Memory);
        }
    }
    Ok(levels)
}

/// A level's box, cut into cells.
fn extent_of(attr: Attr) -> Result<Extent, OpenErr>
    ensures extent { GivesValue (λ extent. extent) result (extent_of attr) }
    ensures no_fault { opening_is_fault (result_err result) ≡ false }
{
    match Extent::new(attr.dims, attr.cell) {
        Ok(extent) => Ok(extent),
        Err(err) => Err(OpenErr::Grid { err }),
    }
}
