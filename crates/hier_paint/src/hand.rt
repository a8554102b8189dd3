// The cell that a painter holds, and those that it found not ready.
ghost use Rattle.std.specs.Prelude.{◌≡◌, ◌<◌, List, None, Some, IfSome};
ghost use Rattle.cell_grid.specs.declared.level.Level.{Level};
ghost use Rattle.hier_paint.specs.Nearest.{IsSmall};
ghost use Rattle.hier_paint.specs.Boxes.{IsPlaced};
ghost use Rattle.hier_paint.specs.Sight.{is_held, is_missed, opening_sight};
ghost use Rattle.hier_paint.specs.Hands.{IsBoxed, sight};

use crate::cell_box::CellBox;
use cell_grid::Place;
use scale_pick::Strategy;
use std::mem;
use volatile_cell::Budget;

/// A handle in the hand, its cell, and the box of that.
pub struct InHand<H> {
    pub cell: u32,
    pub bounds: CellBox,
    pub handle: H,
}

/// What a painter carries from pixel to pixel: the cell that it holds, what is left of its budget, and for each level the cell
/// that it last found not ready there.
pub struct Hand<H> {
    pub held: Option<InHand<H>>,
    pub budget: Budget,
    pub missed: [Option<u32>; 8],
}

impl<H> Hand<H> {
    /// An empty hand, with the whole budget of a strategy.
    pub fn new(strategy: Strategy) -> Hand<H>
        ensures empty { result.held ≡ None }
        ensures sight { sight result ≡ opening_sight strategy }
    {
        Hand {
            held: None,
            budget: Budget::new(strategy),
            missed: [None; 8],
        }
    }

    /// Whether a cell is held.
    pub fn holds(&self, cell: u32) -> bool
        ensures { result ≡ is_held (sight self.now) cell }
    {
        match &self.held {
            Some(held) => held.cell == cell,
            None => false,
        }
    }

    /// The place of a voxel of a level, where the cell that is held has it.
    pub fn place(&self, level: u8, voxel: [i64; 3]) -> Option<Place>
        requires { IsSmall voxel }
        ensures { (levels : List Level) → IsBoxed levels self.now.held → IfSome result (λ place. IsPlaced levels level voxel place.cell place.at) }
    {
        let held = self.held.as_ref()?;
        let at = held.bounds.offset(level, voxel)?;
        Some(Place {
            cell: held.cell,
            at,
        })
    }

    /// Whether a cell is the last one that wasn't ready at a level.
    pub fn has_missed(&self, level: u8, cell: u32) -> bool
        requires { level < 8 }
        ensures { result ≡ is_missed (sight self.now) level cell }
    {
        match self.missed[level as usize] {
            Some(missed) => missed == cell,
            None => false,
        }
    }
}

/// Puts a handle into an empty hand.
pub fn put<H>(hand: &mut Option<InHand<H>>, held: InHand<H>)
    requires { hand.old ≡ None }
    ensures { hand.new ≡ Some held }
{
    match mem::replace(hand, Some(held)) {
        None => {}
        Some(_) => unreachable!(),
    }
}
