// Finding a cell ready, or not.
ghost use Rattle.std.specs.Prelude.{◌≡◌, ◌<◌, [], IfOk, IfErr, OnErr, Some, None, true};
ghost use Rattle.cell_grid.specs.Pyramid.{cells_of};
ghost use Rattle.hier_paint.specs.Sight.{given_back};
ghost use Rattle.hier_paint.specs.Hands.{Fits, cell_in, sight};
ghost use Rattle.hier_paint.specs.Works.{Found, Fails};
ghost use Rattle.hier_paint.specs.Finding.{IsFoundLook, IsFailedLook, IsAtVoxel};

use crate::cell_box::CellBox;
use crate::hand::{Hand, InHand, put};
use cell_file::AcquireErr;
use volatile_cell::{Eyes, Look};

/// Finds a cell ready, and holds it; or finds it not ready. Where it isn't held, and isn't the last one not ready at this level, it
/// gives back what it holds, and looks.
pub fn find<E: Eyes>(
    eyes: &mut E,
    hand: &mut Hand<E::Held>,
    level: u8,
    cell: u32,
) -> Result<bool, AcquireErr>
    requires level { level < 8 }
    requires cell { cell < cells_of (E.front.looker eyes.old).levels }
    requires fits { Fits E.front E.held E.holds E.cell_of eyes.old hand.old.held }
    ensures found { IfOk result (λ ready. Found E.front eyes.old (sight hand.old) level cell ready eyes.new (sight hand.new)) }
    ensures held { IfOk result (λ ready. ready ≡ true → cell_in hand.new.held ≡ Some cell) }
    ensures fits { Fits E.front E.held E.holds E.cell_of eyes.new hand.new.held }
    ensures refused { IfErr result (λ err. Fails E.front eyes.old (sight hand.old) eyes.new err (IsAtVoxel level cell)) }
    ensures emptied { OnErr result (hand.new.held ≡ None) }
{
    if hand.holds(cell) {
        return Ok(true);
    }
    if hand.has_missed(level, cell) {
        return Ok(false);
    }
    let_go(eyes, hand);
    look(eyes, hand, level, cell)
}

/// Gives back what is held.
pub fn let_go<E: Eyes>(eyes: &mut E, hand: &mut Hand<E::Held>)
    requires { Fits E.front E.held E.holds E.cell_of eyes.old hand.old.held }
    ensures led { E.front.leads eyes.old (given_back (E.front.looker eyes.old).pass (cell_in hand.old.held)) [] eyes.new }
    ensures free { E.held eyes.new ≡ 0 }
    ensures empty { hand.new.held ≡ None }
    ensures missed { hand.new.missed ≡ hand.old.missed }
    ensures budget { hand.new.budget ≡ hand.old.budget }
{
    if let Some(held) = hand.held.take() {
        let InHand {
            cell: _,
            bounds: _,
            handle,
        } = held;
        eyes.release(handle);
    }
}

/// Looks at a cell with an empty hand, and holds it where it is ready. Out of line, since few pixels come here.
#[inline(never)]
fn look<E: Eyes>(
    eyes: &mut E,
    hand: &mut Hand<E::Held>,
    level: u8,
    cell: u32,
) -> Result<bool, AcquireErr>
    requires level { level < 8 }
    requires cell { cell < cells_of (E.front.looker eyes.old).levels }
    requires free { E.held eyes.old ≡ 0 }
    requires empty { hand.old.held ≡ None }
    ensures found { IfOk result (λ ready. IsFoundLook E.front eyes.old (sight hand.old) level cell ready eyes.new (sight hand.new)) }
    ensures fits { Fits E.front E.held E.holds E.cell_of eyes.new hand.new.held }
    ensures refused { IfErr result (λ err. IsFailedLook E.front eyes.old (sight hand.old) cell eyes.new err) }
    ensures emptied { OnErr result (hand.new.held ≡ None) }
{
    match eyes.look(cell, &mut hand.budget) {
        Err(refusal) => Err(refusal),
        Ok(Look::Ready(handle)) => {
            let bounds = CellBox::of(eyes.geometry(), cell);
            put(
                &mut hand.held,
                InHand {
                    cell,
                    bounds,
                    handle,
                },
            );
            Ok(true)
        }
        Ok(Look::NotReady { state: _ }) => {
            hand.missed[level as usize] = Some(cell);
            Ok(false)
        }
    }
}

/// Opens the hand, and gives back what it holds.
pub fn open_hand<E: Eyes>(eyes: &mut E, hand: Hand<E::Held>)
    requires { Fits E.front E.held E.holds E.cell_of eyes.old hand.held }
    ensures led { E.front.leads eyes.old (given_back (E.front.looker eyes.old).pass (cell_in hand.held)) [] eyes.new }
    ensures free { E.held eyes.new ≡ 0 }
    ensures unmoved { hand.held ≡ None → eyes.new ≡ eyes.old }
{
    let Hand {
        held,
        budget: _,
        missed: _,
    } = hand;
    if let Some(held) = held {
        let InHand {
            cell: _,
            bounds: _,
            handle,
        } = held;
        eyes.release(handle);
    }
}
