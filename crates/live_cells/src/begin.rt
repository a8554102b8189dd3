// Making the cells, and more passes.
ghost use Rattle.std.specs.Prelude.{◌≡◌, ◌+◌, ◌*◌, ◌^◌, ◌<◌, ◌≤◌, [], length, IfOk, IfErr, OnErr, vec_capacity};
ghost use Rattle.cell_grid.specs.Pyramid.{cells_of, frame_of};
ghost use Rattle.pin_words.specs.Ends.{starting, parent, child, Rejoined};
ghost use Rattle.pin_rule.specs.Calls.{plan_at, made_of};
ghost use Rattle.arr_history.specs.Tally.{tally_of};
ghost use Rattle.turn_cell.specs.Turn.{view, IsPassOf};

use crate::actor::Actor;
use crate::cells::{CellPass, Cells};
use crate::hint::Hint;
use arr_history::{Tally, Unmade, Unsaved};
use cell_file::Keys;
use cell_grid::Geometry;
use cell_store::Store;
use pin_rule::{Pass, Pins};
use std::alloc::{AllocError, Global};
use turn_cell::{Turn, TurnPass};

/// Memory that was wanting.
pub type Memory = AllocError;

/// The bytes of a block's head over three axes.
const HEAD: usize = 16;

/// The most bytes of an element.
const WIDEST: usize = 8;

/// Room for a block that is got, one that is put, and a frame.
#[derive(Drop)]
pub(crate) struct Room {
    pub(crate) got: Vec<u8>,
    pub(crate) block: Vec<u8>,
    pub(crate) frame: Vec<u64>,
}

fn take_room(alloc: Global, frame: usize) -> Result<Room, Memory>
    requires small { frame ≤ 2 ^ 21 }
    ensures frame { IfOk result (λ r. length r.frame.items ≡ frame) }
    ensures block { IfOk result (λ r. length r.block.items ≡ 16 + 8 * frame) }
{
    let most = HEAD + WIDEST * frame;
    Ok(Room {
        got: Vec::with_capacity(alloc, most)?,
        block: vec![in alloc; 0; most]?,
        frame: vec![in alloc; 0; frame]?,
    })
}

fn take_hint(alloc: Global, slots: u32) -> Result<(Turn<Hint>, TurnPass<Hint>), Memory>
    requires slots { (2 ≤ slots) × (slots ≤ 4096) }
    ensures pass { IfOk result (λ r. IsPassOf r.0 r.1) }
    ensures first { IfOk result (λ r. ((view r.1).number ≡ 0) × ((view r.1).drawn ≡ 1) × ((view r.1).ended ≡ [])) }
{
    let hint = Hint::new(alloc, slots)?;
    match Turn::new(alloc, hint) {
        Ok(made) => Ok(made),
        Err(_) => Err(AllocError),
    }
}

/// Room for the first pass, and for the cells that can't be put at the end.
fn take_memory(alloc: Global, geometry: &Geometry) -> Result<(Room, Vec<Unsaved>), Memory>
    ensures frame { IfOk result (λ r. length r.0.frame.items ≡ frame_of geometry.now) }
    ensures block { IfOk result (λ r. length r.0.block.items ≡ 16 + 8 * frame_of geometry.now) }
    ensures unsaved { IfOk result (λ r. (r.1.items ≡ []) × (cells_of geometry.now ≤ vec_capacity r.1)) }
{
    let room = take_room(alloc, geometry.frame() as usize)?;
    let unsaved = Vec::with_capacity(alloc, geometry.cells() as usize)?;
    Ok((room, unsaved))
}

impl<S: Store> Cells<S> {
    ghost use Rattle.live_cells.specs.Cells.{table, knows, IsCellPassOf};

    /// The cells of a pyramid, with no cell live, and their first pass, which has the number 0. All memory is taken here and by
    /// `split`. Where it is wanting the stores come back.
    pub fn new(
        alloc: Global,
        geometry: &Geometry,
        keys: &Keys,
        slots: u32,
        stores: Vec<S>,
    ) -> Result<(Cells<S>, CellPass<S>), Unmade<S>>
        requires made { keys.now.levels ≡ geometry.now }
        requires slots { (2 ≤ slots) × (slots ≤ 4096) }
        requires frames { slots * frame_of geometry.now ≤ 2 ^ 24 }
        requires stores { (0 < length stores.items) × (length stores.items ≤ 16) }
        ensures pass { IfOk result (λ r. IsCellPassOf r.0 r.1 × (knows r.1 ≡ starting (plan_at S.contents (table r.0)))) }
        ensures made { IfOk result (λ r. ((made_of (table r.0)).levels.value ≡ geometry.now) × ((made_of (table r.0)).keys.value ≡ keys.now) × ((made_of (table r.0)).slots ≡ slots) × ((made_of (table r.0)).stores.value.items ≡ stores.items)) }
        ensures unmade { IfErr result (λ u. u.stores.items ≡ stores.items) }
    {
        let Ok((room, unsaved)) = take_memory(alloc, geometry) else {
            return Err(Unmade { stores });
        };
        let Ok((turn, asks)) = take_hint(alloc, slots) else {
            return Err(Unmade { stores });
        };
        match Pins::new(alloc, geometry, keys, slots, stores) {
            Ok((pins, pass)) => Ok((
                Cells {
                    alloc,
                    pins,
                    turn,
                    unsaved,
                },
                cell_pass(pass, asks, room),
            )),
            Err(unmade) => {
                let _hint = turn.close(asks);
                Err(unmade)
            }
        }
    }

    /// Draws the next number for a new pass, which has seen as much as the first and holds nothing. At most 64 passes are out
    /// at once, the first among them.
    pub fn split(&self, pass: &mut CellPass<S>) -> Result<CellPass<S>, Memory>
        requires pass { IsCellPassOf self.now pass.old }
        requires first { (knows pass.old).number ≡ 0 }
        requires room { (knows pass.old).drawn < length (knows pass.old).ended + 64 }
        requires numbers { (knows pass.old).drawn < 2 ^ 31 }
        ensures pass { IsCellPassOf self.now pass.new }
        ensures kept { IfOk result (λ _. knows pass.new ≡ parent (knows pass.old)) }
        ensures given { IfOk result (λ p. IsCellPassOf self.now p × (knows p ≡ child (knows pass.old))) }
        ensures wanting { OnErr result (knows pass.new ≡ knows pass.old) }
    {
        let room = take_room(self.alloc, self.pins.geometry().frame() as usize)?;
        let other = self.pins.split(&mut pass.actor.pass);
        let asks = self.turn.split(&mut pass.asks);
        Ok(cell_pass(other, asks, room))
    }

    /// Takes a pass that has no pin into the first one, which adds its number, its events, its rises and its counts to its own.
    pub fn join(&self, pass: &mut CellPass<S>, other: CellPass<S>)
        requires pass { IsCellPassOf self.now pass.old }
        requires other { IsCellPassOf self.now other }
        requires first { (knows pass.old).number ≡ 0 }
        requires unpinned { (knows other).pins ≡ [] }
        ensures pass { IsCellPassOf self.now pass.new }
        ensures joined { Rejoined (knows pass.old) (knows other) (knows pass.new) }
    {
        let (actor, asks) = other.into_parts();
        let (other, tally) = actor.into_parts();
        pass.joined = pass.joined.plus(tally);
        self.pins.join(&mut pass.actor.pass, other);
        self.turn.join(&mut pass.asks, asks);
    }
}

/// A pass of the cells that has counted nothing.
fn cell_pass<S>(pass: Pass<S>, asks: TurnPass<Hint>, room: Room) -> CellPass<S>
    ensures pass { (result.actor.pass ≡ pass) × (result.asks ≡ asks) }
    ensures room { (result.block ≡ room.block) × (result.frame ≡ room.frame) }
    ensures tally { (result.actor.tally ≡ tally_of [] []) × (result.joined ≡ tally_of [] []) }
{
    let Room { got, block, frame } = room;
    CellPass {
        actor: Actor {
            pass,
            tally: Tally::default(),
        },
        joined: Tally::default(),
        asks,
        got,
        block,
        frame,
        hits: 0,
    }
}
