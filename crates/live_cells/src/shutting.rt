// Shutting the cells, through the first pass, once all others were joined into it.
ghost use Rattle.std.specs.Prelude.{◌≡◌, ◌≢◌, ℕ, ◌+◌, ◌*◌, ◌<◌, ◌≤◌, true, false, Err, [], ◌∷◌, ◌++◌, List, None, length, IfOk, OnOk, OnErr, IfSome, IfNone, vec_capacity};
ghost use Rattle.arr_history.specs.declared.closed.Unsaved.{Unsaved};
ghost use Rattle.arr_history.specs.declared.event.Event.{Event};
ghost use Rattle.arr_history.specs.declared.event.Event.TheVariants as event;
ghost use Rattle.arr_history.specs.declared.cell_state.CellState.TheVariants as state;
ghost use Rattle.arr_history.specs.History.{after, AreLegal};
ghost use Rattle.arr_history.specs.Tally.{tally_raised, IsTally};
ghost use Rattle.cell_grid.specs.Pyramid.{frame_of};
ghost use Rattle.cell_file.specs.Standing.{width_of};
ghost use Rattle.pass_roster.specs.Ends.{AllJoined};
ghost use Rattle.pin_words.specs.Account.{rise};
ghost use Rattle.pin_words.specs.Plan.{lane_of, shape_of, start_of};
ghost use Rattle.pin_words.specs.Cells.{held};
ghost use Rattle.pin_words.specs.Tells.{IsLone};
ghost use Rattle.pin_words.specs.Words.{passes};
ghost use Rattle.pin_rule.specs.Calls.{view, plan_at, made_of, cell_count, slot_count, voxel_count, IsPassOf};
ghost use Rattle.pin_rule.specs.Going.{Goes};
ghost use Rattle.pin_rule.specs.Hands.{Hands};
ghost use Rattle.pin_rule.specs.Trails.{events_of};
ghost use Rattle.live_cells.specs.Lanes.{IsTurning};
ghost use Rattle.live_cells.specs.Shutting.{named, ShutsCell, ShutsBelow, IsShutDown};

use crate::begin::Room;
use crate::cells::{CellPass, Cells};
use crate::lanes::try_lane;
use crate::leaves::{close_as, copy_frame, forget, put_out};
use crate::loads::voxels_in;
use crate::steps::give_slot;
use arr_history::{Closed, Event, Seen, Tally, Unsaved};
use cell_file::SaveErr;
use cell_grid::lane;
use cell_store::Store;
use pin_rule::{CellWord, Leaving, Pass, Pins, Slot, Trail};

/// Closes a cell where it is live. The pass is alone, and has nothing, so that a cell that isn't live is absent.
fn close_found<S: Store>(pins: &Pins<S>, pass: &mut Pass<S>, cell: u32) -> Option<Leaving>
    requires pass { IsPassOf pins.now pass.old }
    requires cell { cell < cell_count pins.now }
    requires lone { IsLone (view pass.old) }
    requires bare { Hands [] [] [] None (view pass.old) × ((view pass.old).pins ≡ []) }
    ensures pass { IsPassOf pins.now pass.new }
    ensures pins { (view pass.new).pins ≡ [] }
    ensures leaving { IfSome result (λ l. (l.cell ≡ cell) × (l.slot < slot_count pins.now) × IsTurning (plan_at S.contents pins.now) cell l.slot l.marked (view pass.new) × Hands [] [] (view pass.new).leaving None (view pass.new)) }
    ensures closed { IfSome result (λ _. Goes (plan_at S.contents pins.now) (view pass.old) (event.Close (view pass.old).number cell ∷ []) (view pass.new)) }
    ensures legal { AreLegal (shape_of (plan_at S.contents pins.now)) (start_of (plan_at S.contents pins.now)) (view pass.new).seen }
    ensures absent { IfNone result (Hands [] [] [] None (view pass.new) × Goes (plan_at S.contents pins.now) (view pass.old) [] (view pass.new) × ((after (start_of (plan_at S.contents pins.now)) (view pass.new).seen).cells cell ≡ state.Absent)) }
{
    let word = match close_as(pins, pass, cell, 0, false) {
        Ok(leaving) => return Some(leaving),
        Err(busy) => busy.word,
    };
    let shown = CellWord::of(word);
    match shown.state {
        Seen::Absent => None,
        Seen::Live => match close_as(pins, pass, cell, shown.slot, shown.marked) {
            Ok(leaving) => Some(leaving),
            Err(_) => unreachable!(),
        },
        Seen::Loading | Seen::Leaving => unreachable!(),
    }
}

/// Puts a closed and marked cell by its lane, which no other pass can have. Its slot is free then; where it can't be put it comes
/// back.
fn put_alone<S: Store>(
    pins: &Pins<S>,
    pass: &mut Pass<S>,
    leaving: Leaving,
    frame: &mut [u64],
    block: &mut [u8],
) -> Result<Slot, SaveErr>
    requires pass { IsPassOf pins.now pass.old }
    requires place { (leaving.cell < cell_count pins.now) × (leaving.slot < slot_count pins.now) × (leaving.marked ≡ true) }
    requires lone { IsLone (view pass.old) }
    requires hands { Hands [] [] (view pass.old).leaving None (view pass.old) }
    requires turning { IsTurning (plan_at S.contents pins.now) leaving.cell leaving.slot leaving.marked (view pass.old) }
    requires frame { voxel_count pins.now leaving.cell ≤ length frame.old }
    requires room { 16 + width_of (made_of pins.now).levels.value leaving.cell * voxel_count pins.now leaving.cell ≤ length block.old }
    ensures pass { IsPassOf pins.now pass.new }
    ensures pins { (view pass.new).pins ≡ (view pass.old).pins }
    ensures slot { IfOk result (λ s. (s.slot ≡ leaving.slot) × (s.filled ≡ None)) }
    ensures gone { OnOk result (Hands [] (held leaving.slot None [] ∷ []) [] None (view pass.new) × Goes (plan_at S.contents pins.now) (view pass.old) (event.Gone (view pass.old).number leaving.cell leaving.marked ∷ []) (view pass.new)) }
    ensures back { OnErr result (Hands [] [] [] None (view pass.new) × Goes (plan_at S.contents pins.now) (view pass.old) (event.Back (view pass.old).number leaving.cell ∷ []) (view pass.new)) }
    ensures write_fault { result ≡ Err SaveErr.WriteFault → rise (lane_of (plan_at S.contents pins.now) leaving.cell) (view pass.old) < rise (lane_of (plan_at S.contents pins.now) leaving.cell) (view pass.new) }
{
    let cell = leaving.cell();
    copy_frame(pins, pass, &leaving, frame);
    let voxels = voxels_in(pins, cell) as usize;
    match try_lane(pins, pass, lane(cell, pins.lanes())) {
        Ok(lane) => put_out(pins, pass, leaving, lane, &frame[..voxels], block),
        Err(_) => unreachable!(),
    }
}

/// Turns a closed cell out, and frees its slot. The answer tells why it could not be put.
fn leave_for_good<S: Store>(
    pins: &Pins<S>,
    pass: &mut Pass<S>,
    leaving: Leaving,
    frame: &mut [u64],
    block: &mut [u8],
) -> Result<(), SaveErr>
    requires pass { IsPassOf pins.now pass.old }
    requires place { (leaving.cell < cell_count pins.now) × (leaving.slot < slot_count pins.now) }
    requires lone { IsLone (view pass.old) }
    requires hands { Hands [] [] (view pass.old).leaving None (view pass.old) }
    requires turning { IsTurning (plan_at S.contents pins.now) leaving.cell leaving.slot leaving.marked (view pass.old) }
    requires frame { voxel_count pins.now leaving.cell ≤ length frame.old }
    requires room { 16 + width_of (made_of pins.now).levels.value leaving.cell * voxel_count pins.now leaving.cell ≤ length block.old }
    ensures pass { IsPassOf pins.now pass.new }
    ensures pins { (view pass.new).pins ≡ (view pass.old).pins }
    ensures bare { Hands [] [] [] None (view pass.new) }
    ensures gone { OnOk result (Goes (plan_at S.contents pins.now) (view pass.old) (event.Gone (view pass.old).number leaving.cell leaving.marked ∷ []) (view pass.new)) }
    ensures back { OnErr result (Goes (plan_at S.contents pins.now) (view pass.old) (event.Back (view pass.old).number leaving.cell ∷ []) (view pass.new) × (leaving.marked ≡ true)) }
    ensures write_fault { result ≡ Err SaveErr.WriteFault → rise (lane_of (plan_at S.contents pins.now) leaving.cell) (view pass.old) < rise (lane_of (plan_at S.contents pins.now) leaving.cell) (view pass.new) }
{
    if !leaving.marked() {
        let slot = forget(pins, pass, leaving);
        give_slot(pins, pass, slot);
        return Ok(());
    }
    let slot = put_alone(pins, pass, leaving, frame, block)?;
    give_slot(pins, pass, slot);
    Ok(())
}

/// Whether memory was wanting for a put; else the store failed.
fn wants_memory(err: SaveErr) -> bool
    ensures memory { result ≡ true → err ≡ SaveErr.Memory }
    ensures fault { result ≡ false → err ≡ SaveErr.WriteFault }
{
    match err {
        SaveErr::Memory => true,
        SaveErr::WriteFault => false,
    }
}

/// Shuts a cell: it leaves where it is live, and is counted. The answer names it where it could not be put.
fn shut_cell<S: Store>(
    pins: &Pins<S>,
    pass: &mut Pass<S>,
    tally: &mut Tally,
    cell: u32,
    frame: &mut [u64],
    block: &mut [u8],
) -> Option<Unsaved>
    requires pass { IsPassOf pins.now pass.old }
    requires cell { cell < cell_count pins.now }
    requires lone { IsLone (view pass.old) }
    requires bare { Hands [] [] [] None (view pass.old) × ((view pass.old).pins ≡ []) }
    requires counts { IsTally tally.old }
    requires frame { frame_of (made_of pins.now).levels.value ≤ length frame.old }
    requires room { (c : ℕ) → c < cell_count pins.now → 16 + width_of (made_of pins.now).levels.value c * voxel_count pins.now c ≤ length block.old }
    ensures pass { IsPassOf pins.now pass.new }
    ensures bare { Hands [] [] [] None (view pass.new) × ((view pass.new).pins ≡ []) }
    ensures shut { (events : List Event) × ShutsCell S.contents pins.now cell (view pass.old) (named result) events (view pass.new) × (tally.new ≡ tally_raised tally.old [] events) }
{
    let Some(leaving) = close_found(pins, pass, cell) else {
        return None;
    };
    let saved = leaving.marked();
    match leave_for_good(pins, pass, leaving, frame, block) {
        Ok(()) => {
            *tally = tally.with_closing(&Event::Gone { k: 0, cell, saved });
            None
        }
        Err(err) => Some(Unsaved {
            cell,
            memory: wants_memory(err),
        }),
    }
}

/// Names one more cell that could not be put.
fn name_unsaved(unsaved: &mut Vec<Unsaved>, one: Unsaved)
    requires room { length unsaved.old.items < vec_capacity unsaved.old }
    ensures named { unsaved.new.items ≡ unsaved.old.items ++ one ∷ [] }
    ensures room { vec_capacity unsaved.old ≤ vec_capacity unsaved.new }
{
    let _ = unsaved.push(one);
}

/// Shuts a cell, and names it where it could not be put.
fn shut_next<S: Store>(
    pins: &Pins<S>,
    pass: &mut Pass<S>,
    tally: &mut Tally,
    unsaved: &mut Vec<Unsaved>,
    cell: u32,
    frame: &mut [u64],
    block: &mut [u8],
)
    requires pass { IsPassOf pins.now pass.old }
    requires cell { cell < cell_count pins.now }
    requires lone { IsLone (view pass.old) }
    requires bare { Hands [] [] [] None (view pass.old) × ((view pass.old).pins ≡ []) }
    requires counts { IsTally tally.old }
    requires named { length unsaved.old.items < vec_capacity unsaved.old }
    requires frame { frame_of (made_of pins.now).levels.value ≤ length frame.old }
    requires room { (c : ℕ) → c < cell_count pins.now → 16 + width_of (made_of pins.now).levels.value c * voxel_count pins.now c ≤ length block.old }
    ensures pass { IsPassOf pins.now pass.new }
    ensures bare { Hands [] [] [] None (view pass.new) × ((view pass.new).pins ≡ []) }
    ensures shut { (more : List Unsaved) × (events : List Event) × ShutsCell S.contents pins.now cell (view pass.old) more events (view pass.new) × (tally.new ≡ tally_raised tally.old [] events) × (unsaved.new.items ≡ unsaved.old.items ++ more) }
    ensures named { vec_capacity unsaved.old ≤ vec_capacity unsaved.new }
{
    match shut_cell(pins, pass, tally, cell, frame, block) {
        Some(one) => name_unsaved(unsaved, one),
        None => {}
    }
}

/// Shuts all cells in ascending order.
fn shut_cells<S: Store>(
    pins: &Pins<S>,
    pass: &mut Pass<S>,
    tally: &mut Tally,
    unsaved: &mut Vec<Unsaved>,
    frame: &mut [u64],
    block: &mut [u8],
)
    requires pass { IsPassOf pins.now pass.old }
    requires lone { IsLone (view pass.old) }
    requires bare { Hands [] [] [] None (view pass.old) × ((view pass.old).pins ≡ []) }
    requires counts { IsTally tally.old }
    requires named { (unsaved.old.items ≡ []) × (cell_count pins.now ≤ vec_capacity unsaved.old) }
    requires frame { frame_of (made_of pins.now).levels.value ≤ length frame.old }
    requires room { (c : ℕ) → c < cell_count pins.now → 16 + width_of (made_of pins.now).levels.value c * voxel_count pins.now c ≤ length block.old }
    ensures pass { IsPassOf pins.now pass.new }
    ensures bare { Hands [] [] [] None (view pass.new) × ((view pass.new).pins ≡ []) }
    ensures shut { (closing : List Event) × ShutsBelow S.contents pins.now (cell_count pins.now) (view pass.old) unsaved.new.items closing (view pass.new) × (tally.new ≡ tally_raised tally.old [] closing) }
{
    for cell in 0..pins.geometry().cells() {
        shut_next(pins, pass, tally, unsaved, cell, frame, block);
    }
}

impl<S: Store> Cells<S> {
    ghost use Rattle.live_cells.specs.Cells.{table, knows, IsCellPassOf};

    /// Shuts the cells, through the first pass, once all others were joined into it: each live cell is put where it is marked,
    /// in ascending order, and gone; where it could not be put it is named, and its last array is lost. Gives the stores back,
    /// in their order, and the whole history, as clauses see it. It takes no memory, and waits for nothing.
    pub fn shut(self, pass: CellPass<S>) -> (Closed<S>, Trail<S>)
        requires pass { IsCellPassOf self pass }
        requires first { (knows pass).number ≡ 0 }
        requires joined { AllJoined passes (knows pass) }
        requires unpinned { (knows pass).pins ≡ [] }
        ensures shut { IsShutDown S.contents (table self) (knows pass) result.0.stores.items result.0.unsaved.items result.0.tally (events_of result.1) }
    {
        let Cells {
            alloc: _,
            pins,
            turn,
            mut unsaved,
        } = self;
        let (mut pass, mut tally, asks, room) = pass.into_all();
        let Room {
            got: _,
            mut block,
            mut frame,
        } = room;
        shut_cells(
            &pins,
            &mut pass,
            &mut tally,
            &mut unsaved,
            frame.as_mut_slice(),
            block.as_mut_slice(),
        );
        let _hint = turn.close(asks);
        let (stores, trail) = pins.close(pass);
        let closed = Closed {
            stores,
            unsaved,
            tally,
        };
        (closed, trail)
    }
}
