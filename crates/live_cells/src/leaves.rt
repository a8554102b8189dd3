// Turning a cell out of its slot: it is closed, put where it is marked, and gone; or it comes back.
ghost use Rattle.std.specs.Prelude.{◌≡◌, ◌≢◌, ℕ, ◌+◌, ◌*◌, ◌<◌, ◌≤◌, true, false, IsTrue, Err, [], ◌∷◌, ◌++◌, List, Some, None, length, slice_index, IfOk, IfErr, OnOk, OnErr, IfSome, IfNone};
ghost use Rattle.arr_history.specs.declared.event.Event.TheVariants as event;
ghost use Rattle.arr_history.specs.History.{AreLegal};
ghost use Rattle.cell_file.specs.Standing.{width_of, standing};
ghost use Rattle.cell_store.specs.Faults.{Rose};
ghost use Rattle.cell_store.specs.Store.{held_of as held_by};
ghost use Rattle.pin_words.specs.declared.doing.Doing.{Doing};
ghost use Rattle.pin_words.specs.declared.doing.Try.{Try};
ghost use Rattle.pin_words.specs.declared.lane.Taken.{Taken};
ghost use Rattle.pin_words.specs.Account.{rise};
ghost use Rattle.pin_words.specs.Plan.{lane_of, shape_of, start_of};
ghost use Rattle.pin_words.specs.Finding.{left_of};
ghost use Rattle.pin_words.specs.Layout.{live_word};
ghost use Rattle.pin_words.specs.Cells.{held, IsFrameNumber, IsGone, IsBack};
ghost use Rattle.pin_words.specs.Tells.{tried, ShowsCell};
ghost use Rattle.pin_rule.specs.Calls.{view, plan_at, made_of, cell_count, slot_count, lane_count, voxel_count, greatest_in, IsPassOf, MaySave, MayReturn};
ghost use Rattle.pin_rule.specs.Going.{Goes};
ghost use Rattle.pin_rule.specs.Hands.{Hands};
ghost use Rattle.pin_rule.specs.Saving.{HasPut};
ghost use Rattle.live_cells.specs.Lanes.{JustTook, IsTurning};

use crate::lanes::give_lane;
use crate::loads::voxels_in;
use cell_file::{SaveErr, cells_have_keys_of_their_own, save};
use cell_store::Store;
use pin_rule::{Busy, Lane, Leaving, Pass, Pins, Slot, gives_after_not_saving, gives_after_saving};
use stood_arrays::saves_move;

/// Closes the cell in the slot, where it has this mark and no pin.
pub(crate) fn close_as<S: Store>(
    pins: &Pins<S>,
    pass: &mut Pass<S>,
    cell: u32,
    slot: u32,
    marked: bool,
) -> Result<Leaving, Busy>
    requires pass { IsPassOf pins.now pass.old }
    requires place { (cell < cell_count pins.now) × (slot < slot_count pins.now) }
    requires hands { Hands (view pass.old).claims [] [] None (view pass.old) }
    ensures pass { IsPassOf pins.now pass.new }
    ensures pins { (view pass.new).pins ≡ (view pass.old).pins }
    ensures leaving { IfOk result (λ l. (l.cell ≡ cell) × (l.slot ≡ slot) × (l.marked ≡ marked)) }
    ensures closed { OnOk result (Goes (plan_at S.contents pins.now) (view pass.old) (event.Close (view pass.old).number cell ∷ []) (view pass.new)) }
    ensures turning { OnOk result (IsTurning (plan_at S.contents pins.now) cell slot marked (view pass.new)) }
    ensures hands { OnOk result (Hands (view pass.old).claims [] (view pass.new).leaving None (view pass.new)) }
    ensures tries { OnOk result ((view pass.new).tries ≡ tried 17 cell (live_word slot marked) ∷ (view pass.old).tries) }
    ensures busy { OnErr result (Goes (plan_at S.contents pins.now) (view pass.old) [] (view pass.new) × Hands (view pass.old).claims [] [] None (view pass.new)) }
    ensures legal { AreLegal (shape_of (plan_at S.contents pins.now)) (start_of (plan_at S.contents pins.now)) (view pass.new).seen }
    ensures shows { IfErr result (λ e. (e.word ≢ live_word slot marked) × ShowsCell (plan_at S.contents pins.now) (view pass.old) (view pass.new).seen cell e.word) }
{
    match pins.try_close(pass, cell, slot, marked) {
        Ok(leaving) => Ok(leaving),
        Err(busy) => Err(busy),
    }
}

/// Closes the cell in the slot, where it has no pin, marked or not.
pub(crate) fn close<S: Store>(
    pins: &Pins<S>,
    pass: &mut Pass<S>,
    cell: u32,
    slot: u32,
) -> Option<Leaving>
    requires pass { IsPassOf pins.now pass.old }
    requires place { (cell < cell_count pins.now) × (slot < slot_count pins.now) }
    requires hands { Hands (view pass.old).claims [] [] None (view pass.old) }
    ensures pass { IsPassOf pins.now pass.new }
    ensures pins { (view pass.new).pins ≡ (view pass.old).pins }
    ensures leaving { IfSome result (λ l. (l.cell ≡ cell) × (l.slot ≡ slot) × IsTurning (plan_at S.contents pins.now) cell slot l.marked (view pass.new) × Hands (view pass.old).claims [] (view pass.new).leaving None (view pass.new)) }
    ensures closed { IfSome result (λ l. Goes (plan_at S.contents pins.now) (view pass.old) (event.Close (view pass.old).number cell ∷ []) (view pass.new)) }
    ensures tries { IfSome result (λ l. (between : List Try) × ((view pass.new).tries ≡ tried 17 cell (live_word slot l.marked) ∷ (between ++ (view pass.old).tries))) }
    ensures busy { IfNone result (Goes (plan_at S.contents pins.now) (view pass.old) [] (view pass.new) × Hands (view pass.old).claims [] [] None (view pass.new)) }
{
    if let Ok(leaving) = close_as(pins, pass, cell, slot, false) {
        return Some(leaving);
    }
    match close_as(pins, pass, cell, slot, true) {
        Ok(leaving) => Some(leaving),
        Err(_) => None,
    }
}

/// Copies the frame of a closed cell.
pub(crate) fn copy_frame<S: Store>(
    pins: &Pins<S>,
    pass: &mut Pass<S>,
    leaving: &Leaving,
    frame: &mut [u64],
)
    requires pass { IsPassOf pins.now pass.old }
    requires place { (leaving.now.cell < cell_count pins.now) × (leaving.now.slot < slot_count pins.now) }
    requires turning { IsTurning (plan_at S.contents pins.now) leaving.now.cell leaving.now.slot leaving.now.marked (view pass.old) }
    requires frame { voxel_count pins.now leaving.now.cell ≤ length frame.old }
    ensures pass { IsPassOf pins.now pass.new }
    ensures same { view pass.new ≡ view pass.old }
    ensures numbers { (i : ℕ) → i < voxel_count pins.now leaving.now.cell → IsFrameNumber (plan_at S.contents pins.now) (left_of leaving.now.cell (view pass.old)) i (slice_index frame.new i) }
{
    let voxels = voxels_in(pins, leaving.cell());
    for at in 0..voxels {
        frame[at as usize] = pins.frame_word(pass, leaving, at);
    }
}

/// Puts the values of a cell into the store of the lane.
fn put<S: Store>(
    pins: &Pins<S>,
    lane: &mut Lane<S>,
    cell: u32,
    values: &[u64],
    block: &mut [u8],
) -> Result<(), SaveErr>
    requires cell { cell < cell_count pins.now }
    requires values { length values.now ≡ voxel_count pins.now cell }
    requires fits { (i : ℕ) → slice_index values.now i ≤ greatest_in pins.now cell }
    requires room { 16 + width_of (made_of pins.now).levels.value cell * voxel_count pins.now cell ≤ length block.old }
    ensures lane { lane.new.lane ≡ lane.old.lane }
    ensures saved { OnOk result (HasPut (plan_at S.contents pins.now) cell true lane.old.store lane.new.store) }
    ensures stood { IsTrue (S.contents lane.old.store).told → OnOk result (standing (made_of pins.now).levels.value (made_of pins.now).keys.value (held_by (S.contents lane.new.store)) cell ≡ Some values.now) }
    ensures not_saved { OnErr result (HasPut (plan_at S.contents pins.now) cell false lane.old.store lane.new.store) }
    ensures write_fault { result ≡ Err SaveErr.WriteFault → Rose (S.contents lane.old.store).faults (S.contents lane.new.store).faults }
{
    cells_have_keys_of_their_own();
    saves_move();
    let keys = pins.keys();
    let _plain = keys.plain(); // read for what its contract tells the proof
    save(&mut lane.store, keys, pins.geometry(), cell, values, block)
}

/// Lets a closed cell go that isn't marked.
pub(crate) fn forget<S: Store>(pins: &Pins<S>, pass: &mut Pass<S>, leaving: Leaving) -> Slot
    requires pass { IsPassOf pins.now pass.old }
    requires place { (leaving.cell < cell_count pins.now) × (leaving.slot < slot_count pins.now) × (leaving.marked ≡ false) }
    requires hands { Hands (view pass.old).claims [] (view pass.old).leaving None (view pass.old) }
    requires turning { IsTurning (plan_at S.contents pins.now) leaving.cell leaving.slot leaving.marked (view pass.old) }
    ensures pass { IsPassOf pins.now pass.new }
    ensures pins { (view pass.new).pins ≡ (view pass.old).pins }
    ensures slot { (result.slot ≡ leaving.slot) × (result.filled ≡ None) }
    ensures hands { Hands (view pass.old).claims (held leaving.slot None [] ∷ []) [] None (view pass.new) }
    ensures gone { Goes (plan_at S.contents pins.now) (view pass.old) (event.Gone (view pass.old).number leaving.cell leaving.marked ∷ []) (view pass.new) }
{
    pins.gone_clean(pass, leaving)
}

/// Lets a closed cell go that was saved.
fn go<S: Store>(pins: &Pins<S>, pass: &mut Pass<S>, leaving: Leaving, lane: &Lane<S>) -> Slot
    requires pass { IsPassOf pins.now pass.old }
    requires place { (leaving.cell < cell_count pins.now) × (leaving.slot < slot_count pins.now) × (leaving.marked ≡ true) }
    requires hands { (o : Taken _) × Hands (view pass.old).claims [] (view pass.old).leaving (Some o) (view pass.old) }
    requires turning { IsTurning (plan_at S.contents pins.now) leaving.cell leaving.slot leaving.marked (view pass.old) }
    requires saved { MaySave (plan_at S.contents pins.now) (view pass.old) leaving.cell lane.now }
    ensures pass { IsPassOf pins.now pass.new }
    ensures pins { (view pass.new).pins ≡ (view pass.old).pins }
    ensures slot { (result.slot ≡ leaving.slot) × (result.filled ≡ None) }
    ensures hands { (o : Taken _) × Hands (view pass.old).claims (held leaving.slot None [] ∷ []) [] (Some o) (view pass.new) }
    ensures done { IsGone (plan_at S.contents pins.now) (view pass.old) leaving.cell (view pass.new) }
    ensures gone { Goes (plan_at S.contents pins.now) (view pass.old) (event.Gone (view pass.old).number leaving.cell leaving.marked ∷ []) (view pass.new) }
{
    pins.gone_saved(pass, leaving, lane)
}

/// Lets a closed cell go that was saved, and gives the lane back.
fn go_saved<S: Store>(pins: &Pins<S>, pass: &mut Pass<S>, leaving: Leaving, lane: Lane<S>) -> Slot
    requires pass { IsPassOf pins.now pass.old }
    requires place { (leaving.cell < cell_count pins.now) × (leaving.slot < slot_count pins.now) × (leaving.marked ≡ true) × (lane.lane < lane_count pins.now) }
    requires hands { (o : Taken _) × Hands (view pass.old).claims [] (view pass.old).leaving (Some o) (view pass.old) }
    requires turning { IsTurning (plan_at S.contents pins.now) leaving.cell leaving.slot leaving.marked (view pass.old) }
    requires saved { MaySave (plan_at S.contents pins.now) (view pass.old) leaving.cell lane }
    requires home { (d : Doing _ _) → IsGone (plan_at S.contents pins.now) (view pass.old) leaving.cell d → MayReturn (plan_at S.contents pins.now) d lane }
    ensures pass { IsPassOf pins.now pass.new }
    ensures pins { (view pass.new).pins ≡ (view pass.old).pins }
    ensures slot { (result.slot ≡ leaving.slot) × (result.filled ≡ None) }
    ensures hands { Hands (view pass.old).claims (held leaving.slot None [] ∷ []) [] None (view pass.new) }
    ensures gone { Goes (plan_at S.contents pins.now) (view pass.old) (event.Gone (view pass.old).number leaving.cell leaving.marked ∷ []) (view pass.new) }
{
    let slot = go(pins, pass, leaving, &lane);
    give_lane(pins, pass, lane);
    slot
}

/// Makes a closed cell live again.
fn back<S: Store>(pins: &Pins<S>, pass: &mut Pass<S>, leaving: Leaving)
    requires pass { IsPassOf pins.now pass.old }
    requires place { (leaving.cell < cell_count pins.now) × (leaving.slot < slot_count pins.now) × (leaving.marked ≡ true) }
    requires hands { (o : Taken _) × Hands (view pass.old).claims [] (view pass.old).leaving (Some o) (view pass.old) }
    requires turning { IsTurning (plan_at S.contents pins.now) leaving.cell leaving.slot leaving.marked (view pass.old) }
    ensures pass { IsPassOf pins.now pass.new }
    ensures pins { (view pass.new).pins ≡ (view pass.old).pins }
    ensures hands { Hands (view pass.old).claims [] [] (view pass.old).lane (view pass.new) }
    ensures rises { (view pass.new).rises ≡ (view pass.old).rises }
    ensures done { IsBack (plan_at S.contents pins.now) (view pass.old) leaving.cell (view pass.new) }
    ensures back { Goes (plan_at S.contents pins.now) (view pass.old) (event.Back (view pass.old).number leaving.cell ∷ []) (view pass.new) }
{
    pins.back(pass, leaving);
}

/// Makes a closed cell live again that could not be put, and gives the lane back.
fn come_back<S: Store>(pins: &Pins<S>, pass: &mut Pass<S>, leaving: Leaving, lane: Lane<S>)
    requires pass { IsPassOf pins.now pass.old }
    requires place { (leaving.cell < cell_count pins.now) × (leaving.slot < slot_count pins.now) × (leaving.marked ≡ true) × (lane.lane < lane_count pins.now) }
    requires hands { (o : Taken _) × Hands (view pass.old).claims [] (view pass.old).leaving (Some o) (view pass.old) }
    requires turning { IsTurning (plan_at S.contents pins.now) leaving.cell leaving.slot leaving.marked (view pass.old) }
    requires home { (d : Doing _ _) → IsBack (plan_at S.contents pins.now) (view pass.old) leaving.cell d → MayReturn (plan_at S.contents pins.now) d lane }
    ensures pass { IsPassOf pins.now pass.new }
    ensures pins { (view pass.new).pins ≡ (view pass.old).pins }
    ensures hands { Hands (view pass.old).claims [] [] None (view pass.new) }
    ensures raised { (o : Taken _) → (view pass.old).lane ≡ Some o → Rose (S.contents o.store).faults (S.contents lane.store).faults → rise lane.lane (view pass.old) < rise lane.lane (view pass.new) }
    ensures back { Goes (plan_at S.contents pins.now) (view pass.old) (event.Back (view pass.old).number leaving.cell ∷ []) (view pass.new) }
{
    back(pins, pass, leaving);
    give_lane(pins, pass, lane);
}

/// Puts a closed and marked cell by its lane, which is given back, and lets it go. Where it can't be put it comes back.
pub(crate) fn put_out<S: Store>(
    pins: &Pins<S>,
    pass: &mut Pass<S>,
    leaving: Leaving,
    mut lane: Lane<S>,
    values: &[u64],
    block: &mut [u8],
) -> Result<Slot, SaveErr>
    requires pass { IsPassOf pins.now pass.old }
    requires place { (leaving.cell < cell_count pins.now) × (leaving.slot < slot_count pins.now) × (leaving.marked ≡ true) × (lane.lane < lane_count pins.now) × (lane.lane ≡ lane_of (plan_at S.contents pins.now) leaving.cell) }
    requires turning { IsTurning (plan_at S.contents pins.now) leaving.cell leaving.slot leaving.marked (view pass.old) }
    requires took { JustTook (plan_at S.contents pins.now) lane.lane lane.store (view pass.old).claims [] (view pass.old).leaving (view pass.old) }
    requires values { (length values.now ≡ voxel_count pins.now leaving.cell) × ((i : ℕ) → i < voxel_count pins.now leaving.cell → IsFrameNumber (plan_at S.contents pins.now) (left_of leaving.cell (view pass.old)) i (slice_index values.now i)) }
    requires room { 16 + width_of (made_of pins.now).levels.value leaving.cell * voxel_count pins.now leaving.cell ≤ length block.old }
    ensures pass { IsPassOf pins.now pass.new }
    ensures pins { (view pass.new).pins ≡ (view pass.old).pins }
    ensures slot { IfOk result (λ s. (s.slot ≡ leaving.slot) × (s.filled ≡ None)) }
    ensures gone { OnOk result (Hands (view pass.old).claims (held leaving.slot None [] ∷ []) [] None (view pass.new) × Goes (plan_at S.contents pins.now) (view pass.old) (event.Gone (view pass.old).number leaving.cell leaving.marked ∷ []) (view pass.new)) }
    ensures back { OnErr result (Hands (view pass.old).claims [] [] None (view pass.new) × Goes (plan_at S.contents pins.now) (view pass.old) (event.Back (view pass.old).number leaving.cell ∷ []) (view pass.new)) }
    ensures write_fault { result ≡ Err SaveErr.WriteFault → rise (lane_of (plan_at S.contents pins.now) leaving.cell) (view pass.old) < rise (lane_of (plan_at S.contents pins.now) leaving.cell) (view pass.new) }
{
    gives_after_saving::<S>();
    gives_after_not_saving::<S>();
    match put(pins, &mut lane, leaving.cell(), values, block) {
        Ok(()) => Ok(go_saved(pins, pass, leaving, lane)),
        Err(err) => {
            come_back(pins, pass, leaving, lane);
            Err(err)
        }
    }
}
