// The calls that turn a cell out.
ghost use Rattle.std.specs.Prelude.{◌≡◌, ◌+◌, ◌*◌, ◌<◌, true, false, Some, None, MatchResult};
ghost use Rattle.pin_words.specs.declared.lane.Taken.{Taken};
ghost use Rattle.pin_words.specs.Plan.{lane_of};
ghost use Rattle.pin_words.specs.Layout.{live_word};
ghost use Rattle.pin_words.specs.Finding.{left_of};
ghost use Rattle.pin_words.specs.Cells.{IsClosed, IsBusy, IsFrameNumber, IsGone, IsBack};
ghost use Rattle.pin_rule.specs.Calls.{view, plan_at, cell_count, slot_count, voxel_count, IsPassOf, IsMySlot, IsMyLeaving, MaySave};

use crate::cell_steps::{LOADING, back_cell, close_cell, go_cell};
use crate::fill_steps::look_at;
use crate::handles::{Lane, Leaving, Slot};
use crate::pass::Pass;
use crate::pin_steps::SLOT;
use crate::pins::Pins;
use crate::refusals::Busy;
use cell_store::Store;
use std::marker::Brand;

impl<S: Store> Pins<S> {
    /// Closes a live cell. It is refused exactly where the word that was found isn't that of a live cell with this slot, this
    /// mark and no pin.
    pub fn try_close(
        &self,
        pass: &mut Pass<S>,
        cell: u32,
        slot: u32,
        marked: bool,
    ) -> Result<Leaving, Busy>
        requires pass { IsPassOf self.now pass.old }
        requires place { (cell < cell_count self.now) × (slot < slot_count self.now) }
        ensures pass { IsPassOf self.now pass.new }
        ensures done { MatchResult result (λ l. (l.cell ≡ cell) × (l.slot ≡ slot) × (l.marked ≡ marked) × IsMyLeaving (view pass.new) l.cell l.slot l.marked × IsClosed (plan_at S.contents self.now) (view pass.old) cell slot marked (view pass.new)) (λ e. IsBusy (plan_at S.contents self.now) (view pass.old) cell slot marked e.word (view pass.new)) }
    {
        let old = live_number(slot, marked);
        match close_cell(
            &self.table.shared,
            &mut pass.seat,
            cell,
            slot,
            marked,
            old,
            old + LOADING,
        ) {
            Ok(()) => Ok(Leaving { cell, slot, marked }),
            Err(word) => Err(Busy { word }),
        }
    }

    /// The number at an offset of a closed cell: that of its array, which nobody can write.
    pub fn frame_word(&self, pass: &mut Pass<S>, l: &Leaving, at: u32) -> u64
        requires pass { IsPassOf self.now pass.old }
        requires leaving { (l.now.slot < slot_count self.now) × (l.now.cell < cell_count self.now) × IsMyLeaving (view pass.old) l.now.cell l.now.slot l.now.marked }
        requires at { at < voxel_count self.now l.now.cell }
        ensures pass { IsPassOf self.now pass.new }
        ensures same { view pass.new ≡ view pass.old }
        ensures number { IsFrameNumber (plan_at S.contents self.now) (left_of l.now.cell (view pass.old)) at result }
    {
        let word = self.frame_index(l.slot, at as usize);
        look_at::<S, Brand>(
            &self.table.shared,
            &mut pass.seat,
            l.cell,
            l.slot,
            l.marked,
            at,
            word,
        )
    }

    /// Lets a closed cell go that isn't marked. Its slot is the pass's then.
    pub fn gone_clean(&self, pass: &mut Pass<S>, l: Leaving) -> Slot
        requires pass { IsPassOf self.now pass.old }
        requires leaving { (l.cell < cell_count self.now) × (l.slot < slot_count self.now) × (l.marked ≡ false) × IsMyLeaving (view pass.old) l.cell l.slot l.marked }
        ensures pass { IsPassOf self.now pass.new }
        ensures slot { (result.slot ≡ l.slot) × (result.filled ≡ None) × IsMySlot (view pass.new) result.slot result.filled }
        ensures done { IsGone (plan_at S.contents self.now) (view pass.old) l.cell (view pass.new) }
    {
        self.let_go(pass, l)
    }

    /// Lets a closed and marked cell go, for which the store of its lane stands. Its slot is the pass's then.
    pub fn gone_saved(&self, pass: &mut Pass<S>, l: Leaving, lane: &Lane<S>) -> Slot
        requires pass { IsPassOf self.now pass.old }
        requires leaving { (l.cell < cell_count self.now) × (l.slot < slot_count self.now) × (l.marked ≡ true) × IsMyLeaving (view pass.old) l.cell l.slot l.marked }
        requires lane { MaySave (plan_at S.contents self.now) (view pass.old) l.cell lane.now }
        ensures pass { IsPassOf self.now pass.new }
        ensures slot { (result.slot ≡ l.slot) × (result.filled ≡ None) × IsMySlot (view pass.new) result.slot result.filled }
        ensures done { IsGone (plan_at S.contents self.now) (view pass.old) l.cell (view pass.new) }
    {
        let _lane = lane; // read for what its contract tells the proof
        self.let_go(pass, l)
    }

    // Lets a closed cell go, whose lane the pass has where it is marked.
    fn let_go(&self, pass: &mut Pass<S>, l: Leaving) -> Slot
        requires pass { IsPassOf self.now pass.old }
        requires leaving { (l.cell < cell_count self.now) × (l.slot < slot_count self.now) × IsMyLeaving (view pass.old) l.cell l.slot l.marked }
        requires lane { l.marked ≡ true → (o : Taken _) × ((view pass.old).lane ≡ Some o) × (lane_of (plan_at S.contents self.now) l.cell ≡ o.lane) }
        ensures pass { IsPassOf self.now pass.new }
        ensures slot { (result.slot ≡ l.slot) × (result.filled ≡ None) × IsMySlot (view pass.new) result.slot result.filled }
        ensures done { IsGone (plan_at S.contents self.now) (view pass.old) l.cell (view pass.new) }
    {
        let Leaving { cell, slot, marked } = l;
        let number = live_number(slot, marked) + LOADING;
        go_cell(
            &self.table.shared,
            &mut pass.seat,
            cell,
            slot,
            marked,
            number,
        );
        Slot { slot, filled: None }
    }

    /// Makes a closed and marked cell live again.
    pub fn back(&self, pass: &mut Pass<S>, l: Leaving)
        requires pass { IsPassOf self.now pass.old }
        requires leaving { (l.cell < cell_count self.now) × (l.slot < slot_count self.now) × (l.marked ≡ true) × IsMyLeaving (view pass.old) l.cell l.slot l.marked }
        ensures pass { IsPassOf self.now pass.new }
        ensures done { IsBack (plan_at S.contents self.now) (view pass.old) l.cell (view pass.new) }
    {
        let Leaving {
            cell,
            slot,
            marked: _,
        } = l;
        back_cell(&self.table.shared, &mut pass.seat, cell, slot);
    }
}

// The word of a live cell with no pin.
fn live_number(slot: u32, marked: bool) -> u64
    requires { slot < 4096 }
    ensures { result ≡ live_word slot marked }
{
    let mark: u64 = if marked { 1 << 24 } else { 0 };
    (1 << 26) + mark + slot as u64 * SLOT
}
