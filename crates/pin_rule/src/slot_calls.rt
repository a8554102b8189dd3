// The calls that load a cell: slots, claims, fills and publishing.
ghost use Rattle.std.specs.Prelude.{◌≡◌, ℕ, ◌<◌, ◌≤◌, true, false, Some, None, length, slice_index, MatchResult};
ghost use Rattle.pin_words.specs.Account.{filled, filled_in};
ghost use Rattle.pin_words.specs.Finding.{has_claim, helds_without};
ghost use Rattle.pin_words.specs.Cells.{MissesSlots, TakesFirst, GivesSlot, IsClaimed, IsTaken, IsDropped, IsFilled, IsPublished};
ghost use Rattle.pin_rule.specs.Calls.{view, plan_at, cell_count, slot_count, voxel_count, greatest_in, IsPassOf, IsHeld, IsMySlot, MayFill};

use crate::cell_steps::{LOADING, claim_cell, drop_claim, publish_cell};
use crate::fill_steps::fill_frame;
use crate::handles::{Claim, Handle, Lane, Slot};
use crate::pass::Pass;
use crate::pin_steps::SLOT;
use crate::pins::Pins;
use crate::refusals::{NoFree, Taken};
use crate::slot_steps::{free_slot, scan_slots};
use cell_store::Store;
use std::marker::Brand;

impl<S: Store> Pins<S> {
    /// Takes the first slot that is free. It tries each slot once, in ascending order, and is refused exactly where each was
    /// taken when it was tried.
    pub fn try_slot(&self, pass: &mut Pass<S>) -> Result<Slot, NoFree>
        requires pass { IsPassOf self.now pass.old }
        ensures pass { IsPassOf self.now pass.new }
        ensures done { MatchResult result (λ s. (s.slot < slot_count self.now) × (s.filled ≡ None) × IsMySlot (view pass.new) s.slot s.filled × TakesFirst (plan_at S.contents self.now) (view pass.old) s.slot (view pass.new)) (λ _. MissesSlots (plan_at S.contents self.now) (view pass.old) (slot_count self.now) (view pass.new)) }
    {
        match scan_slots(
            &self.table.shared,
            &mut pass.seat,
            self.slots as u32,
            1 + self.cells,
        ) {
            Some(slot) => Ok(Slot { slot, filled: None }),
            None => Err(NoFree),
        }
    }

    /// Frees a slot.
    pub fn give_slot(&self, pass: &mut Pass<S>, s: Slot)
        requires pass { IsPassOf self.now pass.old }
        requires slot { (s.slot < slot_count self.now) × IsMySlot (view pass.old) s.slot s.filled }
        ensures pass { IsPassOf self.now pass.new }
        ensures done { GivesSlot (view pass.old) s.slot (view pass.new) }
    {
        let Slot { slot, filled: _ } = s;
        let word = self.slot_index(slot);
        free_slot(&self.table.shared, &mut pass.seat, slot, word);
    }

    /// Claims an absent cell. It is refused exactly where the word that was found isn't 0.
    pub fn try_claim(&self, pass: &mut Pass<S>, cell: u32) -> Result<Claim, Taken>
        requires pass { IsPassOf self.now pass.old }
        requires cell { cell < cell_count self.now }
        ensures pass { IsPassOf self.now pass.new }
        ensures done { MatchResult result (λ c. (c.cell ≡ cell) × (has_claim c.cell (view pass.new) ≡ true) × IsClaimed (plan_at S.contents self.now) (view pass.old) cell (view pass.new)) (λ e. IsTaken (plan_at S.contents self.now) (view pass.old) cell e.word (view pass.new)) }
    {
        match claim_cell(&self.table.shared, &mut pass.seat, cell) {
            Ok(()) => Ok(Claim { cell }),
            Err(word) => Err(Taken { word }),
        }
    }

    /// Drops a claim, for whose cell no slot of the pass is filled.
    pub fn abandon(&self, pass: &mut Pass<S>, c: Claim)
        requires pass { IsPassOf self.now pass.old }
        requires claim { (c.cell < cell_count self.now) × (has_claim c.cell (view pass.old) ≡ true) }
        requires empty { filled c.cell (view pass.old) ≡ 0 }
        ensures pass { IsPassOf self.now pass.new }
        ensures done { IsDropped (plan_at S.contents self.now) (view pass.old) c.cell (view pass.new) }
    {
        let Claim { cell } = c;
        drop_claim(&self.table.shared, &mut pass.seat, cell);
    }

    /// Fills the frame of a slot for a claimed cell, with one number for each voxel.
    pub fn fill(&self, pass: &mut Pass<S>, c: &Claim, s: &mut Slot, lane: &Lane<S>, values: &[u64])
        requires pass { IsPassOf self.now pass.old }
        requires claim { (c.now.cell < cell_count self.now) × (has_claim c.now.cell (view pass.old) ≡ true) }
        requires slot { (s.old.slot < slot_count self.now) × IsMySlot (view pass.old) s.old.slot s.old.filled }
        requires one { filled_in c.now.cell (helds_without s.old.slot (view pass.old)) ≡ 0 }
        requires values { length values.now ≡ voxel_count self.now c.now.cell }
        requires fits { (i : ℕ) → i < voxel_count self.now c.now.cell → slice_index values.now i ≤ greatest_in self.now c.now.cell }
        requires lane { MayFill (plan_at S.contents self.now) (view pass.old) c.now.cell lane.now values.now }
        ensures pass { IsPassOf self.now pass.new }
        ensures slot { (s.new.slot ≡ s.old.slot) × (s.new.filled ≡ Some c.now.cell) × IsMySlot (view pass.new) s.new.slot s.new.filled }
        ensures done { IsFilled (view pass.old) c.now.cell s.old.slot values.now (view pass.new) }
    {
        let _some = self.geometry.voxels(c.cell); // read for what its contract tells the proof
        let first = self.frame_index(s.slot, 0);
        fill_frame::<S, Brand>(
            &self.table.shared,
            &mut pass.seat,
            c.cell,
            s.slot,
            values,
            first,
        );
        s.filled = Some(c.cell);
    }

    /// Makes a claimed cell live in the slot that is filled for it, with a pin of the pass.
    pub fn publish(&self, pass: &mut Pass<S>, c: Claim, s: Slot) -> Handle
        requires pass { IsPassOf self.now pass.old }
        requires claim { (c.cell < cell_count self.now) × (has_claim c.cell (view pass.old) ≡ true) }
        requires slot { (s.slot < slot_count self.now) × (s.filled ≡ Some c.cell) × IsMySlot (view pass.old) s.slot s.filled }
        requires room { length (view pass.old).pins < 64 }
        ensures pass { IsPassOf self.now pass.new }
        ensures handle { (result.cell ≡ c.cell) × (result.slot ≡ s.slot) × (result.marked ≡ false) × (result.loaded ≡ true) × IsHeld self.now pass.new result }
        ensures done { IsPublished (plan_at S.contents self.now) (view pass.old) c.cell s.slot (view pass.new) }
    {
        let Claim { cell } = c;
        let Slot { slot, filled: _ } = s;
        let number = LOADING + 1 + slot as u64 * SLOT;
        publish_cell(&self.table.shared, &mut pass.seat, cell, slot, number);
        Handle {
            cell,
            slot,
            marked: false,
            loaded: true,
        }
    }
}
