// Reading and writing voxels by handles and by positions.
ghost use Rattle.std.specs.Prelude.{◌≡◌, ◌≢◌, ◌<◌, ◌≤◌, true, false, [], ◌∷◌, length, IfOk, IfErr, OnOk, OnErr};
ghost use Rattle.arr_history.specs.declared.cell_state.Seen.TheVariants as seen;
ghost use Rattle.arr_history.specs.History.{after};
ghost use Rattle.pin_words.specs.Plan.{start_of};
ghost use Rattle.pin_words.specs.Pins.{seen_of};
ghost use Rattle.arr_history.specs.declared.event.Event.TheVariants as event;
ghost use Rattle.pin_words.specs.Finding.{pin, pins_without};
ghost use Rattle.pin_words.specs.Tells.{HasSeen};
ghost use Rattle.pin_rule.specs.Calls.{plan_at, cell_count, voxel_count, greatest_in, pin_of};
ghost use Rattle.pin_rule.specs.Going.{Goes};
ghost use Rattle.live_cells.specs.Cells.{table, knows, IsCellPassOf, IsHandleOf, IsLiveFor};

use crate::cells::{CellPass, Cells};
use crate::steps::visit;
use cell_file::CellErr;
use cell_store::Store;
use pin_rule::{Handle, NotLive};
use std::sync::Wait;

impl<S: Store> Cells<S> {
    /// Pins a cell where it is live. Else the answer is the state in which it was found, and the pass missed it.
    pub fn look(&self, pass: &mut CellPass<S>, cell: u32) -> Result<Handle, NotLive>
        requires pass { IsCellPassOf self.now pass.old }
        requires cell { cell < cell_count (table self.now) }
        requires room { length (knows pass.old).pins < 64 }
        ensures pass { IsCellPassOf self.now pass.new }
        ensures hit { OnOk result (Goes (plan_at S.contents (table self.now)) (knows pass.old) (event.Pin (knows pass.old).number cell ∷ []) (knows pass.new)) }
        ensures missed { OnErr result (Goes (plan_at S.contents (table self.now)) (knows pass.old) (event.Miss (knows pass.old).number cell ∷ []) (knows pass.new)) }
        ensures state { IfErr result (λ e. e.state ≡ seen_of ((after (start_of (plan_at S.contents (table self.now))) (knows pass.new).seen).cells cell)) }
        ensures not_live { IfErr result (λ e. e.state ≢ seen.Live) }
        ensures handle { IfOk result (λ h. (h.cell ≡ cell) × (h.marked ≡ false) × (h.loaded ≡ false) × IsHandleOf self.now pass.new h) }
        ensures pinned { IfOk result (λ h. ((knows pass.new).pins ≡ pin cell h.slot false ∷ (knows pass.old).pins) × IsLiveFor (plan_at S.contents (table self.now)) (knows pass.new) h) }
        ensures refused { OnErr result ((knows pass.new).pins ≡ (knows pass.old).pins) }
        ensures seen { HasSeen (plan_at S.contents (table self.now)) (knows pass.new) }
    {
        visit(&self.pins, &mut pass.actor, cell)
    }

    /// The number of a voxel of a pinned cell.
    pub fn read(&self, pass: &mut CellPass<S>, h: &Handle, at: u32) -> u64
        requires pass { IsCellPassOf self.now pass.old }
        requires held { IsHandleOf self.now pass.old h.now }
        requires at { at < voxel_count (table self.now) h.now.cell }
        ensures pass { IsCellPassOf self.now pass.new }
        ensures pins { (knows pass.new).pins ≡ (knows pass.old).pins }
        ensures read { Goes (plan_at S.contents (table self.now)) (knows pass.old) (event.Read (knows pass.old).number h.now.cell at result ∷ []) (knows pass.new) }
        ensures seen { HasSeen (plan_at S.contents (table self.now)) (knows pass.new) }
    {
        self.pins.read(&mut pass.actor.pass, h, at)
    }

    /// Marks a pinned cell, and writes a voxel of it.
    pub fn write(&self, pass: &mut CellPass<S>, h: &mut Handle, at: u32, value: u64)
        requires pass { IsCellPassOf self.now pass.old }
        requires held { IsHandleOf self.now pass.old h.old }
        requires at { at < voxel_count (table self.now) h.old.cell }
        requires value { value ≤ greatest_in (table self.now) h.old.cell }
        ensures pass { IsCellPassOf self.now pass.new }
        ensures handle { (h.new.cell ≡ h.old.cell) × (h.new.slot ≡ h.old.slot) × (h.new.marked ≡ true) × (h.new.loaded ≡ h.old.loaded) × IsHandleOf self.now pass.new h.new }
        ensures pins { (knows pass.new).pins ≡ pin h.old.cell h.old.slot true ∷ pins_without (pin_of h.old) (knows pass.old) }
        ensures written { Goes (plan_at S.contents (table self.now)) (knows pass.old) (event.Mark (knows pass.old).number h.old.cell ∷ event.Write (knows pass.old).number h.old.cell at value ∷ []) (knows pass.new) }
        ensures seen { HasSeen (plan_at S.contents (table self.now)) (knows pass.new) }
    {
        self.pins.mark(&mut pass.actor.pass, h);
        self.pins.write(&mut pass.actor.pass, h, at, value);
    }

    /// Ends a pin.
    pub fn release(&self, pass: &mut CellPass<S>, h: Handle)
        requires pass { IsCellPassOf self.now pass.old }
        requires held { IsHandleOf self.now pass.old h }
        ensures pass { IsCellPassOf self.now pass.new }
        ensures pins { (knows pass.new).pins ≡ pins_without (pin_of h) (knows pass.old) }
        ensures released { Goes (plan_at S.contents (table self.now)) (knows pass.old) (event.Unpin (knows pass.old).number h.cell ∷ []) (knows pass.new) }
        ensures seen { HasSeen (plan_at S.contents (table self.now)) (knows pass.new) }
    {
        self.pins.unpin(&mut pass.actor.pass, h);
    }
}

impl<S: Store> Cells<S> {
    ghost use Rattle.live_cells.specs.Voxels.{GetsCell, SetsCell};

    /// The number of a voxel, by its level and its position there.
    pub fn get<R: Wait>(
        &self,
        rt: &R,
        pass: &mut CellPass<S>,
        level: u8,
        pos: [u64; 3],
    ) -> Result<u64, CellErr>
        requires pass { IsCellPassOf self.now pass.old }
        requires room { length (knows pass.old).pins < 64 }
        ensures pass { IsCellPassOf self.now pass.new }
        ensures pins { (knows pass.new).pins ≡ (knows pass.old).pins }
        ensures gets { GetsCell S.contents (table self.now) (knows pass.old) (knows pass.new) level pos result }
    {
        let Some(place) = self.pins.geometry().place(level, pos) else {
            return Err(CellErr::Outside);
        };
        match self.acquire(rt, pass, place.cell) {
            Ok(handle) => {
                let value = self.read(pass, &handle, place.at);
                self.release(pass, handle);
                Ok(value)
            }
            Err(refusal) => Err(CellErr::Acquire(refusal)),
        }
    }

    /// Writes a voxel, by its level and its position there.
    pub fn set<R: Wait>(
        &self,
        rt: &R,
        pass: &mut CellPass<S>,
        level: u8,
        pos: [u64; 3],
        value: u64,
    ) -> Result<(), CellErr>
        requires pass { IsCellPassOf self.now pass.old }
        requires room { length (knows pass.old).pins < 64 }
        ensures pass { IsCellPassOf self.now pass.new }
        ensures pins { (knows pass.new).pins ≡ (knows pass.old).pins }
        ensures sets { SetsCell S.contents (table self.now) (knows pass.old) (knows pass.new) level pos value result }
    {
        let Some(place) = self.pins.geometry().place(level, pos) else {
            return Err(CellErr::Outside);
        };
        if value > self.pins.geometry().kind(place.cell).greatest() {
            return Err(CellErr::TooLarge { value });
        }
        match self.acquire(rt, pass, place.cell) {
            Ok(mut handle) => {
                self.write(pass, &mut handle, place.at, value);
                self.release(pass, handle);
                Ok(())
            }
            Err(refusal) => Err(CellErr::Acquire(refusal)),
        }
    }
}
