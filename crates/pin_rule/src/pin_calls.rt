// The calls on pins.
ghost use Rattle.std.specs.Prelude.{◌≡◌, ◌<◌, ◌≤◌, true, false, length, MatchResult, ⊤};
ghost use Rattle.pin_words.specs.Pins.{IsPinned, IsUnpinned, IsMarked, IsRead, IsWritten};
ghost use Rattle.pin_rule.specs.Calls.{view, plan_at, cell_count, voxel_count, greatest_in, IsPassOf, IsHeld, pin_of, IsRefusedPin};

use crate::cell_word::CellWord;
use crate::handles::Handle;
use crate::pass::Pass;
use crate::pin_steps::{leave, load_voxel, set_mark, store_voxel, visit};
use crate::pins::Pins;
use crate::refusals::NotLive;
use cell_store::Store;
use std::marker::Brand;

impl<S: Store> Pins<S> {
    /// Pins a live cell. It is refused exactly where the cell wasn't live at the call's first step, which is a Miss then.
    pub fn try_pin(&self, pass: &mut Pass<S>, cell: u32) -> Result<Handle, NotLive>
        requires pass { IsPassOf self.now pass.old }
        requires cell { cell < cell_count self.now }
        requires room { length (view pass.old).pins < 64 }
        ensures pass { IsPassOf self.now pass.new }
        ensures handle { MatchResult result (λ h. (h.cell ≡ cell) × (h.marked ≡ false) × (h.loaded ≡ false) × IsHeld self.now pass.new h) (λ _. ⊤) }
        ensures done { MatchResult result (λ h. IsPinned (plan_at S.contents self.now) (view pass.old) cell h.slot (view pass.new)) (λ e. IsRefusedPin (plan_at S.contents self.now) (view pass.old) cell e.state (view pass.new)) }
    {
        match visit(&self.table.shared, &mut pass.seat, cell) {
            Ok(slot) => Ok(Handle {
                cell,
                slot: slot as u32,
                marked: false,
                loaded: false,
            }),
            Err(word) => Err(NotLive {
                state: CellWord::of(word).state,
            }),
        }
    }

    /// Ends a pin.
    pub fn unpin(&self, pass: &mut Pass<S>, h: Handle)
        requires pass { IsPassOf self.now pass.old }
        requires held { IsHeld self.now pass.old h }
        ensures pass { IsPassOf self.now pass.new }
        ensures done { IsUnpinned (plan_at S.contents self.now) (view pass.old) (pin_of h) (view pass.new) }
    {
        leave::<S, Brand>(&self.table.shared, &mut pass.seat, &h);
        let Handle {
            cell: _,
            slot: _,
            marked: _,
            loaded: _,
        } = h;
    }

    /// Marks a pinned cell: it has to be put before it leaves.
    pub fn mark(&self, pass: &mut Pass<S>, h: &mut Handle)
        requires pass { IsPassOf self.now pass.old }
        requires held { IsHeld self.now pass.old h.old }
        ensures pass { IsPassOf self.now pass.new }
        ensures handle { (h.new.cell ≡ h.old.cell) × (h.new.slot ≡ h.old.slot) × (h.new.marked ≡ true) × (h.new.loaded ≡ h.old.loaded) × IsHeld self.now pass.new h.new }
        ensures done { IsMarked (plan_at S.contents self.now) (view pass.old) (pin_of h.old) (view pass.new) }
    {
        set_mark::<S, Brand>(&self.table.shared, &mut pass.seat, h);
        h.marked = true;
    }

    /// Reads a voxel of a pinned cell.
    pub fn read(&self, pass: &mut Pass<S>, h: &Handle, at: u32) -> u64
        requires pass { IsPassOf self.now pass.old }
        requires held { IsHeld self.now pass.old h.now }
        requires at { at < voxel_count self.now h.now.cell }
        ensures pass { IsPassOf self.now pass.new }
        ensures done { IsRead (plan_at S.contents self.now) (view pass.old) h.now.cell at result (view pass.new) }
    {
        let word = self.frame_index(h.slot, at as usize);
        load_voxel::<S, Brand>(&self.table.shared, &mut pass.seat, h, at, word)
    }

    /// Writes a voxel of a cell that was marked through the handle.
    pub fn write(&self, pass: &mut Pass<S>, h: &Handle, at: u32, value: u64)
        requires pass { IsPassOf self.now pass.old }
        requires held { IsHeld self.now pass.old h.now }
        requires marked { h.now.marked ≡ true }
        requires at { at < voxel_count self.now h.now.cell }
        requires value { value ≤ greatest_in self.now h.now.cell }
        ensures pass { IsPassOf self.now pass.new }
        ensures done { IsWritten (plan_at S.contents self.now) (view pass.old) h.now.cell at value (view pass.new) }
    {
        let word = self.frame_index(h.slot, at as usize);
        store_voxel::<S, Brand>(&self.table.shared, &mut pass.seat, h, at, word, value);
    }
}
