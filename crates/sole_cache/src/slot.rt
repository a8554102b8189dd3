//! A slot, and what is done to one in a list of slots.
ghost use Rattle.std.specs.Prelude.{◌≡◌, ◌≢◌, ℕ, ◌+◌, ◌^◌, ◌<◌, ◌≤◌, List, length, None, Some, IfSome, slice_index, slice_set};
ghost use Rattle.sole_cache.specs.Slot.{slot_in, slot_with_pins, slot_with_value, loaded_with, emptied};
ghost use Rattle.sole_cache.specs.Room.{IsLowestFree};

use std::marker::Model;
use std::mem;

/// A place for a cell, with a frame for its voxels.
#[derive(Drop)]
pub struct Slot {
    pub cell: Option<u32>,
    pub pins: u32,
    pub marked: bool,
    pub frame: Vec<u64>,
}

impl Model for Slot {
    ghost use Rattle.sole_cache.specs.Slot.{SlotValue};

    ghost Value = { SlotValue };

    ghost view = { λ s. record { cell = s.cell; pins = s.pins; marked = s.marked; frame = s.frame.items } };
}

/// The cell of a slot.
pub fn cell_of(slots: &[Slot], slot: usize) -> Option<u32>
    requires { slot < length slots.now }
    ensures { result ≡ (slot_in slots.now slot).cell }
{
    let slot = &slots[slot];
    slot.cell
}

/// The pins of a slot.
pub fn pins_of(slots: &[Slot], slot: usize) -> u32
    requires { slot < length slots.now }
    ensures { result ≡ (slot_in slots.now slot).pins }
{
    let slot = &slots[slot];
    slot.pins
}

/// Whether a slot is marked.
pub fn is_marked(slots: &[Slot], slot: usize) -> bool
    requires { slot < length slots.now }
    ensures { result ≡ (slot_in slots.now slot).marked }
{
    let slot = &slots[slot];
    slot.marked
}

/// A voxel of a slot's frame.
pub fn value_of(slots: &[Slot], slot: usize, at: usize) -> u64
    requires slot { slot < length slots.now }
    requires at { at < length (slot_in slots.now slot).frame }
    ensures { result ≡ slice_index (slot_in slots.now slot).frame at }
{
    let slot = &slots[slot];
    slot.frame[at]
}

/// The frame of a slot.
pub fn frame_of(slots: &[Slot], slot: usize) -> &[u64]
    requires { slot < length slots.now }
    ensures { result.now ≡ (slot_in slots.now slot).frame }
{
    let slot = &slots[slot];
    slot.frame.as_slice()
}

/// Gives a slot so many pins.
pub fn set_pins(slots: &mut Vec<Slot>, slot: usize, pins: u32)
    requires { slot < length slots.old.items }
    ensures { slots.new.items ≡ slice_set slots.old.items slot (slot_with_pins (slot_in slots.old.items slot) pins) }
{
    let slot = &mut slots[slot];
    slot.pins = pins;
}

/// Marks a slot, and writes a voxel of its frame.
pub fn set_value(slots: &mut Vec<Slot>, slot: usize, at: usize, value: u64)
    requires slot { slot < length slots.old.items }
    requires at { at < length (slot_in slots.old.items slot).frame }
    ensures { slots.new.items ≡ slice_set slots.old.items slot (slot_with_value (slot_in slots.old.items slot) at value) }
{
    let slot = &mut slots[slot];
    slot.marked = true;
    slot.frame[at] = value;
}

/// Gives a slot to a cell, with one pin, and its frame for the spare one.
pub fn take_slot(slots: &mut Vec<Slot>, slot: usize, cell: u32, spare: &mut Vec<u64>)
    requires { slot < length slots.old.items }
    ensures slots { slots.new.items ≡ slice_set slots.old.items slot (loaded_with cell spare.old.items) }
    ensures spare { spare.new.items ≡ (slot_in slots.old.items slot).frame }
{
    let slot = &mut slots[slot];
    slot.cell = Some(cell);
    slot.pins = 1;
    slot.marked = false;
    mem::swap(&mut slot.frame, spare);
}

/// Takes a slot from its cell.
pub fn empty_slot(slots: &mut Vec<Slot>, slot: usize)
    requires { slot < length slots.old.items }
    ensures { slots.new.items ≡ slice_set slots.old.items slot (emptied (slot_in slots.old.items slot)) }
{
    let slot = &mut slots[slot];
    slot.cell = None;
    slot.pins = 0;
    slot.marked = false;
}

/// The first slot without a cell, from a slot on below which each has one. Walks past the slots that have one.
pub fn first_free(slots: &[Slot], from: usize) -> Option<u32>
    requires few { length slots.now ≤ 4096 }
    requires from { from ≤ length slots.now }
    requires taken { (i : ℕ) → i < from → (slot_in slots.now i).cell ≢ None }
    ensures { IsLowestFree slots.now result }
{
    for i in from..slots.len() {
        if cell_of(slots, i).is_none() {
            return Some(i as u32);
        }
    }
    None
}
