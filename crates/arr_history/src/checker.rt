//! A machine that plays a history event by event. It serves tests.
ghost use Rattle.std.specs.Prelude.{◌≡◌, ◌↔◌, ℕ, ◌+◌, ◌-◌, ◌*◌, ◌^◌, ◌<◌, ◌≤◌, Bool, true, false, IsTrue, IfOk, IfSome, IfNone, Some, None, length, slice_index, slice_index_or};
ghost use Rattle.cell_grid.specs.Pyramid.{cells_of, voxels_of};
ghost use Rattle.arr_history.specs.declared.event.Event.{Event};
ghost use Rattle.arr_history.specs.declared.event.Event.TheVariants as happening;
ghost use Rattle.arr_history.specs.declared.cell_state.CellState.{CellState};
ghost use Rattle.arr_history.specs.declared.cell_state.CellState.TheVariants as cells;
ghost use Rattle.arr_history.specs.State.{State, with_cell, with_pins, with_voxel, opening};
ghost use Rattle.arr_history.specs.Shape.{IsSameShape};
ghost use Rattle.arr_history.specs.Next.{marked, leaving, returned, next};
ghost use Rattle.arr_history.specs.Legal.{IsLive, IsMarked, HasSlot, IsLeaving, IsLegal};
ghost use Rattle.arr_history.specs.History.{IsSame};
ghost use Rattle.arr_history.specs.Tracked.{tracked_at, fresh};
ghost use Rattle.arr_history.specs.Checked.{shape_over, array_of, checked_shape, checked_state, Becomes, MayHappen};

use crate::cell_state::CellState;
use crate::event::Event;
use crate::tracked::{
    TrackedCell, is_unpinned, is_void, pins_at, set_live, set_pins, set_state, set_value, state_at,
    value_at,
};
use cell_grid::Geometry;
use std::alloc::{AllocError, Global};
use std::marker::Model;

/// Want of memory.
pub type Memory = AllocError;

/// Plays events over the arrays of a pyramid's cells, and refuses those that aren't legal.
#[derive(Drop)]
pub struct Checker {
    geometry: Geometry,
    cells: Vec<TrackedCell>,
    // the cell of each slot
    owners: Vec<Option<u32>>,
    passes: u32,
}

impl Model for Checker {
    ghost use Rattle.arr_history.specs.Checked.{Checked, IsChecked};
    ghost use Rattle.std.specs.Prelude.{length};

    ghost Value = { Checked };

    ghost view = { λ c. record { levels = c.geometry; cells = c.cells.items; slots = length c.owners.items; passes = c.passes } };

    ghost invariant = { λ c. IsChecked (record { levels = c.geometry; cells = c.cells.items; slots = length c.owners.items; passes = c.passes }) c.owners.items };
}

impl Checker {
    /// Every cell is absent, nobody has a pin, and the cells have these arrays. Takes memory for them and for the pins of
    /// each pass on each cell.
    pub fn new(
        alloc: Global,
        geometry: &Geometry,
        arrays: Vec<Vec<u64>>,
        void: Vec<bool>,
        slots: u32,
        passes: u32,
    ) -> Result<Checker, Memory>
        requires arrays { length arrays.items ≡ cells_of geometry.now }
        requires lengths { (n : ℕ) → n < cells_of geometry.now → length (array_of arrays.items n) ≡ voxels_of geometry.now n }
        requires void { length void.items ≡ cells_of geometry.now }
        requires few { passes * cells_of geometry.now ≤ 2 ^ 24 }
        ensures shape { IfOk result (λ checker. IsSameShape (shape_over geometry.now slots (λ n. slice_index_or void.items n false) (λ _. true)) (checked_shape checker)) }
        ensures opening { IfOk result (λ checker. IsSame (checked_shape checker) (opening (λ n i. slice_index (array_of arrays.items n) i)) (checked_state checker)) }
        ensures passes { IfOk result (λ checker. checker.passes ≡ passes) }
    {
        Ok(Checker {
            geometry: geometry.copy()?,
            cells: tracked(alloc, arrays, void, passes)?,
            owners: vec![in alloc; None; slots as usize]?,
            passes,
        })
    }

    /// Accepts an event that is legal after those accepted so far, and says whether it did. Takes a fixed number of steps,
    /// but for a Close, which looks at the pins of each pass on its cell.
    pub fn step(&mut self, event: &Event) -> bool
        requires room { (k n : ℕ) → event.now ≡ happening.Pin k n → slice_index (tracked_at self.old.cells n).pins k < 2 ^ 32 - 1 }
        ensures legal { IsTrue result ↔ MayHappen self.old event.now }
        ensures accepted { IsTrue result → Becomes self.old (next (checked_state self.old) event.now) self.new }
        ensures refused { result ≡ false → self.new ≡ self.old }
    {
        if !self.may_happen(event) {
            return false;
        }
        self.accept(event);
        true
    }

    /// The state of a cell. A cell that has a pin is live.
    pub fn state(&self, cell: u32) -> CellState
        requires { cell < cells_of self.now.levels }
        ensures state { result ≡ (checked_state self.now).cells cell }
        ensures pinned { (k : ℕ) → 0 < (checked_state self.now).pins k cell → IsLive result }
    {
        state_at(self.cells.as_slice(), cell as usize)
    }
}

// What is asked of the state.
impl Checker {
    /// Whether an event is legal and its pass in range.
    fn may_happen(&self, event: &Event) -> bool
        ensures { IsTrue result ↔ MayHappen self.now event.now }
    {
        match *event {
            Event::Pin { k, cell } => self.is_known(k, cell) && self.is_live(cell),
            Event::Miss { k, cell } => self.is_known(k, cell) && !self.is_live(cell),
            Event::Unpin { k, cell } | Event::Mark { k, cell } => self.is_pinned(k, cell),
            Event::Read { k, cell, at, value } => {
                self.is_voxel(k, cell, at, value) && self.value(cell, at) == value
            }
            Event::Write { k, cell, at, value } => {
                self.is_voxel(k, cell, at, value) && self.is_marked(cell)
            }
            Event::Claim { k, cell } => self.is_known(k, cell) && self.is_absent(cell),
            Event::Drop { k, cell } => self.is_known(k, cell) && self.is_loading(k, cell),
            Event::Live { k, cell, slot } => {
                self.is_known(k, cell) && self.is_loading(k, cell) && self.may_live(cell, slot)
            }
            Event::Close { k, cell } => self.is_known(k, cell) && self.may_close(cell),
            Event::Gone { k, cell, saved } => {
                self.is_known(k, cell) && self.is_leaving(k, cell, saved)
            }
            Event::Back { k, cell } => self.is_known(k, cell) && self.is_leaving(k, cell, true),
        }
    }

    /// Whether a pass and a cell are in range.
    fn is_known(&self, k: u32, cell: u32) -> bool
        ensures { IsTrue result ↔ ((k < self.now.passes) × (cell < cells_of self.now.levels)) }
    {
        k < self.passes && cell < self.geometry.cells()
    }

    fn is_live(&self, cell: u32) -> bool
        requires { cell < cells_of self.now.levels }
        ensures { IsTrue result ↔ IsLive ((checked_state self.now).cells cell) }
    {
        matches!(self.state(cell), CellState::Live { .. })
    }

    fn is_marked(&self, cell: u32) -> bool
        requires { cell < cells_of self.now.levels }
        ensures { IsTrue result ↔ IsMarked ((checked_state self.now).cells cell) }
    {
        matches!(self.state(cell), CellState::Live { marked: true, .. })
    }

    fn is_absent(&self, cell: u32) -> bool
        requires { cell < cells_of self.now.levels }
        ensures { IsTrue result ↔ ((checked_state self.now).cells cell ≡ cells.Absent) }
    {
        self.state(cell) == CellState::Absent
    }

    fn is_loading(&self, k: u32, cell: u32) -> bool
        requires { cell < cells_of self.now.levels }
        ensures { IsTrue result ↔ ((checked_state self.now).cells cell ≡ cells.Loading k) }
    {
        self.state(cell) == CellState::Loading { k }
    }

    fn is_leaving(&self, k: u32, cell: u32, mark: bool) -> bool
        requires { cell < cells_of self.now.levels }
        ensures { IsTrue result ↔ IsLeaving k mark ((checked_state self.now).cells cell) }
    {
        match self.state(cell) {
            CellState::Leaving {
                k: pass,
                marked,
                ..
            } => pass == k && marked == mark,
            _ => false,
        }
    }

    /// Whether a pass has a pin on a cell.
    fn is_pinned(&self, k: u32, cell: u32) -> bool
        ensures { IsTrue result ↔ ((k < self.now.passes) × ((cell < cells_of self.now.levels) × (0 < (checked_state self.now).pins k cell))) }
    {
        self.is_known(k, cell) && self.pins(k, cell) > 0
    }

    /// The pins of a pass on a cell.
    fn pins(&self, k: u32, cell: u32) -> u32
        requires k { k < self.now.passes }
        requires cell { cell < cells_of self.now.levels }
        ensures pins { result ≡ (checked_state self.now).pins k cell }
        ensures live { 0 < result → IsLive ((checked_state self.now).cells cell) }
    {
        pins_at(self.cells.as_slice(), cell as usize, k as usize)
    }

    /// Whether a pass has a pin on a cell, and the cell such a voxel with such a value.
    fn is_voxel(&self, k: u32, cell: u32, at: u32, value: u64) -> bool
        ensures { IsTrue result ↔ ((k < self.now.passes) × ((cell < cells_of self.now.levels) × (at < (checked_shape self.now).voxels cell) × (value ≤ (checked_shape self.now).greatest cell) × (0 < (checked_state self.now).pins k cell))) }
    {
        self.is_pinned(k, cell)
            && at < self.geometry.voxels(cell)
            && value <= self.geometry.kind(cell).greatest()
    }

    /// A number of a cell's array.
    fn value(&self, cell: u32, at: u32) -> u64
        requires cell { cell < cells_of self.now.levels }
        requires at { at < voxels_of self.now.levels cell }
        ensures { result ≡ (checked_state self.now).arrays cell at }
    {
        value_at(self.cells.as_slice(), cell as usize, at as usize)
    }

    /// Whether a cell isn't void and no cell is live or leaving in a slot in range.
    fn may_live(&self, cell: u32, slot: u32) -> bool
        requires { cell < cells_of self.now.levels }
        ensures { IsTrue result ↔ ((slot < self.now.slots) × ((checked_shape self.now).is_void cell ≡ false) × ((d : ℕ) → ¬ HasSlot ((checked_state self.now).cells d) slot)) }
    {
        !self.is_void(cell) && self.has_slot(slot) && self.owner(slot).is_none()
    }

    /// Whether a cell is void.
    fn is_void(&self, cell: u32) -> bool
        requires { cell < cells_of self.now.levels }
        ensures { result ≡ (checked_shape self.now).is_void cell }
    {
        is_void(self.cells.as_slice(), cell as usize)
    }

    /// Whether a slot is in range.
    fn has_slot(&self, slot: u32) -> bool
        ensures { IsTrue result ↔ (slot < self.now.slots) }
    {
        (slot as usize) < self.owners.len()
    }

    /// The cell that is live or leaving in a slot.
    fn owner(&self, slot: u32) -> Option<u32>
        requires { slot < self.now.slots }
        ensures none { IfNone result ((d : ℕ) → ¬ HasSlot ((checked_state self.now).cells d) slot) }
        ensures some { IfSome result (λ d. HasSlot ((checked_state self.now).cells d) slot) }
    {
        self.owners[slot as usize]
    }

    /// Whether a cell is live and nobody has a pin on it.
    fn may_close(&self, cell: u32) -> bool
        requires { cell < cells_of self.now.levels }
        ensures { IsTrue result ↔ (IsLive ((checked_state self.now).cells cell) × ((k : ℕ) → (checked_state self.now).pins k cell ≡ 0)) }
    {
        self.is_live(cell) && is_unpinned(self.cells.as_slice(), cell as usize)
    }
}

// What an event does.
impl Checker {
    /// Carries out an event.
    fn accept(&mut self, event: &Event)
        requires legal { MayHappen self.old event.now }
        requires room { (k n : ℕ) → event.now ≡ happening.Pin k n → slice_index (tracked_at self.old.cells n).pins k < 2 ^ 32 - 1 }
        ensures { Becomes self.old (next (checked_state self.old) event.now) self.new }
    {
        match *event {
            Event::Miss { .. } | Event::Read { .. } => {}
            Event::Pin { k, cell } => self.set_pins(k, cell, self.pins(k, cell) + 1),
            Event::Unpin { k, cell } => self.set_pins(k, cell, self.pins(k, cell) - 1),
            Event::Mark { cell, .. } => self.set_state(cell, self.state(cell).marked()),
            Event::Write {
                cell,
                at,
                value,
                ..
            } => self.set_value(cell, at, value),
            Event::Claim { k, cell } => self.set_idle(cell, CellState::Loading { k }),
            Event::Drop { cell, .. } => self.set_idle(cell, CellState::Absent),
            Event::Live { k, cell, slot } => self.seat(k, cell, slot),
            Event::Close { k, cell } => self.set_state(cell, self.state(cell).leaving(k)),
            Event::Gone { cell, .. } => self.leave(cell),
            Event::Back { cell, .. } => self.set_state(cell, self.state(cell).returned()),
        }
    }

    /// Puts a cell into a state with the same slot.
    fn set_state(&mut self, cell: u32, state: CellState)
        requires cell { cell < cells_of self.old.levels }
        requires slot { (slot : ℕ) → HasSlot state slot ↔ HasSlot ((checked_state self.old).cells cell) slot }
        requires pinned { (k : ℕ) → 0 < (checked_state self.old).pins k cell → IsLive state }
        ensures { Becomes self.old (with_cell (checked_state self.old) cell state) self.new }
    {
        set_state(&mut self.cells, cell as usize, state);
    }

    /// Puts a cell that isn't live, and so has no pins, into a state with the same slot.
    fn set_idle(&mut self, cell: u32, state: CellState)
        requires cell { cell < cells_of self.old.levels }
        requires slot { (slot : ℕ) → HasSlot state slot ↔ HasSlot ((checked_state self.old).cells cell) slot }
        requires idle { ¬ IsLive ((checked_state self.old).cells cell) }
        ensures { Becomes self.old (with_cell (checked_state self.old) cell state) self.new }
    {
        let _idle = self.state(cell); // read for what its contract tells the proof
        self.set_state(cell, state);
    }

    /// Gives a pass so many pins on a cell.
    fn set_pins(&mut self, k: u32, cell: u32, pins: u32)
        requires k { k < self.old.passes }
        requires cell { cell < cells_of self.old.levels }
        requires live { IsLive ((checked_state self.old).cells cell) }
        ensures { Becomes self.old (with_pins (checked_state self.old) k cell pins) self.new }
    {
        set_pins(&mut self.cells, cell as usize, k as usize, pins);
    }

    /// Writes a voxel.
    fn set_value(&mut self, cell: u32, at: u32, value: u64)
        requires cell { cell < cells_of self.old.levels }
        requires at { at < voxels_of self.old.levels cell }
        ensures { Becomes self.old (with_voxel (checked_state self.old) cell at value) self.new }
    {
        set_value(&mut self.cells, cell as usize, at as usize, value);
    }
}

// Slots that are taken and left.
impl Checker {
    /// Makes a loading cell live in a free slot, with one pin: nobody had a pin on it.
    fn seat(&mut self, k: u32, cell: u32, slot: u32)
        requires { MayHappen self.old (happening.Live k cell slot) }
        ensures { Becomes self.old (next (checked_state self.old) (happening.Live k cell slot)) self.new }
    {
        set_live(&mut self.cells, cell as usize, slot, k as usize, 1);
        self.owners[slot as usize] = Some(cell);
    }

    /// Takes a leaving cell out of its slot.
    fn leave(&mut self, cell: u32)
        requires cell { cell < cells_of self.old.levels }
        requires leaving { (k : ℕ) × ((mark : Bool) × IsLeaving k mark ((checked_state self.old).cells cell)) }
        ensures { Becomes self.old (with_cell (checked_state self.old) cell cells.Absent) self.new }
    {
        match self.state(cell) {
            CellState::Leaving { slot, .. } => self.vacate(cell, slot),
            _ => unreachable!(),
        }
    }

    /// Takes a cell without pins out of its slot.
    fn vacate(&mut self, cell: u32, slot: u32)
        requires cell { cell < cells_of self.old.levels }
        requires slot { HasSlot ((checked_state self.old).cells cell) slot }
        requires unpinned { (k : ℕ) → (checked_state self.old).pins k cell ≡ 0 }
        ensures { Becomes self.old (with_cell (checked_state self.old) cell cells.Absent) self.new }
    {
        set_state(&mut self.cells, cell as usize, CellState::Absent);
        self.owners[slot as usize] = None;
    }
}

/// A cell for each array, absent and without pins.
fn tracked(
    alloc: Global,
    arrays: Vec<Vec<u64>>,
    void: Vec<bool>,
    passes: u32,
) -> Result<Vec<TrackedCell>, Memory>
    requires { length void.items ≡ length arrays.items }
    ensures count { IfOk result (λ cells. length cells.items ≡ length arrays.items) }
    ensures each { IfOk result (λ cells. (n : ℕ) → n < length arrays.items → tracked_at cells.items n ≡ fresh (slice_index_or void.items n false) passes (array_of arrays.items n)) }
{
    let mut cells = Vec::with_capacity(alloc, arrays.len())?;
    for array in arrays {
        cells.push(TrackedCell {
            state: CellState::Absent,
            void: void[cells.len()],
            pins: vec![in alloc; 0; passes as usize]?,
            array,
        })?;
    }
    Ok(cells)
}
