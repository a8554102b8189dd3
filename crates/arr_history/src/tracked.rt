//! What a checker keeps of a cell.
ghost use Rattle.std.specs.Prelude.{◌≡◌, ◌↔◌, ℕ, ◌<◌, IsTrue, EachIndex, length, slice_index, slice_set};
ghost use Rattle.arr_history.specs.Tracked.{tracked_at, in_state, with_pins_of, lived, with_value};

use crate::cell_state::CellState;
use std::marker::Model;

/// A cell: its state, whether it is void, the pins of each pass, and its array.
#[derive(Drop)]
pub struct TrackedCell {
    pub state: CellState,
    pub void: bool,
    pub pins: Vec<u32>,
    pub array: Vec<u64>,
}

impl Model for TrackedCell {
    ghost use Rattle.arr_history.specs.Tracked.{Tracked};

    ghost Value = { Tracked };

    ghost view = { λ t. record { state = t.state; void = t.void; pins = t.pins.items; array = t.array.items } };
}

/// The state of a cell.
pub fn state_at(cells: &[TrackedCell], cell: usize) -> CellState
    requires { cell < length cells.now }
    ensures { result ≡ (tracked_at cells.now cell).state }
{
    let tracked = &cells[cell];
    tracked.state
}

/// Whether a cell is void.
pub fn is_void(cells: &[TrackedCell], cell: usize) -> bool
    requires { cell < length cells.now }
    ensures { result ≡ (tracked_at cells.now cell).void }
{
    let tracked = &cells[cell];
    tracked.void
}

/// The pins of a pass on a cell.
pub fn pins_at(cells: &[TrackedCell], cell: usize, pass: usize) -> u32
    requires cell { cell < length cells.now }
    requires pass { pass < length (tracked_at cells.now cell).pins }
    ensures { result ≡ slice_index (tracked_at cells.now cell).pins pass }
{
    let tracked = &cells[cell];
    tracked.pins[pass]
}

/// Whether nobody has a pin on a cell.
pub fn is_unpinned(cells: &[TrackedCell], cell: usize) -> bool
    requires { cell < length cells.now }
    ensures { IsTrue result ↔ EachIndex (tracked_at cells.now cell).pins (λ k. slice_index (tracked_at cells.now cell).pins k ≡ 0) }
{
    let tracked = &cells[cell];
    tracked.pins.iter().all(|pins| *pins == 0)
}

/// A number of a cell's array.
pub fn value_at(cells: &[TrackedCell], cell: usize, at: usize) -> u64
    requires cell { cell < length cells.now }
    requires at { at < length (tracked_at cells.now cell).array }
    ensures { result ≡ slice_index (tracked_at cells.now cell).array at }
{
    let tracked = &cells[cell];
    tracked.array[at]
}

/// Puts a cell into a state.
pub fn set_state(cells: &mut Vec<TrackedCell>, cell: usize, state: CellState)
    requires { cell < length cells.old.items }
    ensures { cells.new.items ≡ slice_set cells.old.items cell (in_state (tracked_at cells.old.items cell) state) }
{
    let tracked = &mut cells[cell];
    tracked.state = state;
}

/// Gives a pass so many pins on a cell.
pub fn set_pins(cells: &mut Vec<TrackedCell>, cell: usize, pass: usize, pins: u32)
    requires cell { cell < length cells.old.items }
    requires pass { pass < length (tracked_at cells.old.items cell).pins }
    ensures { cells.new.items ≡ slice_set cells.old.items cell (with_pins_of (tracked_at cells.old.items cell) pass pins) }
{
    let tracked = &mut cells[cell];
    tracked.pins[pass] = pins;
}

/// Writes a number of a cell's array.
pub fn set_value(cells: &mut Vec<TrackedCell>, cell: usize, at: usize, value: u64)
    requires cell { cell < length cells.old.items }
    requires at { at < length (tracked_at cells.old.items cell).array }
    ensures { cells.new.items ≡ slice_set cells.old.items cell (with_value (tracked_at cells.old.items cell) at value) }
{
    let tracked = &mut cells[cell];
    tracked.array[at] = value;
}

/// Makes a cell live in a slot, with so many pins of a pass.
pub fn set_live(cells: &mut Vec<TrackedCell>, cell: usize, slot: u32, pass: usize, pins: u32)
    requires cell { cell < length cells.old.items }
    requires pass { pass < length (tracked_at cells.old.items cell).pins }
    ensures { cells.new.items ≡ slice_set cells.old.items cell (lived (tracked_at cells.old.items cell) slot pass pins) }
{
    let tracked = &mut cells[cell];
    tracked.state = CellState::Live {
        slot,
        marked: false,
    };
    tracked.pins[pass] = pins;
}
