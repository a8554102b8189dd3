// Who is to leave: a hint, behind a turn.
ghost use Rattle.std.specs.Prelude.{◌≡◌, ℕ, ◌<◌, ◌≤◌, None, IfOk, slice_index_or, vec_len};
ghost use Rattle.std.specs.Option.{is_some};
ghost use Rattle.recency.specs.Order.{is_listed};

use recency::{Memory, Recency};
use std::alloc::Global;
use turn_cell::Seq;

/// A slot, and the cell that was last said to be in it.
#[derive(Clone, Copy, Drop)]
pub struct Place {
    pub slot: u32,
    pub cell: u32,
}

/// What can be asked of the hint.
#[derive(Drop)]
pub enum Ask {
    /// A cell is live in a slot.
    Live(Place),
    /// It is in use, and leaves later than those that aren't.
    Used(Place),
    /// Which slot leaves next? It is out of the lists then.
    Next,
}

/// The slots of live cells in the order in which they are to leave, as far as passes have said. A call that doesn't fit the lists does nothing.
#[derive(Drop)]
pub struct Hint {
    order: Recency,
    cells: Vec<Option<u32>>,
    unpinned: Vec<bool>,
    ghost sized: { (vec_len cells ≡ order.slots) × (vec_len unpinned ≡ order.slots) },
    ghost listed: { (slot : ℕ) → is_listed order slot ≡ is_some (slice_index_or cells.items slot None) },
}

impl Hint {
    pub fn new(alloc: Global, slots: u32) -> Result<Hint, Memory>
        requires some { 2 ≤ slots }
        requires few { slots ≤ 4096 }
    {
        let order = Recency::new(alloc, slots)?;
        let cells = vec![in alloc; None; slots as usize]?;
        let unpinned = vec![in alloc; false; slots as usize]?;
        Ok(Hint {
            order,
            cells,
            unpinned,
        })
    }

    fn enter(&mut self, place: Place) {
        let slot = place.slot as usize;
        if slot < self.cells.len() && self.cells[slot].is_none() {
            self.order.admit(place.slot);
            self.cells[slot] = Some(place.cell);
        }
    }

    fn touch(&mut self, place: Place) {
        let slot = place.slot as usize;
        if slot < self.cells.len() && self.cells[slot].is_some() {
            self.order.touch(place.slot);
        }
    }

    fn next(&mut self) -> Option<Place> {
        let slot = self.order.victim(self.unpinned.as_slice())?;
        let cell = self.cells[slot as usize];
        self.order.leave(slot);
        self.cells[slot as usize] = None;
        Some(Place { slot, cell: cell? })
    }
}

impl Seq for Hint {
    type Call = Ask;

    type Reply = Option<Place>;

    ghost steps = { λ x by call reply y. Unit {0} };

    fn step(&mut self, by: u32, call: Ask) -> Option<Place> {
        let _ = by;
        match call {
            Ask::Live(place) => self.enter(place),
            Ask::Used(place) => {
                self.enter(place);
                self.touch(place);
            }
            Ask::Next => return self.next(),
        }
        None
    }
}
