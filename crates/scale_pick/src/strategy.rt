// How a frame treats a cell that isn't there.

/// How a frame treats a cell that isn't there.
#[derive(Clone, Copy, Debug, PartialEq, Eq)]
pub enum Strategy {
    /// It loads the cell.
    Blocking,
    /// It loads so many cells, and then does as `Volatile`.
    Budgeted(u32),
    /// It asks for the cell, and goes on without it.
    Volatile,
    /// It goes on without the cell.
    DontLoad,
}
