// How many servings came to what.

/// How many cells were loaded, how many were there already, and how many could not be acquired.
#[derive(Clone, Copy, Debug, PartialEq, Eq)]
pub struct Fetched {
    pub loaded: u32,
    pub held: u32,
    pub refused: u32,
}
