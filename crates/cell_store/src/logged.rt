// A line of the log of a store in memory.

/// A get or a put that a store in memory answered.
#[derive(Debug, Drop)]
pub struct Logged {
    /// Whether it was a put; else it was a get.
    pub put: bool,
    pub key: String,
    /// Whether the answer was `Found`, `Missing`, `TooLong` or `Done`.
    pub ok: bool,
}
