// What became of a serving.
use cell_file::AcquireErr;

/// What became of a serving.
#[derive(Clone, Copy, Debug, PartialEq, Eq)]
pub enum Served {
    /// The queue had no request.
    Idle,
    /// The cell was there already.
    Held,
    /// The cell was loaded.
    Loaded,
    /// The cell could not be acquired.
    Refused(AcquireErr),
}
