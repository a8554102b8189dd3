// What a run leaves.
use run_report::Report;
use thiserror::Error;

/// Why there was no run.
#[derive(Clone, Copy, Debug, PartialEq, Eq, Error)]
pub enum RunErr {
    /// The slots are outside these limits.
    #[error("{found} slots, outside {low} to {high}")]
    Slots { found: u64, low: u64, high: u64 },
    #[error("out of memory")]
    Memory,
}

/// What a run leaves: its report, or why there was none, and the stores in their order.
#[derive(Drop)]
pub struct Ran<S> {
    pub report: Result<Report, RunErr>,
    pub stores: Vec<S>,
}
