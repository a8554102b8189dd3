// What a run by threads leaves.
use pin_rule::Trail;
use run_report::Report;
use team_run::RunErr;

/// The report of a run by threads, or why there was none; the stores, in their order; and the trail of the cells that were shut, where
/// there was a run.
#[derive(Drop)]
pub struct ThreadRan<S> {
    pub report: Result<Report, RunErr>,
    pub stores: Vec<S>,
    pub trail: Option<Trail<S>>,
}
