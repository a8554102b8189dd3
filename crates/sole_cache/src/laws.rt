//! Laws of runs.
ghost use Rattle.sole_cache.specs.Laws.{MovesCompose, NothingMoves, RunsCompose};

/// Runs that lead on from one another are one run.
pub fn runs_compose()
    ensures { RunsCompose }
{}

/// Events that lead on from one another, of the run part and of the shutting part alike, lead from the first cache to the
/// last; and no events lead from a cache to itself.
pub fn moves_compose()
    ensures on { MovesCompose }
    ensures none { NothingMoves }
{}
