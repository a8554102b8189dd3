//! Laws of the words on what stores stand for.
ghost use Rattle.stood_arrays.specs.Counts.{TotalsAreCounts, RisesAreCounted};
ghost use Rattle.stood_arrays.specs.Entries.{LogsAddUp};
ghost use Rattle.stood_arrays.specs.Moves.{FetchesMove, RefusedFetchesMove, SavesMove, RefusedSavesMove};
ghost use Rattle.stood_arrays.specs.Opening.{OpeningsStand};

/// A sum of ones is a count.
pub fn totals_are_counts()
    ensures { TotalsAreCounts }
{}

/// The count of a rise is 1 just where the faults rose.
pub fn rises_are_counted()
    ensures { RisesAreCounted }
{}

/// The gets and puts of a log that grew are those of both parts.
pub fn logs_add_up()
    ensures { LogsAddUp }
{}

/// Where a history begins each store stands for the arrays of its cells that are not void.
pub fn openings_stand()
    ensures { OpeningsStand }
{}

/// A fetch changes nothing that its store holds, and logs no put; where it gave values it logs a get of the edited key.
pub fn fetches_move()
    ensures done { FetchesMove }
    ensures refused { RefusedFetchesMove }
{}

/// A save changes one key at most, and logs no get; where it was done it logs a put of the edited key.
pub fn saves_move()
    ensures done { SavesMove }
    ensures refused { RefusedSavesMove }
{}
