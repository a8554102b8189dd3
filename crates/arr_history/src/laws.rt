//! Laws of histories.
ghost use Rattle.arr_history.specs.Laws.{KeptLaws, HeldFromOpening, PartsAreLegal, PartsLeadOn, WorkGoesOn, Composes, ClaimsComeFirst, ClaimsStandRound};
ghost use Rattle.arr_history.specs.Tally.{TalliesGrow, PartsAddUp, PassesAddUp, TalliesFit};

/// In a legal history a pinned cell is live, and stays in its slot while a pin is left on it; two
/// cells never share a slot; an array changes by writes alone; a cell is put only after it was
/// marked; and a pass loads a cell, or turns it out, just where it began this and hasn't ended it.
pub fn histories_keep_laws()
    ensures { KeptLaws }
{}

/// After a legal history from the opening slots are in range, a told cell that is live, leaving or
/// was marked isn't void, a cell with a mark was marked, and a cell on which each pass has ended
/// what it began is absent or live.
pub fn histories_hold_from_the_opening()
    ensures { HeldFromOpening }
{}

/// A legal history splits: its first part is legal, and its second part from where the first led.
pub fn histories_split()
    ensures legal { PartsAreLegal }
    ensures reached { PartsLeadOn }
    ensures work { WorkGoesOn }
{}

/// Histories that lead on from one another are one history.
pub fn histories_compose()
    ensures { Composes }
{}

/// A claim may be told before the leaving that makes room for it, and round one that failed.
pub fn claims_come_first()
    ensures first { ClaimsComeFirst }
    ensures round { ClaimsStandRound }
{}

/// The tally of a run grows by the counts of the events that follow.
pub fn tallies_grow()
    ensures { TalliesGrow }
{}

/// The tally of a history is that of its parts together, or of its passes, each cut to 64 bits.
pub fn tallies_add_up()
    ensures parts { PartsAddUp }
    ensures passes { PassesAddUp }
    ensures fit { TalliesFit }
{}
