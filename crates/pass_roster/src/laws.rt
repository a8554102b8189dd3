// The laws of a roster. `D` is the view of a pass, `E` an entry and `X` a pass that ended.
ghost use Rattle.pass_roster.specs.Laws.{HasRosterAtOpening, StepKeepsRoster, SplitKeepsRoster, SpentViewKeepsRoster, JoinKeepsRoster, LongestSeenIsWhole, AllJoinedIsWhole, AllJoinedIsAlone, WholeWeighs, WorksCompose, JoinsTakeIn, PhasesStand, PhasesWeigh};

/// A first pass, that has seen and made nothing, has a roster with the empty history.
pub fn has_roster_at_opening<D, E, X>()
    ensures { HasRosterAtOpening D E X }
{}

/// A step of one pass, which adds entries of its own or none, keeps the roster.
pub fn step_keeps_roster<D, E, X>()
    ensures { StepKeepsRoster D E X }
{}

/// A split by the first pass keeps the roster, while fewer than 64 passes are out.
pub fn split_keeps_roster<D, E, X>()
    ensures { SplitKeepsRoster D E X }
{}

/// A view beside the others that is no pass keeps the roster.
pub fn spent_view_keeps_roster<D, E, X>()
    ensures { SpentViewKeepsRoster D E X }
{}

/// A join into the first pass keeps the roster.
pub fn join_keeps_roster<D, E, X>()
    ensures { JoinKeepsRoster D E X }
{}

/// The longest `seen` of the passes that are out is the whole history.
pub fn longest_seen_is_whole<D, E, X>()
    ensures { LongestSeenIsWhole D E X }
{}

/// Once all others were joined into the first pass, it has seen the whole history, in which each
/// ended pass has just its own entries.
pub fn all_joined_is_whole<D, E, X>()
    ensures { AllJoinedIsWhole D E X }
{}

/// The first pass knows by two numbers whether all others were joined.
pub fn all_joined_is_alone<D, E, X>()
    ensures { AllJoinedIsAlone D E X }
{}

/// A whole history weighs what the entries of its passes weigh.
pub fn whole_weighs<D, E, X>()
    ensures { WholeWeighs D E X }
{}

/// A pass at work goes on from where it came.
pub fn works_compose<D, E, X>()
    ensures { WorksCompose D E X }
{}

/// A first pass that joins the next of the passes that it split has taken in one more.
pub fn joins_take_in<D, E, X>()
    ensures { JoinsTakeIn D E X }
{}

/// The history of a first pass that carried out phases, all of it seen, is by phases.
pub fn phases_stand<D, E, X>()
    ensures { PhasesStand D E X }
{}

/// A history by phases weighs what the entries of its passes weigh.
pub fn phases_weigh<E>()
    ensures { PhasesWeigh E }
{}
