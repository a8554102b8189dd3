//! The bookkeeping of passes over one history: their numbers, what each has seen and made, and
//! which of them ended. Nothing here runs. Each function's contract is a law of the definitions in
//! `specs/`, for views, entries and ended passes of any type.
#![tactic(auto)]

mod laws;

pub use laws::{
    all_joined_is_alone, all_joined_is_whole, has_roster_at_opening, join_keeps_roster,
    joins_take_in, longest_seen_is_whole, phases_stand, phases_weigh, spent_view_keeps_roster,
    split_keeps_roster, step_keeps_roster, whole_weighs, works_compose,
};

#[cfg(test)]
mod tests;
