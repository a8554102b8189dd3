//! What stores stand for, and what a history did to them: the words that each cache says this in.
#![tactic(auto)]

mod laws;

pub use laws::{
    fetches_move, logs_add_up, openings_stand, rises_are_counted, saves_move, totals_are_counts,
};
