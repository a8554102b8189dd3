// Each law, at the views and entries of a small table.
use crate::{
    all_joined_is_alone, all_joined_is_whole, has_roster_at_opening, join_keeps_roster,
    joins_take_in, longest_seen_is_whole, phases_stand, phases_weigh, spent_view_keeps_roster,
    split_keeps_roster, step_keeps_roster, whole_weighs, works_compose,
};

#[test]
fn each_law_serves_a_concrete_view() {
    has_roster_at_opening::<u64, u8, u32>();
    step_keeps_roster::<u64, u8, u32>();
    split_keeps_roster::<u64, u8, u32>();
    spent_view_keeps_roster::<u64, u8, u32>();
    join_keeps_roster::<u64, u8, u32>();
    longest_seen_is_whole::<u64, u8, u32>();
    all_joined_is_whole::<u64, u8, u32>();
    all_joined_is_alone::<u64, u8, u32>();
    whole_weighs::<u64, u8, u32>();
    works_compose::<u64, u8, u32>();
    joins_take_in::<u64, u8, u32>();
    phases_stand::<u64, u8, u32>();
    phases_weigh::<u8>();
}
