//! Laws that join several layers, and laws of rules in an owner's words: contracts of functions
//! with an empty body.
#![tactic(auto)]

mod bursts;
mod cert;
mod counters;
mod ids;
mod needed;
mod parts;
mod paths;
mod readings;
mod transcripts;
mod weights;

pub use bursts::scripts_keep_bursts_within;
pub use cert::cert_is_accepted;
pub use counters::new_groups_count_nothing;
pub use ids::ids_are_given_once;
pub use needed::{
    demands_are_needed, greatest_total_is_needed, last_marks_are_needed, lengths_are_needed,
    levels_are_needed, limits_are_needed, limits_at_flags_are_not_needed, next_marks_are_needed,
    sums_are_needed,
};
pub use parts::{amounts_keep_shares, parts_are_within, parts_fill_the_limit};
pub use paths::{line_numbers, path_numbers};
pub use readings::{
    asked_covers_use, everything_has_a_reason, hunger_is_lack, leaf_asks_for_its_waiting,
    slices_cover_time, tasks_bound_use,
};
pub use transcripts::{reading_follows_the_transcript, there_is_one_transcript};
pub use weights::weights_give_limits;
