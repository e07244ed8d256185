//! Questions about the plan of an instance: the least that a group gets whatever the others ask
//! for, the least value of a setting that gives a group so much, weights that meet several goals at
//! once, limits of others with which such weights exist, why each group gets what it gets, and
//! which limits hold the plan on a host. The answers stand on laws of what a change does to a plan.
#![tactic(auto)]

mod enough;
mod from_root;
mod guaranteed;
mod held;
pub mod laws;
mod least;
mod other_limits;
mod why;

pub use enough::gets;
pub use from_root::{
    Measure, Tuned, goal_sums, goals_come_to, halves_are_had, halves_kept, level_numbers,
    there_is_one_from_root, tune,
};
pub use guaranteed::{GuaranteeFault, guarantee};
pub use held::{
    Held, LeafTimes, Reading, RoundTimes, Served, asked_is_admitted_as_planned, calm_holds_nobody,
    can_be_written, exact_readings_are_true, guarantee_is_admitted, hold, leaf_reading,
    limits_admit_the_plan, none_above_its_limit, none_below_its_guarantee,
    none_served_above_a_limit, none_served_below_its_guarantee, nothing_else_stays,
    plan_is_reached, plan_stays, reading_of, serve, wants_give_the_plan, weight_of_limit,
    written_quota,
};
pub use least::{least_limit, least_processors, least_weight};
pub use other_limits::{Limited, limit_others, limits_are_one};
pub use why::{
    Reason, blamed_gains_or_is_clear, blamed_has_its_limit, only_the_blamed_limit_helps, reasons,
    there_is_one_reason,
};
