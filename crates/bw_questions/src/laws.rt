//! Laws of the plan that an operator relies on: what a change of one split, of the host, of one
//! group or of the tree does to the others.
//!
//! Each law is the contract of a function that does nothing. The splits are the best splits of
//! bw_model, and the plans are those of any two instances.
mod asked;
mod cut;
mod fairness;
mod host;
mod idle;
mod inside;
mod one_split;
mod order;
mod outer;
mod room;
mod weight;

pub use asked::{
    demand_only_cuts, demands_inside_only_cut, greater_demands_serve_no_more,
    unmet_demand_changes_nothing, unused_demand_changes_nothing,
};
pub use cut::{limit_gives_or_lets_go, limit_only_cuts, no_more_below};
pub use fairness::{fair_within_half_a_slice, weight_is_a_floor};
pub use host::{capacity_takes_nothing, raised_limits_serve_no_less};
pub use idle::idle_group_changes_nothing;
pub use inside::inside_stays_inside;
pub use one_split::{
    lighter_has_no_more, more_takes_from_nobody, raised_child_alone_gains, rest_stays_split,
};
pub use order::row_order_changes_nothing;
pub use outer::outer_group_changes_nothing;
pub use room::{more_room_takes_nothing, others_demands_give_nothing, others_room_gives_nothing};
pub use weight::{others_weights_give_nothing, raised_weight_alone_gains};
