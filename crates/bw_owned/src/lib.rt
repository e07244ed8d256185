//! Numbers that owners set of groups, and the weights and limits that they make.
//!
//! A request of a container, shares of a container and two settings of a unit make weights. A limit
//! of a container, CPUs of a container and a quota of a unit make quotas. The formulas are those of
//! kubelet, of container runtimes, of docker and of systemd.
//!
//! Beside them are the rules of a loop that holds a plan: what limits allow in a time, what a round
//! asks for each leaf, what was not served, which numbers go back and forth, when limits do harm,
//! which groups are let go then, and what the rest of the host is given beside a plan.
#![tactic(auto)]

mod allowed;
mod formula;
mod harm;
mod judged;
mod laws;
mod least;
mod limit;
mod logarithm;
mod pod;
mod release;
mod request;
mod rest;
mod round;
mod shares;
mod swings;
mod weight;

pub use allowed::allowed_time;
pub use formula::{LimitFormula, WeightFormula};
pub use harm::{MOST_SLICES, ServedSlices, lost_slices};
pub use judged::{JUDGED_ROUNDS, JudgedSlices, judge};
pub use laws::{
    back_has_turned, harm_is_harm, kind_numbers, least_is_one, limit_numbers, limits_are_in_range,
    limits_grow, lost_is_harm, one_swings, only_the_hungry_lack, pod_amount_is_one,
    requests_are_written, rest_has_its_part, round_asks_as_read, share_numbers, times_are_allowed,
    weights_are_in_range, weights_at_the_ends, weights_grow,
};
pub use least::least_number;
pub use limit::{OwnedLimit, owned_limit};
pub use pod::{greatest_part, pod_amount};
pub use release::{LetGoReason, let_go};
pub use request::{number_for_request, shares_of_request};
pub use rest::{MOST_TOLD, RestShare, rest_share};
pub use round::write_round;
pub use shares::{linear_weight, logarithmic_weight};
pub use swings::count_swings;
pub use weight::owned_weight;
