//! The planner as a library for C and for languages that call C. A call has a file of its name, or
//! stands in the file of its kind.
#![tactic(auto)]

mod allowed_call;
mod check_call;
mod check_text_call;
mod fault;
mod fit;
mod goal_calls;
mod greatest_part_call;
mod held_calls;
mod host_calls;
mod least_owned_call;
mod let_go_call;
mod name_call;
mod owned_calls;
mod period_calls;
mod plan_calls;
mod pod_amount_call;
mod question_calls;
mod reading_calls;
mod refused_row_call;
mod rest_call;
mod room;
mod round_calls;
mod script_call;
mod settle_call;
mod shares_call;
mod told;
mod version_call;
