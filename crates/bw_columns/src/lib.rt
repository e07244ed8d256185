//! Columns of numbers, as callers of another language have them: the rows of a tree, a certificate,
//! the instance that they stand for, and the groups of a hierarchy.
//!
//! Over them are the planner's answers: plan, certificate, verdict, limiting groups, figures,
//! reasons, limits of a round, what a scheduler is given for one, weights for goals of rows, goals
//! beside those of others, limits of others, questions about a group, refused row. And a booked
//! period, and conversions of what operators write to slices.
#![tactic(auto)]

mod asked_group;
mod asked_instance;
mod booked;
mod certificate;
mod certified;
mod checked;
mod claim;
mod columns;
mod demand;
mod figured;
mod first_row;
mod from_root;
mod front;
mod goals;
mod groups;
mod held;
mod laws;
mod limited;
mod one_period;
mod other_limits;
mod period_limits;
mod periods;
mod planned;
mod planned_hosts;
mod question;
mod reason_columns;
mod reasoned;
mod refusal;
mod served;
mod set_rows;
mod sum_columns;
mod tally;
mod walk;
mod written;

pub use asked_instance::{Host, Request, instance_of, instance_where};
pub use booked::{BookedColumns, CounterColumns, booked_of};
pub use certificate::{CertificateColumns, certificate_columns, flag_numbers, write_certificate};
pub use certified::{CertifiedColumns, certified_plan_of};
pub use checked::{verdict_in, verdict_of};
pub use claim::{Claim, flags_of};
pub use columns::{Columns, NO_LIMIT, NO_PARENT, limit_number};
pub use demand::demand_slices;
pub use figured::{FigureColumns, figures_of};
pub use first_row::refused_row;
pub use from_root::{FromRootColumns, NO_GOAL, from_root_of, measure_of};
pub use front::write_front;
pub use goals::{GoalColumns, goals_of};
pub use groups::{GroupColumns, group_columns};
pub use held::{HeldColumns, held_of};
pub use laws::{column_numbers, limits_of_periods};
pub use limited::limiting_of;
pub use other_limits::{OtherLimitColumns, other_limits_of};
pub use period_limits::limit_of_period;
pub use periods::{PeriodColumns, periods_of};
pub use planned::plan_of;
pub use planned_hosts::planned_host;
pub use question::{Question, answer_of};
pub use reasoned::{ReasonColumns, reasons_of};
pub use refusal::Refusal;
pub use served::{ServedColumns, served_of};
pub use set_rows::SettingColumns;
pub use sum_columns::SumColumns;
pub use written::write_groups;
