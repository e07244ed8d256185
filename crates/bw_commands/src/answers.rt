//! The answers that speak of all groups, one file for each.
mod cert;
mod line;
mod paths;
mod period;
mod plan;
mod report;
mod total;

pub(crate) use cert::put_certified;
pub(crate) use period::serve_period;
pub(crate) use plan::put_plan;
pub(crate) use report::put_report;
pub(crate) use total::put_total;
