//! The settings of the groups, and their rows before a demand and a carry.
ghost use Rattle.std.specs.Prelude.{◌≡◌, ◌<◌, ◌≤◌, ◌+◌, length, IfOk, IfErr, OnOk, IfSome};
ghost use Rattle.std.specs.Prelude.{slice_index, unwrap_or, ◌++◌, ◌∷◌, []};
ghost use Rattle.bw_model.specs.declared.limits.TheConstants.{MAX_QUOTA_US};
ghost use Rattle.bw_files.specs.Faults.{file_fault_number};
ghost use Rattle.bw_columns.specs.Asked.{parent_in, Answers};
ghost use Rattle.bw_columns.specs.Numbers.{number_of_refusal};
ghost use Rattle.bw_columns.specs.Periods.{settings_of, quota_slices, most_slices, set_rows};
ghost use Rattle.bw_columns.specs.Periods.{mosts_of, setting_number, settings_number};

use crate::columns::parent_of;
use crate::period_limits::quota_of;
use crate::refusal::Refusal;
use bw_files::{FileFault, check_burst, check_period};
use bw_model::{HostShape, Row};
use std::alloc::{AllocError, Global};

/// Columns of the groups' settings, one entry in each for each group.
#[derive(Clone, Copy)]
pub struct SettingColumns<'a> {
    /// The row of each parent, the greatest number for none.
    pub parents: &'a [u32],
    /// Weights of 1 to 10,000.
    pub weights: &'a [u64],
    /// Quotas in microseconds of each own period, the greatest number for none.
    pub quotas: &'a [u64],
    /// Own periods in microseconds.
    pub periods: &'a [u64],
    /// Bursts in microseconds of each own period.
    pub bursts: &'a [u64],
}

impl<'a> SettingColumns<'a> {
    /// The columns, in the order of a call.
    pub fn new(
        parents: &'a [u32],
        weights: &'a [u64],
        quotas: &'a [u64],
        periods: &'a [u64],
        bursts: &'a [u64],
    ) -> SettingColumns<'a>
        ensures { result ≡ record {
          parents = parents.entry;
          weights = weights.entry;
          quotas = quotas.entry;
          periods = periods.entry;
          bursts = bursts.entry;
        } }
    {
        SettingColumns {
            parents,
            weights,
            quotas,
            periods,
            bursts,
        }
    }
}

// Slices that a group may use in one period.
#[derive(Clone, Copy)]
struct Allowance {
    // its quota, none for no limit
    quota: Option<u64>,
    // its quota and its burst
    most: u64,
}

/// Rows of the groups before a demand and a carry, one entry in each list for each group.
#[derive(Drop)]
pub struct SetRows {
    /// Rows without a demand. Their limits are the quotas.
    pub rows: Vec<Row>,
    /// The most slices of one period: the quota and the burst.
    pub mosts: Vec<u64>,
}

impl SetRows {
    fn push(&mut self, row: Row, most: u64) -> Result<(), AllocError>
        ensures rows { OnOk result (self.new.rows.items ≡ self.old.rows.items ++ row ∷ []) }
        ensures mosts { OnOk result (self.new.mosts.items ≡ self.old.mosts.items ++ most ∷ []) }
    {
        self.rows.push(row)?;
        self.mosts.push(most)?;
        Ok(())
    }
}

// A quota and a burst, in slices.
fn most(quota: Option<u64>, burst: u64) -> u64
    requires quota { IfSome quota (λ n. n ≤ MAX_QUOTA_US) }
    requires burst { burst ≤ MAX_QUOTA_US }
    ensures { result ≡ unwrap_or quota 0 + burst }
{
    match quota {
        None => burst,
        Some(quota) => quota + burst,
    }
}

// Allowance of a group by its settings.
fn allowance_of(
    shape: HostShape,
    quota_us: u64,
    period_us: u64,
    burst_us: u64,
) -> Result<Allowance, FileFault>
    ensures quota { IfOk result (λ a. a.quota ≡ quota_slices shape quota_us period_us) }
    ensures most { IfOk result (λ a. a.most ≡ most_slices shape quota_us period_us burst_us) }
    ensures none { OnOk result (setting_number shape quota_us period_us burst_us ≡ 0) }
    ensures err { IfErr result
        (λ e. setting_number shape quota_us period_us burst_us ≡ file_fault_number e) }
{
    let quota = quota_of(quota_us)?;
    let own_period_us = check_period(period_us)?;
    let burst_us = check_burst(burst_us)?;
    let slices = quota.slices(shape, own_period_us);
    let burst = shape.slices(burst_us, own_period_us);
    Ok(Allowance {
        quota: slices,
        most: most(slices, burst),
    })
}

// The row of group g without a demand.
fn set_row(settings: &SettingColumns<'_>, g: usize, quota: Option<u64>) -> Row
    requires parents { g < length settings.now.parents.now }
    requires weights { g < length settings.now.weights.now }
    ensures { result ≡ record {
      parent = parent_in (slice_index settings.now.parents.now g);
      weight = slice_index settings.now.weights.now g;
      limit = quota;
      demand = 0;
    } }
{
    Row {
        parent: parent_of(settings.parents[g]),
        weight: settings.weights[g],
        limit: quota,
        demand: 0,
    }
}

/// The rows of the groups before a demand and a carry.
///
/// # Errors
/// The first fault of a group's quota, own period and burst, as their files have them.
pub(crate) fn set_rows(
    alloc: Global,
    shape: HostShape,
    settings: &SettingColumns<'_>,
) -> Result<SetRows, Refusal>
    requires weights { length settings.now.weights.now ≡ length settings.now.parents.now }
    requires quotas { length settings.now.quotas.now ≡ length settings.now.parents.now }
    requires periods { length settings.now.periods.now ≡ length settings.now.parents.now }
    requires bursts { length settings.now.bursts.now ≡ length settings.now.parents.now }
    ensures rows { IfOk result (λ s. s.rows.items ≡ set_rows shape (settings_of settings.now)) }
    ensures mosts { IfOk result (λ s. s.mosts.items ≡ mosts_of shape (settings_of settings.now)) }
    ensures none { OnOk result (settings_number shape (settings_of settings.now) ≡ 0) }
    ensures err { IfErr result (λ e.
        Answers (settings_number shape (settings_of settings.now)) (number_of_refusal e)) }
{
    let mut groups = SetRows {
        rows: Vec::new(alloc),
        mosts: Vec::new(alloc),
    };
    for g in 0..settings.parents.len() {
        let allowed = allowance_of(
            shape,
            settings.quotas[g],
            settings.periods[g],
            settings.bursts[g],
        )?;
        groups.push(set_row(settings, g, allowed.quota), allowed.most)?;
    }
    Ok(groups)
}
