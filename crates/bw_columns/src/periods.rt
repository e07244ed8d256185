//! Samples of periods of a host, one after another.
ghost use Rattle.std.specs.Prelude.{◌≡◌, ◌*◌, ◌/◌, length, IfOk, IfErr, OnOk, true, None};
ghost use Rattle.std.specs.Option.{option_map_or};
ghost use Rattle.bw_model.specs.Refusal.{refusal};
ghost use Rattle.bw_model.specs.Faults.{instance_fault_number};
ghost use Rattle.bw_columns.specs.Asked.{Answers, shape_of};
ghost use Rattle.bw_columns.specs.Numbers.{number_of_refusal};
ghost use Rattle.bw_columns.specs.PlannedHosts.{cut, groups_on, IsPlannedHost, IsUnplannedHost};
ghost use Rattle.bw_columns.specs.Periods.{rows_asking, AreSamples, samples_number, settings_of};
ghost use Rattle.bw_columns.specs.Periods.{IsPeriodsAnswer, AreToldSamples, are_whole};
ghost use Rattle.bw_columns.specs.Periods.{ArePlannedSamples, periods_number};
ghost use Rattle.bw_columns.specs.Tallies.{AreSumsLong, sums_in};

use crate::asked_instance::Host;
use crate::planned_hosts::planned_host;
use crate::refusal::Refusal;
use crate::set_rows::{SetRows, SettingColumns, set_rows};
use crate::sum_columns::{SumColumns, sum_columns};
use crate::tally::Tally;
use crate::walk::{copied, sample_of};
use bw_model::limits::MAX_PROCESSORS;
use bw_model::{HostFault, HostShape, Instance, Row};
use std::alloc::{AllocError, Global};

// A host by whose times slices are counted, and the one that is planned in its place.
#[derive(Clone, Copy)]
struct Hosts {
    units: HostShape,
    planned: HostShape,
}

// Numbers of each group in each sample, and the slices that each leaves of its limit.
#[derive(Drop)]
struct Samples {
    tallies: Vec<Tally>,
    carries: Vec<u64>,
}

fn hosts_of(host: Host) -> Result<Hosts, HostFault>
    ensures units { IfOk result (λ h. h.units ≡ cut (shape_of host)) }
    ensures planned { IfOk result (λ h. IsPlannedHost (shape_of host) h.planned) }
    ensures err { IfErr result (IsUnplannedHost (shape_of host)) }
{
    let few = host.processors.min(MAX_PROCESSORS);
    Ok(Hosts {
        units: HostShape::new(few, host.period_us, host.slice_us)?,
        planned: planned_host(host.processors, host.period_us, host.slice_us)?,
    })
}

// The rows with demands.
fn rows_asking(alloc: Global, rows: &[Row], demands: &[u64]) -> Result<Vec<Row>, AllocError>
    requires { length demands.now ≡ length rows.now }
    ensures { IfOk result (λ v. v.items ≡ rows_asking rows.now demands.now) }
{
    let mut asking = Vec::with_capacity(alloc, rows.len())?;
    for g in 0..rows.len() {
        let demand = demands[g];
        asking.push(Row { demand, ..rows[g] })?;
    }
    Ok(asking)
}

// The instance of a sample.
fn asked_instance(
    alloc: Global,
    planned: HostShape,
    rows: &[Row],
    demands: &[u64],
) -> Result<Instance, Refusal>
    requires { length demands.now ≡ length rows.now }
    ensures groups { IfOk result (λ i. i ≡ groups_on planned (rows_asking rows.now demands.now)) }
    ensures none { OnOk result (refusal (rows_asking rows.now demands.now) ≡ None) }
    ensures err { IfErr result (λ e. Answers
        (option_map_or instance_fault_number (refusal (rows_asking rows.now demands.now)) 0)
        (number_of_refusal e)) }
{
    let asking = rows_asking(alloc, rows, demands)?;
    match Instance::new(alloc, asking, planned) {
        Ok(instance) => Ok(instance),
        Err(fault) => Err(Refusal::Instance(fault)),
    }
}

fn samples_of(
    alloc: Global,
    planned: HostShape,
    slice_us: u64,
    groups: &SetRows,
    times: u64,
    count: usize,
    demands: &[u64],
    carries: Vec<u64>,
) -> Result<Samples, Refusal>
    requires whole { count * length groups.now.rows.items ≡ length demands.now }
    requires mosts { length groups.now.mosts.items ≡ length groups.now.rows.items }
    requires carries { length carries.items ≡ length groups.now.rows.items }
    ensures samples { IfOk result (λ s. AreSamples planned slice_us groups.now.rows.items
        groups.now.mosts.items times count demands.now carries.items s.tallies.items
        s.carries.items) }
    ensures long { IfOk result (λ s. length s.tallies.items ≡ length demands.now) }
    ensures carries { IfOk result (λ s. length s.carries.items ≡ length groups.now.rows.items) }
    ensures none { OnOk result (samples_number groups.now.rows.items count demands.now ≡ 0) }
    ensures err { IfErr result (λ e. Answers
        (samples_number groups.now.rows.items count demands.now) (number_of_refusal e)) }
{
    let rows = groups.rows.as_slice();
    let mut tallies = Vec::with_capacity(alloc, demands.len())?;
    let mut before = carries;
    let mut rest = demands;
    for k in 0..count {
        let (asked, behind) = rest.split_at(rows.len());
        let instance = asked_instance(alloc, planned, rows, asked)?;
        let mosts = groups.mosts.as_slice();
        let sample = sample_of(alloc, &instance, slice_us, mosts, times, before)?;
        tallies.extend_from_slice(sample.tallies.as_slice())?;
        before = sample.carries;
        rest = behind;
    }
    Ok(Samples {
        tallies,
        carries: before,
    })
}

/// Numbers of each group in each sample, and the slices of each limit that the last period left.
#[derive(Drop)]
pub struct PeriodColumns {
    /// The numbers, those of each sample behind those of the one before.
    pub sums: SumColumns,
    /// Slices of each limit, one entry for each group.
    pub carries: Vec<u64>,
}

// Samples of a host whose columns fit.
fn told_of(
    alloc: Global,
    hosts: Hosts,
    settings: &SettingColumns<'_>,
    count: usize,
    demands: &[u64],
    times: u64,
    carries: &[u64],
) -> Result<PeriodColumns, Refusal>
    requires weights { length settings.now.weights.now ≡ length settings.now.parents.now }
    requires quotas { length settings.now.quotas.now ≡ length settings.now.parents.now }
    requires periods { length settings.now.periods.now ≡ length settings.now.parents.now }
    requires bursts { length settings.now.bursts.now ≡ length settings.now.parents.now }
    requires carries { length carries.now ≡ length settings.now.parents.now }
    requires whole { count * length settings.now.parents.now ≡ length demands.now }
    ensures samples { IfOk result (λ p. ArePlannedSamples hosts.planned hosts.units
        (settings_of settings.now) times count demands.now carries.now p.carries.items
        (sums_in p.sums)) }
    ensures long { IfOk result (λ p. AreSumsLong (sums_in p.sums) (length demands.now)) }
    ensures carries { IfOk result
        (λ p. length p.carries.items ≡ length settings.now.parents.now) }
    ensures none { OnOk result
        (periods_number hosts.units (settings_of settings.now) count demands.now ≡ 0) }
    ensures err { IfErr result (λ e. Answers
        (periods_number hosts.units (settings_of settings.now) count demands.now)
        (number_of_refusal e)) }
{
    let slice_us = hosts.units.slice_us();
    let groups = set_rows(alloc, hosts.units, settings)?;
    let before = copied(alloc, carries)?;
    let planned = hosts.planned;
    let samples = samples_of(
        alloc, planned, slice_us, &groups, times, count, demands, before,
    )?;
    Ok(PeriodColumns {
        sums: sum_columns(alloc, samples.tallies.as_slice())?,
        carries: samples.carries,
    })
}

/// Samples of periods of a host, one after another: in each as many periods of the same demands.
///
/// The host may have any number of processors, as [`planned_host`] has them. `demands` are slices
/// of each group in the first sample, then in the next. `carries` are the slices of each limit that
/// the last period before left. `fit` is whether each of the caller's columns fits the others.
///
/// # Errors
/// `WrongLength` if they do not, then the refusals of [`planned_host`], then the first fault of a
/// group's quota, own period or burst, then the first fault of the rows in the first sample that
/// has one.
pub fn periods_of(
    alloc: Global,
    fit: bool,
    host: Host,
    settings: &SettingColumns<'_>,
    demands: &[u64],
    times: u64,
    carries: &[u64],
) -> Result<PeriodColumns, Refusal>
    requires weights { fit ≡ true
        → length settings.now.weights.now ≡ length settings.now.parents.now }
    requires quotas { fit ≡ true
        → length settings.now.quotas.now ≡ length settings.now.parents.now }
    requires periods { fit ≡ true
        → length settings.now.periods.now ≡ length settings.now.parents.now }
    requires bursts { fit ≡ true
        → length settings.now.bursts.now ≡ length settings.now.parents.now }
    requires carries { fit ≡ true → length carries.now ≡ length settings.now.parents.now }
    requires whole { fit ≡ true
        → are_whole (length demands.now) (length settings.now.parents.now) ≡ true }
    ensures told { IfOk result (λ p. AreToldSamples (shape_of host) (settings_of settings.now) times
        demands.now carries.now p.carries.items (sums_in p.sums)) }
    ensures long { IfOk result (λ p. AreSumsLong (sums_in p.sums) (length demands.now)) }
    ensures carries { IfOk result
        (λ p. length p.carries.items ≡ length settings.now.parents.now) }
    ensures none { OnOk result (IsPeriodsAnswer fit (shape_of host) (settings_of settings.now)
        (length demands.now / length settings.now.parents.now) demands.now 0) }
    ensures err { IfErr result (λ e. IsPeriodsAnswer fit (shape_of host) (settings_of settings.now)
        (length demands.now / length settings.now.parents.now) demands.now (number_of_refusal e)) }
{
    if !fit {
        return Err(Refusal::WrongLength);
    }
    let hosts = match hosts_of(host) {
        Ok(hosts) => hosts,
        Err(fault) => return Err(Refusal::Host(fault)),
    };
    let count = demands.len() / settings.parents.len();
    told_of(alloc, hosts, settings, count, demands, times, carries)
}
