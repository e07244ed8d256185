//! The instance of a call.
ghost use Rattle.std.specs.Prelude.{◌≡◌, true, length, IfOk, IfErr, OnOk};
ghost use Rattle.bw_model.specs.Groups.{IsInstance};
ghost use Rattle.bw_columns.specs.Asked.{groups_asked, refusal_of, refusal_where, Answers};
ghost use Rattle.bw_columns.specs.Numbers.{number_of_refusal};
ghost use Rattle.bw_columns.specs.Requests.{IsReplyTo, groups_for, row_count};

use crate::columns::Columns;
use crate::refusal::Refusal;
use bw_model::{HostShape, Instance};
use std::alloc::Global;

/// The numbers of a host, as a caller gives them: period and slice in microseconds. They may be any
/// numbers; [`instance_of`] refuses those of no host.
#[derive(Clone, Copy)]
pub struct Host {
    /// 1 to 64.
    pub processors: u64,
    /// 1,000 to 1,000,000.
    pub period_us: u64,
    /// At least 1,000, and a divisor of the period.
    pub slice_us: u64,
}

impl Host {
    /// The host of three numbers.
    pub fn new(processors: u64, period_us: u64, slice_us: u64) -> Host
        ensures { result ≡ record {
          processors = processors;
          period_us = period_us;
          slice_us = slice_us;
        } }
    {
        Host {
            processors,
            period_us,
            slice_us,
        }
    }
}

/// The instance of a host and its rows.
///
/// # Errors
/// `WrongLength` if the columns differ in length, then the first fault of the host, then the first
/// fault of the rows.
pub fn instance_of(alloc: Global, host: Host, columns: &Columns<'_>) -> Result<Instance, Refusal>
    ensures groups { IfOk result (λ i. i ≡ groups_asked host columns.now) }
    ensures valid { IfOk result IsInstance }
    ensures none { OnOk result (refusal_of host columns.now ≡ 0) }
    ensures err { IfErr result (λ e. Answers (refusal_of host columns.now) (number_of_refusal e)) }
{
    if !columns.are_even() {
        return Err(Refusal::WrongLength);
    }
    let shape = match HostShape::new(host.processors, host.period_us, host.slice_us) {
        Ok(shape) => shape,
        Err(fault) => return Err(Refusal::Host(fault)),
    };
    let rows = columns.rows(alloc)?;
    match Instance::new(alloc, rows, shape) {
        Ok(instance) => Ok(instance),
        Err(fault) => Err(Refusal::Instance(fault)),
    }
}

/// The instance of a host and its rows, if the columns for the answer have the rows' length.
///
/// # Errors
/// `WrongLength` if they do not, then the refusals of [`instance_of`].
pub fn instance_where(
    alloc: Global,
    fit: bool,
    host: Host,
    columns: &Columns<'_>,
) -> Result<Instance, Refusal>
    ensures groups { IfOk result (λ i. i ≡ groups_asked host columns.now) }
    ensures valid { IfOk result IsInstance }
    ensures fit { OnOk result (fit ≡ true) }
    ensures none { OnOk result (refusal_where fit host columns.now ≡ 0) }
    ensures err { IfErr result
        (λ e. Answers (refusal_where fit host columns.now) (number_of_refusal e)) }
{
    if !fit {
        return Err(Refusal::WrongLength);
    }
    instance_of(alloc, host, columns)
}

/// A host, the rows of a tree, and whether a caller's other columns fit the rows.
#[derive(Clone, Copy)]
pub struct Request<'a> {
    /// Whether each of the caller's other columns has the rows' length.
    pub fit: bool,
    /// The numbers of the host.
    pub host: Host,
    /// The rows, by column.
    pub columns: Columns<'a>,
}

impl Request<'_> {
    /// The instance of the request.
    ///
    /// # Errors
    /// The refusals of [`instance_where`].
    pub fn instance(&self, alloc: Global) -> Result<Instance, Refusal>
        ensures groups { IfOk result (λ i. i ≡ groups_for self.now) }
        ensures rows { IfOk result (λ i. length i.rows ≡ row_count self.now) }
        ensures valid { IfOk result IsInstance }
        ensures reply { IsReplyTo self.now result }
    {
        let instance = instance_where(alloc, self.fit, self.host, &self.columns)?;
        Ok(instance)
    }
}
