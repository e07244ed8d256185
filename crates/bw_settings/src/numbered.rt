//! The instance that an owner's number makes.
ghost use Rattle.std.specs.Prelude.{◌≡◌, ◌+◌, ◌<◌, ◌≤◌, length, true, false, IfOk};
ghost use Rattle.bw_model.specs.declared.limits.TheConstants.{MIN_WEIGHT, MAX_WEIGHT};
ghost use Rattle.bw_model.specs.Groups.{row_of};
ghost use Rattle.bw_model.specs.OneRow.{with_row};
ghost use Rattle.bw_settings.specs.Following.{follows_of, AreOneEach, IsNumberedTo, IsUntold};
ghost use Rattle.bw_settings.specs.Following.{number_at};
ghost use Rattle.bw_settings.specs.Settings.{IsMade};

use crate::following::Following;
use bw_model::{Instance, Row};
use std::alloc::{AllocError, Global};

/// The instance of an owner's number.
#[derive(Debug, Drop)]
pub(crate) enum Numbered {
    /// The weights that follow are those of the number.
    Made(Instance),
    /// Logarithms do not tell a weight.
    NoWeight,
}

fn copied(alloc: Global, rows: &[Row]) -> Result<Vec<Row>, AllocError>
    ensures { IfOk result (λ copy. copy.items ≡ rows.now) }
{
    rows.iter().copied().collect(alloc)
}

// Sets the weight of a group below the root.
fn set_weight(other: &mut Instance, h: u32, weight: u64)
    requires below_root { 0 < h }
    requires within { h < length other.old.rows }
    requires some { MIN_WEIGHT ≤ weight }
    requires few { weight ≤ MAX_WEIGHT }
    ensures { other.new ≡ with_row other.old h weight (row_of other.old.rows h).limit }
{
    let limit = other.row(h).limit;
    other.set_row(h, weight, limit);
}

// Sets the weight of one more row to that of an owner's number. False: logarithms do not tell it.
fn follow(
    other: &mut Instance,
    instance: &Instance,
    following: &Following<'_>,
    h: u32,
    number: u64,
) -> bool
    requires columns { AreOneEach instance.now (follows_of following.now) }
    requires row { (0 < h) × (h < length instance.now.rows) }
    requires so_far { IsNumberedTo instance.now following.now.formulas.now
        (number_at (follows_of following.now) number) h other.old }
    ensures done { result ≡ true
        → IsNumberedTo instance.now following.now.formulas.now
        (number_at (follows_of following.now) number) (h + 1) other.new }
    ensures untold { result ≡ false → IsUntold }
{
    let _rows = instance.rows();
    let standing = instance.row(h).weight;
    match following.weight_at(h as usize, standing, number) {
        Some(weight) => {
            set_weight(other, h, weight);
            true
        }
        None => false,
    }
}

/// The instance in which the weights that follow are those of an owner's number.
///
/// # Errors
/// `AllocError` if memory was refused.
pub(crate) fn instance_at(
    alloc: Global,
    instance: &Instance,
    following: &Following<'_>,
    number: u64,
) -> Result<Numbered, AllocError>
    requires { AreOneEach instance.now (follows_of following.now) }
    ensures { IfOk result (IsMade instance.now (follows_of following.now) number) }
{
    let count = instance.rows().len();
    let rows = copied(alloc, instance.rows())?;
    let mut other = Instance::of_valid(alloc, rows, instance.shape())?;
    for h in 1..count {
        if !follow(&mut other, instance, following, h as u32, number) {
            return Ok(Numbered::NoWeight);
        }
    }
    let _others = other.rows();
    Ok(Numbered::Made(other))
}
