//! Columns of rows beside the number of one goal, which is left open.
ghost use Rattle.std.specs.Prelude.{◌≡◌, ◌+◌, ◌-◌, ◌^◌, ◌<◌, ◌≤◌, ℕ, length, slice_index, IfOk};
ghost use Rattle.std.specs.Prelude.{slice_set, min};
ghost use Rattle.bw_settings.specs.Following.{follows_of, AreOneEach};
ghost use Rattle.bw_settings.specs.Several.{aims_of, AreAims, summed};
ghost use Rattle.bw_settings.specs.Columns.{AreBases, AreFormulas, IsOfFormula};
ghost use Rattle.bw_settings.specs.Columns.{base_with, formula_of};

use crate::following::Following;
use crate::goals::Goals;
use bw_model::Instance;
use bw_owned::WeightFormula;
use std::alloc::{AllocError, Global};

/// Numbers of goals, where that of one goal is 0.
///
/// # Errors
/// `AllocError` if memory was refused.
pub(crate) fn without(alloc: Global, numbers: &[u64], k: usize) -> Result<Vec<u64>, AllocError>
    requires { k < length numbers.now }
    ensures { IfOk result (λ others. others.items ≡ slice_set numbers.now k 0) }
{
    let mut others: Vec<u64> = numbers.iter().copied().collect(alloc)?;
    others[k] = 0;
    Ok(others)
}

// A base with what a row sums of owners' numbers, up to the greatest number.
fn base_with(instance: &Instance, goals: &Goals<'_>, numbers: &[u64], base: u64, h: u32) -> u64
    requires row { h < length instance.now.rows }
    requires goals { AreAims instance.now.rows (aims_of goals.now) }
    requires numbers { length numbers.now ≡ length goals.now.owners.now }
    ensures { result ≡ min
        (base + summed instance.now.rows (aims_of goals.now) numbers.now h) (2 ^ 64 - 1) }
{
    let mut sum = base;
    for k in 0..goals.owners.len() {
        if goals.counts_in(instance, h, k) {
            sum = sum.saturating_add(numbers[k]);
        }
    }
    sum
}

// The part of a row's number beside that of one goal. It is summed only where a formula asks for
// it: most rows have none.
fn base_at(
    instance: &Instance,
    following: &Following<'_>,
    goals: &Goals<'_>,
    numbers: &[u64],
    h: u32,
) -> u64
    requires row { h < length instance.now.rows }
    requires columns { AreOneEach instance.now (follows_of following.now) }
    requires goals { AreAims instance.now.rows (aims_of goals.now) }
    requires numbers { length numbers.now ≡ length goals.now.owners.now }
    ensures { IsOfFormula (slice_index following.now.formulas.now h) → result ≡ base_with
        instance.now.rows (follows_of following.now) (aims_of goals.now) numbers.now h }
{
    let base = following.bases[h as usize];
    match WeightFormula::of_number(following.formulas[h as usize]) {
        Some(_) => base_with(instance, goals, numbers, base, h),
        None => base,
    }
}

/// Parts of the rows' numbers beside that of one goal.
///
/// # Errors
/// `AllocError` if memory was refused.
pub(crate) fn bases_with(
    alloc: Global,
    instance: &Instance,
    following: &Following<'_>,
    goals: &Goals<'_>,
    numbers: &[u64],
) -> Result<Vec<u64>, AllocError>
    requires columns { AreOneEach instance.now (follows_of following.now) }
    requires goals { AreAims instance.now.rows (aims_of goals.now) }
    requires numbers { length numbers.now ≡ length goals.now.owners.now }
    ensures { IfOk result (λ bases. AreBases instance.now.rows (follows_of following.now)
        (aims_of goals.now) numbers.now (length instance.now.rows) bases.items) }
{
    let count = instance.rows().len();
    let mut bases = Vec::with_capacity(alloc, count)?;
    for h in 0..count {
        bases.push(base_at(instance, following, goals, numbers, h as u32))?;
    }
    Ok(bases)
}

// The formula of a row, if it sums the number of one goal.
fn formula_at(instance: &Instance, formulas: &[u32], goals: &Goals<'_>, k: usize, h: u32) -> u32
    requires row { h < length instance.now.rows }
    requires formulas { length formulas.now ≡ length instance.now.rows }
    requires goals { AreAims instance.now.rows (aims_of goals.now) }
    requires goal { k < length goals.now.owners.now }
    ensures { result ≡ formula_of instance.now.rows formulas.now (aims_of goals.now) k h }
{
    if goals.counts_in(instance, h, k) {
        formulas[h as usize]
    } else {
        0
    }
}

/// Formulas of the rows that sum the number of one goal. The other rows have none.
///
/// # Errors
/// `AllocError` if memory was refused.
pub(crate) fn formulas_of(
    alloc: Global,
    instance: &Instance,
    formulas: &[u32],
    goals: &Goals<'_>,
    k: usize,
) -> Result<Vec<u32>, AllocError>
    requires formulas { length formulas.now ≡ length instance.now.rows }
    requires goals { AreAims instance.now.rows (aims_of goals.now) }
    requires goal { k < length goals.now.owners.now }
    ensures { IfOk result (λ those. AreFormulas instance.now.rows formulas.now
        (aims_of goals.now) k (length instance.now.rows) those.items) }
{
    let count = instance.rows().len();
    let mut those = Vec::with_capacity(alloc, count)?;
    for h in 0..count {
        those.push(formula_at(instance, formulas, goals, k, h as u32))?;
    }
    Ok(those)
}
