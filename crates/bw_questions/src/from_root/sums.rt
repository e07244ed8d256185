//! Sums of goals up the tree.
ghost use Rattle.std.specs.Prelude.{◌≡◌, ◌-◌, ◌^◌, ◌<◌, ◌≤◌, ℕ, length, min, max, slice_index};
ghost use Rattle.std.specs.Prelude.{EachIndex, IfOk, sum_by};
ghost use Rattle.bw_model.specs.Groups.{sum_of_children};
ghost use Rattle.bw_questions.specs.Beside.{AreGoalSums};

use bw_model::Instance;
use std::alloc::{AllocError, Global};

// The sum of the values of some rows, at most the greatest number.
fn sum_at(values: &[u64], rows: &[u32]) -> u64
    requires { EachIndex rows.now (λ k. slice_index rows.now k < length values.now) }
    ensures { result ≡ min (sum_by (slice_index values.now) rows.now) (2 ^ 64 - 1) }
{
    let mut sum: u64 = 0;
    for k in 0..rows.len() {
        sum = sum.saturating_add(values[rows[k] as usize]);
    }
    sum
}

// The sum of goals at a row, where the sums of all rows after it are known.
fn sum_of(instance: &Instance, goals: &[u64], sums: &[u64], g: u32) -> u64
    requires row { g < length instance.now.rows }
    requires goals { length goals.now ≡ length instance.now.rows }
    requires sums { length sums.now ≡ length instance.now.rows }
    ensures { result ≡ max (slice_index goals.now g)
        (min (sum_of_children instance.now.rows sums.now g) (2 ^ 64 - 1)) }
{
    let _rows = instance.rows();
    goals[g as usize].max(sum_at(sums, instance.children(g)))
}

/// The sum of goals at each row: its goal, or what those of its children come to together, if that
/// is more. No sum is above the greatest number.
///
/// # Errors
/// `AllocError` if memory was refused.
pub fn goal_sums(alloc: Global, instance: &Instance, goals: &[u64]) -> Result<Vec<u64>, AllocError>
    requires { length goals.now ≡ length instance.now.rows }
    ensures { IfOk result (λ sums. AreGoalSums instance.now.rows goals.now sums.items) }
{
    let count = instance.rows().len();
    let mut sums = vec![in alloc; 0u64; count]?;
    for g in (0..count).rev() {
        sums[g] = sum_of(instance, goals, sums.as_slice(), g as u32);
    }
    Ok(sums)
}
