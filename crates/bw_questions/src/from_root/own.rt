//! Rows with a goal at them or below them, and their weights that may change.
ghost use Rattle.std.specs.Prelude.{◌≡◌, ℕ, ◌<◌, true, false, length, slice_index};
ghost use Rattle.std.specs.Prelude.{slice_index_or, EachIndex, IfOk, ◌&&◌};
ghost use Rattle.bw_questions.specs.Lowered.{AreGoalFlags, has_goal, own_rows};

use bw_model::Instance;
use std::alloc::{AllocError, Global};

// Whether one of some rows is marked.
fn any_marked(flags: &[bool], rows: &[u32]) -> bool
    requires { EachIndex rows.now (λ k. slice_index rows.now k < length flags.now) }
    ensures some { result ≡ true → (k : ℕ) × (k < length rows.now)
        × (slice_index_or flags.now (slice_index rows.now k) false ≡ true) }
    ensures none { result ≡ false → (k : ℕ) → k < length rows.now
        → slice_index_or flags.now (slice_index rows.now k) false ≡ false }
{
    for k in 0..rows.len() {
        if flags[rows[k] as usize] {
            return true;
        }
    }
    false
}

// Whether a row, or a row below it, has a goal, where the flags of all rows after it are known.
fn has_goal(instance: &Instance, goals: &[u64], flags: &[bool], g: u32) -> bool
    requires row { g < length instance.now.rows }
    requires goals { length goals.now ≡ length instance.now.rows }
    requires flags { length flags.now ≡ length instance.now.rows }
    requires known { (h : ℕ) → g < h → h < length instance.now.rows
        → slice_index_or flags.now h false ≡ has_goal instance.now.rows goals.now h }
    ensures { result ≡ has_goal instance.now.rows goals.now g }
{
    let _rows = instance.rows();
    if goals[g as usize] > 0 {
        return true;
    }
    any_marked(flags, instance.children(g))
}

/// Whether each row, or a row below it, has a goal.
///
/// # Errors
/// `AllocError` if memory was refused.
pub(crate) fn goal_flags(
    alloc: Global,
    instance: &Instance,
    goals: &[u64],
) -> Result<Vec<bool>, AllocError>
    requires { length goals.now ≡ length instance.now.rows }
    ensures { IfOk result (λ flags. AreGoalFlags instance.now.rows goals.now flags.items) }
{
    let count = instance.rows().len();
    let mut flags = vec![in alloc; false; count]?;
    for g in (0..count).rev() {
        flags[g] = has_goal(instance, goals, flags.as_slice(), g as u32);
    }
    Ok(flags)
}

// Whether the weight of a row is one of the goals' own.
fn is_own(may: &[bool], flags: &[bool], h: usize) -> bool
    requires may { h < length may.now }
    requires flags { h < length flags.now }
    ensures { result ≡ (slice_index_or may.now h false && slice_index_or flags.now h false) }
{
    may[h] && flags[h]
}

/// For each row, whether its weight is one of the goals' own: it may change, and a goal is at the
/// row or below it.
///
/// # Errors
/// `AllocError` if memory was refused.
pub(crate) fn own_rows(
    alloc: Global,
    instance: &Instance,
    goals: &[u64],
    may: &[bool],
) -> Result<Vec<bool>, AllocError>
    requires goals { length goals.now ≡ length instance.now.rows }
    requires may { length may.now ≡ length instance.now.rows }
    ensures { IfOk result (λ own. own.items ≡ own_rows instance.now.rows goals.now may.now) }
{
    let count = instance.rows().len();
    let flags = goal_flags(alloc, instance, goals)?;
    let mut own: Vec<bool> = Vec::with_capacity(alloc, count)?;
    for h in 0..count {
        own.push(is_own(may, flags.as_slice(), h))?;
    }
    Ok(own)
}
