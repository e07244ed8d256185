//! Rows that may get a lower limit, and their lowest limits.
ghost use Rattle.std.specs.Prelude.{◌≡◌, ◌<◌, ◌==◌, length, IfOk};
ghost use Rattle.std.specs.List.{list_any};
ghost use Rattle.bw_model.specs.Groups.{is_under};
ghost use Rattle.bw_questions.specs.OtherLimits.{at_level, has_goal_near, is_free, limit_at};

use super::cut::full_limit;
use bw_model::Instance;
use std::alloc::{AllocError, Global};

fn has_row(path: &[u32], group: u32) -> bool
    ensures { result ≡ list_any (λ above. above == group) path.now }
{
    path.iter().any(|above| *above == group)
}

// Whether a row is a group or below it.
fn is_under(instance: &Instance, group: u32, h: u32) -> bool
    requires { h < length instance.now.rows }
    ensures { result ≡ is_under instance.now.rows group h }
{
    let path = instance.path_up(h);
    has_row(path.as_slice(), group)
}

// Whether a row has a goal, and is a group, above it or below it.
fn has_goal_near(instance: &Instance, goals: &[u64], h: u32, g: u32) -> bool
    requires group { h < length instance.now.rows }
    requires row { g < length instance.now.rows }
    requires goals { length goals.now ≡ length instance.now.rows }
    ensures { result ≡ has_goal_near instance.now.rows goals.now h g }
{
    goals[g as usize] > 0 && (is_under(instance, g, h) || is_under(instance, h, g))
}

// Whether a row may get a lower limit: it is below the root, and no goal is at, above or below it.
fn is_free(instance: &Instance, goals: &[u64], h: u32) -> bool
    requires row { h < length instance.now.rows }
    requires goals { length goals.now ≡ length instance.now.rows }
    ensures { result ≡ is_free instance.now.rows goals.now h }
{
    if h == 0 {
        return false;
    }
    let count = instance.rows().len();
    for g in 0..count {
        if has_goal_near(instance, goals, h, g as u32) {
            return false;
        }
    }
    true
}

// The lowest limit that a row may get.
fn lowest_limit(instance: &Instance, goals: &[u64], lowest: &[u64], h: u32) -> u64
    requires row { h < length instance.now.rows }
    requires goals { length goals.now ≡ length instance.now.rows }
    requires lowest { length lowest.now ≡ length instance.now.rows }
    ensures { result ≡ limit_at instance.now goals.now lowest.now 0 h }
{
    let full = full_limit(instance, h);
    let low = lowest[h as usize];
    if low < full && is_free(instance, goals, h) {
        low
    } else {
        full
    }
}

/// The lowest limit that each row may get.
///
/// # Errors
/// `AllocError` if memory was refused.
pub(crate) fn lowest_limits(
    alloc: Global,
    instance: &Instance,
    goals: &[u64],
    lowest: &[u64],
) -> Result<Vec<u64>, AllocError>
    requires goals { length goals.now ≡ length instance.now.rows }
    requires lowest { length lowest.now ≡ length instance.now.rows }
    ensures { IfOk result (λ limits. limits.items
        ≡ at_level instance.now goals.now lowest.now 0) }
{
    let count = instance.rows().len();
    let mut limits: Vec<u64> = Vec::with_capacity(alloc, count)?;
    for h in 0..count {
        limits.push(lowest_limit(instance, goals, lowest, h as u32))?;
    }
    Ok(limits)
}
