//! One pass over goals: the number of one after another becomes the least beside the others.
ghost use Rattle.std.specs.Prelude.{◌≡◌, ◌<◌, length, IfOk};
ghost use Rattle.bw_settings.specs.Following.{follows_of, AreOneEach};
ghost use Rattle.bw_settings.specs.Several.{aims_of, AreAims, IsPassed};

use crate::beside::least_now;
use crate::following::Following;
use crate::goals::Goals;
use crate::least::Setting;
use bw_model::Instance;
use std::alloc::{AllocError, Global};

/// The end of one pass.
#[derive(Clone, Copy, Debug, PartialEq, Eq)]
pub(crate) enum Pass {
    /// Each number was the least beside the others.
    Same,
    /// Numbers have changed.
    Changed,
    /// No number meets this goal, the others as they are.
    Stuck(usize),
    /// Logarithms do not tell a weight.
    Untold,
}

/// Makes the number of each goal the least with which it is met, the others as they are then.
///
/// # Errors
/// `AllocError` if memory was refused.
pub(crate) fn pass_once(
    alloc: Global,
    instance: &Instance,
    following: &Following<'_>,
    goals: &Goals<'_>,
    numbers: &mut [u64],
) -> Result<Pass, AllocError>
    requires columns { AreOneEach instance.now (follows_of following.now) }
    requires goals { AreAims instance.now.rows (aims_of goals.now) }
    requires numbers { length numbers.old ≡ length goals.now.owners.now }
    ensures { IfOk result
        (IsPassed instance.now (follows_of following.now) (aims_of goals.now) numbers.new) }
{
    let mut same = true;
    for k in 0..goals.owners.len() {
        match least_now(alloc, instance, following, goals, numbers, k)? {
            Setting::Least(number) if number == numbers[k] => (),
            Setting::Least(number) => {
                numbers[k] = number;
                same = false;
            }
            Setting::NoNumber => return Ok(Pass::Stuck(k)),
            Setting::Untold => return Ok(Pass::Untold),
        }
    }
    Ok(if same { Pass::Same } else { Pass::Changed })
}
