//! Numbers that owners set for goals, each the least beside the others.
ghost use Rattle.std.specs.Prelude.{◌≡◌, ◌<◌, length, IfOk};
ghost use Rattle.bw_settings.specs.Following.{follows_of, AreOneEach};
ghost use Rattle.bw_settings.specs.Several.{aims_of, AreAims, IsSettling};

use crate::following::Following;
use crate::goals::Goals;
use crate::pass::{Pass, pass_once};
use bw_model::Instance;
use std::alloc::{AllocError, Global};

/// Greatest number of passes over the goals.
pub const MAX_PASSES: u32 = 50;

/// The end of passes over goals.
#[derive(Clone, Copy, Debug, PartialEq, Eq)]
pub enum Settling {
    /// All goals are met, and each number is the least beside the others.
    Settled,
    /// No number meets the goal of this place, the others as they are.
    Stuck(usize),
    /// Numbers still changed in the last of [`MAX_PASSES`] passes.
    Unsettled,
    /// Logarithms do not tell a weight. Tests try each number, and each has a weight.
    Untold,
}

/// Settles the numbers that owners set for goals: each is the least of its range with which
/// the goal's group gets so many slices, the others as they are.
///
/// The weights of rows follow the numbers, each by its formula. That of the root stays. It begins
/// with the numbers that it is given, and goes over the goals until none changes. A pass makes two
/// plans for each number that stays, and one where that is the first of its range.
///
/// # Errors
/// `AllocError` if memory was refused.
pub fn settle(
    alloc: Global,
    instance: &Instance,
    following: &Following<'_>,
    goals: &Goals<'_>,
    numbers: &mut [u64],
) -> Result<Settling, AllocError>
    requires columns { AreOneEach instance.now (follows_of following.now) }
    requires goals { AreAims instance.now.rows (aims_of goals.now) }
    requires numbers { length numbers.old ≡ length goals.now.owners.now }
    ensures { IfOk result
        (IsSettling instance.now (follows_of following.now) (aims_of goals.now) numbers.new) }
{
    for _ in 0..MAX_PASSES {
        match pass_once(alloc, instance, following, goals, numbers)? {
            Pass::Same => return Ok(Settling::Settled),
            Pass::Changed => (),
            Pass::Stuck(k) => return Ok(Settling::Stuck(k)),
            Pass::Untold => return Ok(Settling::Untold),
        }
    }
    Ok(Settling::Unsettled)
}
