//! The least number of one goal, the others as they are.
ghost use Rattle.std.specs.Prelude.{◌≡◌, ◌<◌, length, IfOk};
ghost use Rattle.bw_settings.specs.Following.{follows_of, AreOneEach};
ghost use Rattle.bw_settings.specs.Several.{aims_of, AreAims, IsLeastNow};

use crate::columns::{bases_with, formulas_of, without};
use crate::following::Following;
use crate::goals::Goals;
use crate::least::{Setting, least_near};
use crate::numbered::{Numbered, instance_at};
use bw_model::Instance;
use bw_owned::weights_grow;
use std::alloc::{AllocError, Global};

/// The least number of one goal's range with which it is met, the others as they are.
///
/// The weights of rows that do not sum it are made once. Then it is the one number that is open.
///
/// # Errors
/// `AllocError` if memory was refused.
pub(crate) fn least_now(
    alloc: Global,
    instance: &Instance,
    following: &Following<'_>,
    goals: &Goals<'_>,
    numbers: &[u64],
    k: usize,
) -> Result<Setting, AllocError>
    requires columns { AreOneEach instance.now (follows_of following.now) }
    requires goals { AreAims instance.now.rows (aims_of goals.now) }
    requires numbers { length numbers.now ≡ length goals.now.owners.now }
    requires goal { k < length numbers.now }
    ensures { IfOk result
        (IsLeastNow instance.now (follows_of following.now) (aims_of goals.now) numbers.now k) }
{
    let _rows = instance.rows();
    weights_grow();
    let (formulas, floors) = (following.formulas, following.floors);
    let others = without(alloc, numbers, k)?;
    let beside = bases_with(alloc, instance, following, goals, others.as_slice())?;
    let bases = beside.as_slice();
    let every = Following {
        formulas,
        floors,
        bases,
    };
    let standing = match instance_at(alloc, instance, &every, 0)? {
        Numbered::NoWeight => return Ok(Setting::Untold),
        Numbered::Made(standing) => standing,
    };
    let those = formulas_of(alloc, instance, formulas, goals, k)?;
    let open = Following {
        formulas: those.as_slice(),
        floors,
        bases,
    };
    let (group, amount) = (goals.groups[k], goals.amounts[k]);
    let (first, last) = (goals.firsts[k], goals.lasts[k]);
    least_near(
        alloc,
        &standing,
        &open,
        goals.measure,
        group,
        amount,
        first,
        last,
        numbers[k],
    )
}
