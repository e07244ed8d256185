//! Columns of groups that are written into a caller's columns.
ghost use Rattle.std.specs.Prelude.{◌≡◌, ◌≤◌, ◌∷◌, [], true, length};
ghost use Rattle.bw_columns.specs.Asked.{are_of_length};
ghost use Rattle.bw_columns.specs.Groups.{columns_of, columns_with, on_columns, AreLong};

use crate::front::write_front;
use crate::groups::GroupColumns;

/// Writes the columns of groups to the front of a caller's columns.
pub fn write_groups(
    found: &GroupColumns,
    parents: &mut [u32],
    weights: &mut [u64],
    limits: &mut [u64],
    demands: &mut [u64],
    quotas: &mut [u64],
    periods: &mut [u64],
    bursts: &mut [u64],
    carries: &mut [u64],
    names: &mut [u8],
)
    requires long { AreLong (columns_of found.now) }
    requires even { are_of_length (length parents.old) (weights.old ∷ limits.old ∷ demands.old
        ∷ quotas.old ∷ periods.old ∷ bursts.old ∷ carries.old ∷ []) ≡ true }
    requires room { length found.now.parents.items ≤ length parents.old }
    requires names { length found.now.names.items ≤ length names.old }
    ensures { columns_with parents.new weights.new limits.new demands.new quotas.new periods.new
        bursts.new carries.new names.new ≡ on_columns (columns_of found.now)
        (columns_with parents.old weights.old limits.old demands.old quotas.old periods.old
        bursts.old carries.old names.old) }
{
    write_front(parents, found.parents.as_slice());
    write_front(weights, found.weights.as_slice());
    write_front(limits, found.limits.as_slice());
    write_front(demands, found.demands.as_slice());
    write_front(quotas, found.quotas.as_slice());
    write_front(periods, found.periods.as_slice());
    write_front(bursts, found.bursts.as_slice());
    write_front(carries, found.carries.as_slice());
    write_front(names, found.names.as_slice());
}
