//! Goals of groups, each with the number that an owner sets for it.
ghost use Rattle.std.specs.Prelude.{◌≡◌, ◌<◌, ◌==◌, ℕ, length, true, false, slice_index};
ghost use Rattle.std.specs.Prelude.{IfSome, IfNone};
ghost use Rattle.std.specs.List.{list_any};
ghost use Rattle.bw_model.specs.Groups.{is_under};
ghost use Rattle.bw_settings.specs.Several.{aims_of, counts_in, IsOnWay};

use bw_model::Instance;
use bw_questions::Measure;

/// Goals of groups, by column: one entry in each for each goal.
#[derive(Clone, Copy)]
pub struct Goals<'a> {
    /// The measure of each: the amount of the plan, or the guarantee.
    pub measure: Measure,
    /// The row of the goal's group.
    pub groups: &'a [u32],
    /// The least slices of one period that the group is to get.
    pub amounts: &'a [u64],
    /// The row whose number an owner sets for the goal: the group, one above it or below it.
    pub owners: &'a [u32],
    /// The highest row that sums the owner's number. Those from the owner's row up to it have it.
    pub tops: &'a [u32],
    /// The least number that may be set.
    pub firsts: &'a [u64],
    /// The greatest number that may be set.
    pub lasts: &'a [u64],
}

fn has_row(path: &[u32], group: u32) -> bool
    ensures { result ≡ list_any (λ above. above == group) path.now }
{
    path.iter().any(|above| *above == group)
}

/// Whether a row is a group or below it.
pub(crate) fn is_under(instance: &Instance, group: u32, h: u32) -> bool
    requires { h < length instance.now.rows }
    ensures { result ≡ is_under instance.now.rows group h }
{
    let path = instance.path_up(h);
    has_row(path.as_slice(), group)
}

// Whether a group and an owner's row are rows, and one of them is the other or below it.
fn is_on_way(instance: &Instance, group: u32, owner: u32) -> bool
    ensures on_way { result ≡ true → IsOnWay instance.now.rows group owner }
    ensures astray { result ≡ false → IsOnWay instance.now.rows group owner → ⊥ }
{
    let count = instance.rows().len();
    (group as usize) < count
        && (owner as usize) < count
        && (is_under(instance, owner, group) || is_under(instance, group, owner))
}

impl<'a> Goals<'a> {
    /// The first goal of which the group or the owner's row is no row, or neither of the two is the
    /// other or below it. None: there is no such goal.
    pub fn first_astray(&self, instance: &Instance) -> Option<usize>
        requires { length self.now.groups.now ≡ length self.now.owners.now }
        ensures some { IfSome result (λ k. (k < length self.now.owners.now)
            × (IsOnWay instance.now.rows (slice_index self.now.groups.now k)
            (slice_index self.now.owners.now k) → ⊥)) }
        ensures none { IfNone result ((k : ℕ) → k < length self.now.owners.now
            → IsOnWay instance.now.rows (slice_index self.now.groups.now k)
            (slice_index self.now.owners.now k)) }
    {
        for k in 0..self.owners.len() {
            if !is_on_way(instance, self.groups[k], self.owners[k]) {
                return Some(k);
            }
        }
        None
    }

    /// Whether a row sums the number of a goal.
    pub(crate) fn counts_in(&self, instance: &Instance, h: u32, k: usize) -> bool
        requires row { h < length instance.now.rows }
        requires goal { k < length self.now.owners.now }
        requires goal_top { k < length self.now.tops.now }
        requires owner { slice_index self.now.owners.now k < length instance.now.rows }
        ensures { result ≡ counts_in instance.now.rows (aims_of self.now) h k }
    {
        is_under(instance, h, self.owners[k]) && is_under(instance, self.tops[k], h)
    }
}
