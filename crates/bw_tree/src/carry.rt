//! Bandwidth: quotas in slices, and slices carried from one period to the next (sched-bwc.rst,
//! "Burst feature").
ghost use Rattle.std.specs.Prelude.{◌≡◌, ◌<◌, ◌≤◌, ◌↔◌, true, length, IfSome, IsTrue, false, min};
ghost use Rattle.bw_model.specs.Quota.{in_slices};
ghost use Rattle.bw_model.specs.Groups.{row_of};
ghost use Rattle.bw_tree.specs.Groups.{IsSound};
ghost use Rattle.bw_tree.specs.Snapshot.{quota_slices, bursting, left_of, left_over, carried};
ghost use Rattle.bw_tree.specs.Snapshot.{carried_at, rows_of, IsDrawnWithin};
ghost use Rattle.bw_tree.specs.Snapshot.{period_limit as limit_of};
ghost use Rattle.bw_tree.specs.Kept.{AreSound, on_host, limit_set};

use crate::group::Group;
use crate::group_map::{Groups, entry_at};
use crate::snapshot::Snapshot;
use bw_model::limits::{MAX_BURST_US, MAX_GROUPS, MAX_PERIOD_US, MAX_QUOTA_US, MIN_PERIOD_US};
use bw_model::{HostShape, Row};

// Quota of a group in whole slices of the host's period.
pub(crate) fn quota_slices(group: &Group, shape: HostShape) -> Option<u64>
    requires { IsSound group.now }
    ensures value { result ≡ quota_slices shape group.now }
    ensures bound { IfSome result (λ n. n ≤ MAX_QUOTA_US) }
{
    group.quota.slices(shape, group.period)
}

/// Limit of a group in slices of one period: quota plus carry, at most quota plus burst.
///
/// `quota` and `carry` are in slices. `burst_us` is in microseconds of the group's own period,
/// which has `period_us` microseconds.
pub fn period_limit(
    shape: HostShape,
    quota: Option<u64>,
    period_us: u64,
    burst_us: u64,
    carry: u64,
) -> Option<u64>
    requires quota { IfSome quota (λ n. n ≤ MAX_QUOTA_US) }
    requires period { (MIN_PERIOD_US ≤ period_us) × (period_us ≤ MAX_PERIOD_US) }
    requires burst { burst_us ≤ MAX_BURST_US }
    ensures { result ≡ bursting carry (in_slices shape period_us burst_us) quota }
{
    let quota = quota?;
    Some(quota + carried_in(shape, period_us, burst_us, carry))
}

// Slices that a group carries in, at most its burst. Divides only if it has a carry and a burst.
fn carried_in(shape: HostShape, period_us: u64, burst_us: u64, carry: u64) -> u64
    requires period { (MIN_PERIOD_US ≤ period_us) × (period_us ≤ MAX_PERIOD_US) }
    requires burst { burst_us ≤ MAX_BURST_US }
    ensures value { result ≡ min carry (in_slices shape period_us burst_us) }
    ensures bound { result ≤ MAX_BURST_US }
{
    if carry == 0 || burst_us == 0 {
        return 0;
    }
    let burst = shape.slices(burst_us, period_us);
    carry.min(burst)
}

/// Tests that no row has drawn more than its limit, which [`Tree::carry_over`] requires.
///
/// `drawn` has the slices of each row in one period.
pub fn is_drawn_within(rows: &[Row], drawn: &[u64]) -> bool
    requires { length drawn.now ≡ length rows.now }
    ensures { IsTrue result ↔ IsDrawnWithin rows.now drawn.now }
{
    for i in 0..rows.len() {
        if is_past(rows[i].limit, drawn[i]) {
            return false;
        }
    }
    true
}

// Whether the draw is above the limit.
fn is_past(limit: Option<u64>, drawn: u64) -> bool
    ensures held { result ≡ false → IfSome limit (λ l. drawn ≤ l) }
    ensures past { result ≡ true → IfSome limit (λ l. drawn ≤ l) → ⊥ }
{
    match limit {
        None => false,
        Some(limit) => drawn > limit,
    }
}

/// Slices of a limit that were not drawn, 0 without a limit.
pub fn left_of(limit: Option<u64>, drawn: u64) -> u64
    ensures { result ≡ left_of limit drawn }
{
    match limit {
        None => 0,
        Some(limit) => limit.saturating_sub(drawn),
    }
}

// Stores the rest of each row's limit in the group at the row's place, and gives the row its limit
// of the next period.
pub(crate) fn write_carries(
    groups: &mut Groups,
    snapshot: &mut Snapshot,
    shape: HostShape,
    drawn: &[u64],
)
    requires step { snapshot.old.instance ≡ on_host groups.old.entries shape }
    requires sound { AreSound groups.old.entries }
    requires drawn { length drawn.now ≡ length groups.old.entries }
    ensures carries { groups.new.entries
        ≡ carried groups.old.entries (left_over (rows_of groups.old.entries shape) drawn.now) }
    ensures step { snapshot.new.instance ≡ on_host groups.new.entries shape }
    ensures ids { snapshot.new.ids ≡ snapshot.old.ids }
    ensures quotas { snapshot.new.quotas ≡ snapshot.old.quotas }
{
    for place in 0..drawn.len() {
        carry_at(groups, snapshot, place, shape, drawn[place]);
    }
}

// Stores the rest of a row's limit, and gives the row its limit of the next period. A group without
// a limit carries nothing, and gets none.
fn carry_at(
    groups: &mut Groups,
    snapshot: &mut Snapshot,
    place: usize,
    shape: HostShape,
    drawn: u64,
)
    requires within { place < length groups.old.entries }
    requires step { snapshot.old.instance ≡ on_host groups.old.entries shape }
    requires sound { AreSound groups.old.entries }
    ensures groups { groups.new.entries ≡ carried_at groups.old.entries place
        (left_of (row_of snapshot.old.instance.rows place).limit drawn) }
    ensures step { snapshot.new.instance ≡ on_host groups.new.entries shape }
    ensures sound { AreSound groups.new.entries }
    ensures ids { snapshot.new.ids ≡ snapshot.old.ids }
    ensures quotas { snapshot.new.quotas ≡ snapshot.old.quotas }
{
    let limit = snapshot.instance.rows()[place].limit;
    write_carry(groups, place, left_of(limit, drawn));
    if limit.is_none() {
        return;
    }
    let (_, group) = entry_at(groups, place);
    renew_limit(snapshot, place, shape, group);
}

// Gives a row below the root its group's limit of the next period. Without a burst it stays.
fn renew_limit(snapshot: &mut Snapshot, place: usize, shape: HostShape, group: &Group)
    requires below_root { 0 < place }
    requires within { place < length snapshot.old.instance.rows }
    requires few { length snapshot.old.instance.rows ≤ MAX_GROUPS }
    requires sound { IsSound group.now }
    requires steady { group.now.burst ≡ 0 → (row_of snapshot.old.instance.rows place).limit
        ≡ limit_of shape group.now }
    ensures { snapshot.new ≡ limit_set place (limit_of shape group.now) snapshot.old }
{
    if group.burst == 0 {
        return;
    }
    let quota = quota_slices(group, shape);
    let limit = period_limit(shape, quota, group.period, group.burst, group.carry);
    snapshot.instance.set_limit(place as u32, limit);
}

fn write_carry(groups: &mut Groups, place: usize, carry: u64)
    requires { place < length groups.old.entries }
    ensures { groups.new.entries ≡ carried_at groups.old.entries place carry }
{
    let group = &mut groups[place];
    group.carry = carry;
}
