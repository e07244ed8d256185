//! Reads and sets the settings of a group, by its id.
ghost use Rattle.std.specs.Prelude.{◌≡◌, ◌≤◌, ◌∷◌, [], ◌<◌, length, OnOk, OnErr, IfOk, IfErr};
ghost use Rattle.std.specs.Prelude.{IfSome, MatchOption, Ok, Err, Some, None, Option};
ghost use Rattle.std.specs.Option.{option_map};
ghost use Rattle.std.specs.List.{slice_split};
ghost use Rattle.std.specs.Path.{rsplit_once};
ghost use Rattle.bw_model.specs.Quota.{IsValid};
ghost use Rattle.bw_tree.specs.Groups.{find_path, group_at, IsTree};
ghost use Rattle.bw_tree.specs.Tree.{setting_refusal, with_setting, set_max, set_burst};
ghost use Rattle.bw_hierarchy.specs.Faults.{IsRefusal, IsMemoryLast};
ghost use Rattle.bw_hierarchy.specs.Calls.{setting, set_shares_of, quota_of_int};
ghost use Rattle.bw_hierarchy.specs.Calls.{int_of_quota, quota_given, checked_period, is_above};
ghost use Rattle.bw_hierarchy.specs.Calls.{fitting, quota_at, burst_at, max_set, set_cfs_of};
ghost use Rattle.bw_hierarchy.specs.Calls.{value_at};

use crate::fault::Fault;
use bw_files::{FileFault, check_period, check_quota, check_weight};
use bw_model::Quota;
use bw_model::limits::{MAX_BURST_US, MAX_PERIOD_US, MIN_PERIOD_US};
use bw_tree::{Group, GroupId, Tree, TreeFault};

// Group with this id, whose settings may be read and set: any but the root.
fn setting(tree: &Tree, id: GroupId) -> Result<&Group, Fault>
    ensures found { IfOk result (λ g. setting tree.now id ≡ Ok g.now) }
    ensures refused { IfErr result (λ e. setting tree.now id ≡ Err e) }
    ensures free { OnOk result (setting_refusal tree.now id ≡ None) }
    ensures valid { IfOk result (λ g. IsValid g.now.quota) }
{
    let Some(group) = tree.group(id) else {
        return Err(Fault::Tree(TreeFault::NotFound));
    };
    if id == 0 {
        return Err(Fault::Tree(TreeFault::RootFixed));
    }
    Ok(group)
}

// Quota of -1 (no limit) or of 1000 to 10^15 microseconds; a fault for any other number.
fn quota_of_int(quota: i64) -> Result<Quota, FileFault>
    ensures value { result ≡ quota_of_int quota }
    ensures valid { IfOk result (λ q. IsValid q) }
{
    if quota == -1 {
        return Ok(Quota::Max);
    }
    if quota < 0 {
        return Err(FileFault::QuotaTooSmall);
    }
    check_quota(quota as u64)
}

// Sets a group's weight, 1 to 10000.
pub(crate) fn set_shares(tree: &mut Tree, id: GroupId, n: u64) -> Result<(), Fault>
    ensures set { OnOk result (set_shares_of tree.old id n ≡ Ok tree.new) }
    ensures refused { IfErr result (λ e. set_shares_of tree.old id n ≡ Err e) }
    ensures err { OnErr result (tree.new ≡ tree.old) }
{
    let _group = setting(tree, id)?;
    let weight = check_weight(n)?;
    Ok(tree.set_weight(id, weight)?)
}

// Quota of a group; no limit if there is no such group.
fn quota_at(tree: &Tree, id: GroupId) -> Quota
    ensures value { result ≡ quota_at (group_at tree.now.groups id) }
    ensures valid { IsValid result }
{
    match tree.group(id) {
        None => Quota::Max,
        Some(group) => group.quota,
    }
}

// Quota to set: the new one, if it is in its range, or the old one if none is given.
fn quota_given(quota: Option<i64>, old: Quota) -> Result<Quota, FileFault>
    requires { IsValid old }
    ensures value { result ≡ quota_given quota old }
    ensures valid { IfOk result (λ q. IsValid q) }
{
    match quota {
        None => Ok(old),
        Some(quota) => quota_of_int(quota),
    }
}

// Burst of a group in microseconds; 0 if there is no such group.
fn burst_at(tree: &Tree, id: GroupId) -> u64
    ensures { result ≡ burst_at (group_at tree.now.groups id) }
{
    match tree.group(id) {
        None => 0,
        Some(group) => group.burst,
    }
}

// Period to set, if any, checked to be 1000 to 1000000 microseconds.
fn checked_period(period: Option<u64>) -> Result<Option<u64>, FileFault>
    ensures value { result ≡ checked_period period }
    ensures range { IfOk result (λ p. IfSome p (λ n. (MIN_PERIOD_US ≤ n) × (n ≤ MAX_PERIOD_US))) }
{
    match period {
        None => Ok(None),
        Some(n) => Ok(Some(check_period(n)?)),
    }
}

// Whether a burst is above a quota.
fn is_above(burst: u64, quota: Quota) -> bool
    ensures { result ≡ is_above burst quota }
{
    match quota {
        Quota::Max => false,
        Quota::Micros(us) => us < burst,
    }
}

// Sets a group's quota, and its period if one is given.
fn write_max(tree: &mut Tree, id: GroupId, quota: Quota, period: Option<u64>) -> Result<(), Fault>
    requires settable { setting_refusal tree.old id ≡ None }
    requires quota { IsValid quota }
    requires period { IfSome period (λ n. (MIN_PERIOD_US ≤ n) × (n ≤ MAX_PERIOD_US)) }
    ensures set { OnOk result (tree.new ≡ with_setting (set_max quota period) tree.old id) }
    ensures never { IfErr result (λ e. ⊥) }
{
    tree.set_limit(id, quota)?;
    match period {
        None => Ok(()),
        Some(n) => Ok(tree.set_period(id, n)?),
    }
}

// Sets a group's quota, and its period if one is given, unless its burst is above the quota.
pub(crate) fn set_max(
    tree: &mut Tree,
    id: GroupId,
    quota: Quota,
    period: Option<u64>,
) -> Result<(), Fault>
    requires settable { setting_refusal tree.old id ≡ None }
    requires quota { IsValid quota }
    requires period { IfSome period (λ n. (MIN_PERIOD_US ≤ n) × (n ≤ MAX_PERIOD_US)) }
    ensures set { OnOk result (max_set tree.old id quota period ≡ Ok tree.new) }
    ensures refused { IfErr result (λ e. max_set tree.old id quota period ≡ Err e) }
    ensures err { OnErr result (tree.new ≡ tree.old) }
{
    if is_above(burst_at(tree, id), quota) {
        return Err(Fault::BurstAboveQuota);
    }
    write_max(tree, id, quota, period)
}

// Sets a group's burst in microseconds, unless it is above the quota.
pub(crate) fn set_burst(tree: &mut Tree, id: GroupId, burst: u64) -> Result<(), Fault>
    requires settable { setting_refusal tree.old id ≡ None }
    requires burst { burst ≤ MAX_BURST_US }
    ensures set { OnOk result
        (fitting burst (quota_at (group_at tree.old.groups id))
        (with_setting (set_burst burst) tree.old id) ≡ Ok tree.new) }
    ensures refused { IfErr result
        (λ e. fitting burst (quota_at (group_at tree.old.groups id))
        (with_setting (set_burst burst) tree.old id) ≡ Err e) }
    ensures err { OnErr result (tree.new ≡ tree.old) }
{
    if is_above(burst, quota_at(tree, id)) {
        return Err(Fault::BurstAboveQuota);
    }
    Ok(tree.set_burst(id, burst)?)
}

// Sets a group's quota and period. A value that is left out stays.
pub(crate) fn set_cfs(
    tree: &mut Tree,
    id: GroupId,
    quota: Option<i64>,
    period: Option<u64>,
) -> Result<(), Fault>
    ensures set { OnOk result (set_cfs_of tree.old id quota period ≡ Ok tree.new) }
    ensures refused { IfErr result (λ e. set_cfs_of tree.old id quota period ≡ Err e) }
    ensures err { OnErr result (tree.new ≡ tree.old) }
{
    let old = setting(tree, id)?.quota;
    let quota = quota_given(quota, old)?;
    let period = checked_period(period)?;
    set_max(tree, id, quota, period)
}

// Weight of a group that is not the root.
pub(crate) fn shares(tree: &Tree, id: GroupId) -> Result<u64, Fault>
    ensures { result ≡ value_at (λ g. g.weight) tree.now id }
{
    let group = setting(tree, id)?;
    Ok(group.weight)
}

fn int_of_quota(quota: Quota) -> i64
    requires { IsValid quota }
    ensures { result ≡ int_of_quota quota }
{
    match quota {
        Quota::Max => -1,
        Quota::Micros(us) => us as i64,
    }
}

// Quota in microseconds, -1 for no limit.
pub(crate) fn cfs_quota(tree: &Tree, id: GroupId) -> Result<i64, Fault>
    ensures { result ≡ value_at (λ g. int_of_quota g.quota) tree.now id }
{
    let group = setting(tree, id)?;
    Ok(int_of_quota(group.quota))
}

// Length of a group's own period in microseconds.
pub(crate) fn cfs_period(tree: &Tree, id: GroupId) -> Result<u64, Fault>
    ensures { result ≡ value_at (λ g. g.period) tree.now id }
{
    let group = setting(tree, id)?;
    Ok(group.period)
}
