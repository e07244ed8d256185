//! `arbiter_settle`: the least numbers that owners set for goals, called from C.
ghost use Rattle.std.specs.Prelude.{◌≡◌, ◌<◌, ◌∷◌, [], ◌&&◌, length, true, IfOk, IfErr, OnOk};
ghost use Rattle.bw_columns.specs.Asked.{are_of_length, asked_host, asked_table, groups_in};
ghost use Rattle.bw_columns.specs.Asked.{asked_number_where, groups_asked, refusal_where};
ghost use Rattle.bw_columns.specs.FromRoot.{measure_of};
ghost use Rattle.bw_columns.specs.Numbers.{number_of_refusal};
ghost use Rattle.bw_settings.specs.Following.{follows_of, AreOneEach};
ghost use Rattle.bw_settings.specs.Several.{aims_of, AreAsMany};
ghost use Rattle.bw_exports.specs.Settings.{follows_in, aims_in, settling_number};
ghost use Rattle.bw_exports.specs.Settings.{IsGoalRefused, IsSettlingOf, IsSettlingRefused};
ghost use Rattle.bw_exports.specs.Settings.{IsSettlingTold};

use bw_columns::{Columns, Host, NO_LIMIT, Refusal, instance_where, measure_of};
use bw_model::Instance;
use bw_settings::{Following, Goals, Settling, settle};
use std::alloc::{AllocError, Global};

// Whether each column of rows has so many entries.
fn rows_are_fit(count: usize, following: &Following<'_>) -> bool
    ensures { result ≡ are_of_length count (following.now.formulas.now ∷ following.now.floors.now
        ∷ following.now.bases.now ∷ []) }
{
    following.formulas.len() == count
        && following.floors.len() == count
        && following.bases.len() == count
}

// Whether each column of goals has as many entries as there are numbers.
fn goals_are_fit(count: usize, goals: &Goals<'_>) -> bool
    ensures owners { result ≡ true → length goals.now.owners.now ≡ count }
    ensures fit { result ≡ are_of_length count (goals.now.groups.now ∷ goals.now.amounts.now
        ∷ goals.now.owners.now ∷ goals.now.tops.now ∷ goals.now.firsts.now ∷ goals.now.lasts.now
        ∷ []) }
{
    goals.groups.len() == count
        && goals.amounts.len() == count
        && goals.owners.len() == count
        && goals.tops.len() == count
        && goals.firsts.len() == count
        && goals.lasts.len() == count
}

// Whether each column has so many entries: those of rows, and those of goals.
fn are_fit(rows: usize, count: usize, following: &Following<'_>, goals: &Goals<'_>) -> bool
    ensures owners { result ≡ true → length goals.now.owners.now ≡ count }
    ensures fit { result ≡ (are_of_length rows (following.now.formulas.now
        ∷ following.now.floors.now ∷ following.now.bases.now ∷ [])
        && are_of_length count (goals.now.groups.now ∷ goals.now.amounts.now
        ∷ goals.now.owners.now ∷ goals.now.tops.now ∷ goals.now.firsts.now ∷ goals.now.lasts.now
        ∷ [])) }
{
    rows_are_fit(rows, following) && goals_are_fit(count, goals)
}

// The number of an end of passes over so many goals.
fn settling_number(count: usize, settling: Settling) -> u64
    ensures { result ≡ settling_number count settling }
{
    match settling {
        Settling::Settled => NO_LIMIT,
        Settling::Stuck(k) => k as u64,
        Settling::Unsettled | Settling::Untold => count as u64,
    }
}

// The end of passes over goals, and the numbers of their owners.
#[derive(Drop)]
struct Found {
    settling: Settling,
    numbers: Vec<u64>,
}

fn copied(alloc: Global, numbers: &[u64]) -> Result<Vec<u64>, AllocError>
    ensures { IfOk result (λ copy. copy.items ≡ numbers.now) }
{
    numbers.iter().copied().collect(alloc)
}

// The numbers of owners for goals of an instance. They begin with the first of each range.
fn settled_in(
    alloc: Global,
    instance: &Instance,
    following: &Following<'_>,
    goals: &Goals<'_>,
) -> Result<Found, Refusal>
    requires columns { AreOneEach instance.now (follows_of following.now) }
    requires goals { AreAsMany (aims_of goals.now) }
    ensures told { IfOk result (λ found. IsSettlingOf instance.now (follows_of following.now)
        (aims_of goals.now) found.numbers.items found.settling) }
    ensures as_many { IfOk result
        (λ found. length found.numbers.items ≡ length goals.now.owners.now) }
    ensures err { IfErr result
        (λ e. IsGoalRefused instance.now (aims_of goals.now) (number_of_refusal e)) }
{
    match goals.first_astray(instance) {
        Some(_) => Err(Refusal::NotFound),
        None => {
            let mut numbers = copied(alloc, goals.firsts)?;
            let settling = settle(alloc, instance, following, goals, numbers.as_mut_slice())?;
            Ok(Found { settling, numbers })
        }
    }
}

// The numbers of owners for goals of groups of a host and its rows.
fn settled_of(
    alloc: Global,
    fit: bool,
    host: Host,
    columns: &Columns<'_>,
    following: &Following<'_>,
    goals: &Goals<'_>,
) -> Result<Found, Refusal>
    requires formulas { fit ≡ true
        → length following.now.formulas.now ≡ length columns.now.parents.now }
    requires floors { fit ≡ true
        → length following.now.floors.now ≡ length columns.now.parents.now }
    requires bases { fit ≡ true
        → length following.now.bases.now ≡ length columns.now.parents.now }
    requires goals { fit ≡ true → AreAsMany (aims_of goals.now) }
    ensures fit { OnOk result (fit ≡ true) }
    ensures told { IfOk result (λ found. IsSettlingOf (groups_asked host columns.now)
        (follows_of following.now) (aims_of goals.now) found.numbers.items found.settling) }
    ensures as_many { IfOk result
        (λ found. length found.numbers.items ≡ length goals.now.owners.now) }
    ensures err { IfErr result (λ e. IsSettlingRefused (refusal_where fit host columns.now)
        (groups_asked host columns.now) (aims_of goals.now) (number_of_refusal e)) }
{
    let instance = instance_where(alloc, fit, host, columns)?;
    settled_in(alloc, &instance, following, goals)
}

/// The least numbers of their ranges that owners can set, with which groups get at least so many
/// slices: each is the least beside the others.
///
/// The rows are those of [`crate::plan_calls::arbiter_plan`]. A goal has its group, the slices of a
/// period that it is to get, and the row of its owner's number: the group, one above it or below
/// it. The plan is to give them or, if `guaranteed` is not 0, the group is to get them whatever the
/// groups ask for that are not under it. The number is one from the goal's `firsts` to its `lasts`.
/// The owner's row has it, and those above it up to the row of `tops`.
///
/// `formulas` has the number of a formula for each row whose weight follows, as
/// [`crate::owned_calls::arbiter_owned_weight`] has it, and 0 or any other number for a row
/// whose weight stays. A row's number is what `bases` has and the numbers that it has of goals, up
/// to the greatest one, and no less than what `floors` has. So the request of a container is that
/// of the container, and with those of the others that of its pod and of the pod's class. The
/// weight of row 0 stays.
///
/// Each number begins as the first of its range, and becomes the least with which its goal is met,
/// the others as they are then, goal after goal. `stuck` is the greatest number of 64 bits once
/// none changes: all goals are met then. It is the place of a goal that no number of its range
/// meets beside the others. It is the number of goals if numbers still change after 50 passes, or
/// if logarithms do not tell a weight, which no test has seen. A pass makes two plans for each
/// number that stays, one where that is the first of its range, and else one for each halving.
///
/// The answer is 0 if `numbers` and `stuck` are written. A refusal leaves both unchanged.
///
/// # Errors
/// The numbers of `arbiter_plan`, with 50 also if a column does not have the length of the rows or
/// of `numbers`. After those of the rows 20 if a goal's group or its owner's row is no row, or
/// neither of them is the other or below it.
#[unsafe(no_mangle)]
pub extern "C" fn arbiter_settle(
    alloc: Global,
    processors: u64,
    period_us: u64,
    slice_us: u64,
    parents: &[u32],
    weights: &[u64],
    limits: &[u64],
    demands: &[u64],
    formulas: &[u32],
    floors: &[u64],
    bases: &[u64],
    groups: &[u32],
    amounts: &[u64],
    owners: &[u32],
    tops: &[u32],
    firsts: &[u64],
    lasts: &[u64],
    guaranteed: u32,
    numbers: &mut [u64],
    stuck: &mut u64,
) -> u32
    ensures told { result ≡ 0
        → IsSettlingTold (groups_in (asked_host processors period_us slice_us)
        (asked_table parents.now weights.now limits.now demands.now))
        (follows_in formulas.now floors.now bases.now)
        (aims_in (measure_of guaranteed) groups.now amounts.now owners.now tops.now firsts.now
        lasts.now) numbers.new stuck.new }
    ensures refused { 0 < result → IsSettlingRefused (asked_number_where
        (are_of_length (length parents.now) (formulas.now ∷ floors.now ∷ bases.now ∷ [])
        && are_of_length (length numbers.old) (groups.now ∷ amounts.now ∷ owners.now ∷ tops.now
        ∷ firsts.now ∷ lasts.now ∷ []))
        (asked_host processors period_us slice_us)
        (asked_table parents.now weights.now limits.now demands.now))
        (groups_in (asked_host processors period_us slice_us)
        (asked_table parents.now weights.now limits.now demands.now))
        (aims_in (measure_of guaranteed) groups.now amounts.now owners.now tops.now firsts.now
        lasts.now) result }
    ensures numbers_kept { 0 < result → numbers.new ≡ numbers.old }
    ensures stuck_kept { 0 < result → stuck.new ≡ stuck.old }
{
    let following = Following {
        formulas,
        floors,
        bases,
    };
    let goals = Goals {
        measure: measure_of(guaranteed),
        groups,
        amounts,
        owners,
        tops,
        firsts,
        lasts,
    };
    let fit = are_fit(parents.len(), numbers.len(), &following, &goals);
    let host = Host::new(processors, period_us, slice_us);
    let columns = Columns::new(parents, weights, limits, demands);
    match settled_of(alloc, fit, host, &columns, &following, &goals) {
        Ok(found) => {
            numbers.copy_from_slice(found.numbers.as_slice());
            *stuck = settling_number(owners.len(), found.settling);
            0
        }
        Err(refusal) => refusal.number(),
    }
}
