//! The plan, one depth after another, with the groups of a depth side by side.
ghost use Rattle.std.specs.Prelude.{◌≡◌, ◌+◌, ◌*◌, ◌<◌, ◌≤◌, ◌↔◌, None, length};
ghost use Rattle.std.specs.Prelude.{All, IfOk, IfSome, OnOk};
ghost use Rattle.bw_model.specs.Plan.{IsPlan};
ghost use Rattle.bw_demand.specs.Demands.{demands_of, IsGathered};
ghost use Rattle.bw_demand.specs.ByDepth.{AreByDepth, rows_of_depth};
ghost use Rattle.bw_plan.specs.Pieces.{sharers, sharers_of_all, IsPiece, HasOnePiece};
ghost use Rattle.bw_plan.specs.Shared.{CanShare, IsPlanning, is_above};
ghost use Rattle.bw_plan.specs.Cost.{wide_groups, IsCounted, AreCountedParts, ArePartsOfEach};
ghost use Rattle.bw_plan.specs.Reached.{IsReached};

use crate::by_rows::plan_rows_counted;
use crate::counted_parts::CountedParts;
use crate::plan_type::Plan;
use crate::share::{counted_parts_of, give, share_out};
use bw_demand::{Gathered, gather_rows, levels};
use bw_model::Instance;
use bw_model::limits::MAX_GROUPS;
use bw_split::Work;
use bw_split::limits::MAX_ROUNDS;
use rayon::current_num_threads;
use rayon::prelude::*;
use std::alloc::{AllocError, Global};
use std::thread::Threads;

/// Least number of children to split among in one piece of work. Several threads pay where the
/// groups of a depth have twice as many.
pub(crate) const PIECE_CHILDREN: usize = 2048;

// Number of children of a group that share its amount: 0 for an only child, which gets all. A
// product in place of a branch, since which groups have several children is hard to predict.
fn sharers(instance: &Instance, g: u32) -> usize
    requires { g < length instance.now.rows }
    ensures is { result ≡ sharers instance.now.rows g }
    ensures small { result ≤ MAX_GROUPS }
{
    // its contract bounds the number of rows
    let _rows = instance.rows();
    let children = instance.children(g).len();
    children * usize::from(children > 1)
}

// Whether the groups below the root have enough sharers for two pieces. The root is alone at its
// depth. Small trees return early, and others at the first group by which there are enough.
fn may_be_cut(instance: &Instance) -> bool {
    if instance.group_count() as usize <= 2 * PIECE_CHILDREN {
        return false;
    }
    let mut sharing = 0usize;
    for g in 1..instance.group_count() {
        sharing += sharers(instance, g);
        if sharing >= 2 * PIECE_CHILDREN {
            return true;
        }
    }
    false
}

// Number of groups in each piece of work, or None if one thread is as fast as several.
fn piece_of(instance: &Instance, groups: &[u32]) -> Option<usize>
    requires rows { All (λ g. g < length instance.now.rows) groups.now }
    requires each { length groups.now ≤ MAX_GROUPS }
    ensures piece { IfSome result (IsPiece PIECE_CHILDREN (length groups.now)
        (sharers_of_all instance.now.rows groups.now)) }
    ensures none { HasOnePiece PIECE_CHILDREN (length groups.now)
        (sharers_of_all instance.now.rows groups.now) ↔ (result ≡ None) }
{
    let mut split_among = 0usize;
    for g in groups {
        split_among += sharers(instance, *g);
    }
    if groups.len() < 2 || split_among < 2 * PIECE_CHILDREN {
        return None;
    }
    Some(groups.len() * PIECE_CHILDREN / split_among)
}

// The parts of each of these groups, in order, from several threads. Each has a count of its own.
fn parts_of_each(
    rt: &(impl Threads + Sync),
    alloc: Global,
    instance: &Instance,
    most: &[u64],
    amounts: &[u64],
    groups: &[u32],
    piece: usize,
) -> Result<Vec<CountedParts>, AllocError>
    requires { All (CanShare instance.now most.now amounts.now) groups.now }
    ensures { IfOk result
        (λ parts. ArePartsOfEach instance.now most.now amounts.now groups.now parts.items) }
{
    groups
        .par_iter()
        .with_min_len(piece)
        .map(
            |g: &u32| -> Result<CountedParts, AllocError>
                requires { CanShare instance.now most.now amounts.now g.now }
                ensures { IfOk result (λ counted. AreCountedParts instance.entry.now most.entry.now
                    amounts.entry.now g.now counted) }
            { counted_parts_of(alloc, instance, most, amounts, *g) },
        )
        .collect::<Result<Vec<CountedParts>, AllocError>>(rt, alloc)?
}

// The rows of one depth.
fn rows_at<'a>(instance: &Instance, depths: &'a [Vec<u32>], depth: usize) -> &'a [u32]
    requires depths { AreByDepth instance.now.rows depths.now }
    requires depth { depth < length depths.now }
    ensures { result.now ≡ rows_of_depth instance.now.rows depth }
{
    depths[depth].as_slice()
}

// The groups of one depth share out what they have, one after another.
fn share_in_place(
    alloc: Global,
    instance: &Instance,
    most: &[u64],
    depths: &[Vec<u32>],
    depth: usize,
    amounts: &mut Vec<u64>,
    work: &mut Work,
) -> Result<(), AllocError>
    requires { IsReached instance.now most.now depths.now depth amounts.old.items }
    ensures planning { OnOk result (IsPlanning instance.now most.now
        (is_above instance.now.rows (depth + 1)) amounts.new.items) }
    ensures counted { IsCounted instance.now.rows (is_above instance.now.rows depth)
        (is_above instance.now.rows (depth + 1)) work.old work.new }
{
    // its contract says that the rows are a tree
    let _rows = instance.rows();
    let groups = rows_at(instance, depths, depth);
    for k in 0..groups.len() {
        share_out(alloc, instance, most, groups[k], amounts, work)?;
    }
    Ok(())
}

// As `share_in_place`, with the splits side by side, and one thread that writes them and adds up
// their counts.
fn share_in_pieces(
    rt: &(impl Threads + Sync),
    alloc: Global,
    instance: &Instance,
    most: &[u64],
    depths: &[Vec<u32>],
    depth: usize,
    piece: usize,
    amounts: &mut Vec<u64>,
    work: &mut Work,
) -> Result<(), AllocError>
    requires { IsReached instance.now most.now depths.now depth amounts.old.items }
    ensures planning { OnOk result (IsPlanning instance.now most.now
        (is_above instance.now.rows (depth + 1)) amounts.new.items) }
    ensures counted { IsCounted instance.now.rows (is_above instance.now.rows depth)
        (is_above instance.now.rows (depth + 1)) work.old work.new }
{
    // its contract says that the rows are a tree
    let _rows = instance.rows();
    let groups = rows_at(instance, depths, depth);
    let parts = parts_of_each(rt, alloc, instance, most, amounts.as_slice(), groups, piece)?;
    for k in 0..groups.len() {
        let counted = &parts[k];
        give(instance, groups[k], counted.parts.as_slice(), amounts);
        work.add(&counted.work);
    }
    Ok(())
}

// The groups of one depth share out what they have.
fn share_depth(
    rt: &(impl Threads + Sync),
    alloc: Global,
    instance: &Instance,
    most: &[u64],
    depths: &[Vec<u32>],
    depth: usize,
    amounts: &mut Vec<u64>,
    work: &mut Work,
) -> Result<(), AllocError>
    requires { IsReached instance.now most.now depths.now depth amounts.old.items }
    ensures planning { OnOk result (IsPlanning instance.now most.now
        (is_above instance.now.rows (depth + 1)) amounts.new.items) }
    ensures counted { IsCounted instance.now.rows (is_above instance.now.rows depth)
        (is_above instance.now.rows (depth + 1)) work.old work.new }
{
    // its contract bounds the number of rows
    let _rows = instance.rows();
    let groups = rows_at(instance, depths, depth);
    match piece_of(instance, groups) {
        None => share_in_place(alloc, instance, most, depths, depth, amounts, work),
        Some(piece) => {
            share_in_pieces(
                rt, alloc, instance, most, depths, depth, piece, amounts, work,
            )
        }
    }
}

// The plan, one depth after another from the root down.
fn plan_each_depth(
    rt: &(impl Threads + Sync),
    alloc: Global,
    instance: &Instance,
    depths: &[Vec<u32>],
    gathered: &Gathered,
    work: &mut Work,
) -> Result<Plan, AllocError>
    requires depths { AreByDepth instance.now.rows depths.now }
    requires gathered { IsGathered instance.now (demands_of gathered.now) }
    ensures plan { IfOk result (λ plan. IsPlan instance.now plan.amounts.items) }
    ensures rounds { work.new.rounds
        ≤ work.old.rounds + MAX_ROUNDS * wide_groups instance.now.rows }
    ensures picks { work.new.picks ≤ work.old.picks + length instance.now.rows }
    ensures counted { (work.old.rounds ≤ work.new.rounds) × (work.old.picks ≤ work.new.picks) }
{
    let most = gathered.most.as_slice();
    let mut amounts = vec![in alloc; 0u64; instance.rows().len()]?;
    amounts[0] = most[0];
    // the groups of the last depth are leaves
    for below in 1..depths.len() {
        share_depth(
            rt,
            alloc,
            instance,
            most,
            depths,
            below - 1,
            &mut amounts,
            work,
        )?;
    }
    Ok(Plan { amounts })
}

/// [`plan_levels`] for a caller that has gathered the demands.
///
/// # Errors
/// `AllocError` if memory was refused.
pub fn plan_gathered(
    rt: &(impl Threads + Sync),
    alloc: Global,
    instance: &Instance,
    gathered: &Gathered,
) -> Result<Plan, AllocError>
    requires { IsGathered instance.now (demands_of gathered.now) }
    ensures { IfOk result (λ plan. IsPlan instance.now plan.amounts.items) }
{
    plan_gathered_counted(rt, alloc, instance, gathered, &mut Work::new())
}

/// [`plan_levels_counted`] for a caller that has gathered the demands.
///
/// # Errors
/// `AllocError` if memory was refused.
pub fn plan_gathered_counted(
    rt: &(impl Threads + Sync),
    alloc: Global,
    instance: &Instance,
    gathered: &Gathered,
    work: &mut Work,
) -> Result<Plan, AllocError>
    requires { IsGathered instance.now (demands_of gathered.now) }
    ensures plan { IfOk result (λ plan. IsPlan instance.now plan.amounts.items) }
    ensures rounds { work.new.rounds
        ≤ work.old.rounds + MAX_ROUNDS * wide_groups instance.now.rows }
    ensures picks { work.new.picks ≤ work.old.picks + length instance.now.rows }
    ensures counted { (work.old.rounds ≤ work.new.rounds) × (work.old.picks ≤ work.new.picks) }
{
    // on one thread pieces take turns
    if current_num_threads(rt) < 2 || !may_be_cut(instance) {
        return plan_rows_counted(alloc, instance, gathered, work);
    }
    let depths = levels(alloc, instance)?;
    plan_each_depth(rt, alloc, instance, depths.as_slice(), gathered, work)
}

/// The one plan of an instance, as [`plan`](crate::plan) gives it, one depth after another from the
/// root down. The groups of a depth are split in several threads if they have many children.
///
/// # Errors
/// `AllocError` if memory was refused.
pub fn plan_levels(
    rt: &(impl Threads + Sync),
    alloc: Global,
    instance: &Instance,
) -> Result<Plan, AllocError>
    ensures { IfOk result (λ plan. IsPlan instance.now plan.amounts.items) }
{
    plan_levels_counted(rt, alloc, instance, &mut Work::new())
}

/// [`plan_levels`], with the rounds and picks of its splits added to a count, as
/// [`plan_counted`](crate::plan_counted) adds them.
///
/// # Errors
/// `AllocError` if memory was refused. The splits of the depth that it stopped at are then left out
/// of the count, if they were made in several threads.
pub fn plan_levels_counted(
    rt: &(impl Threads + Sync),
    alloc: Global,
    instance: &Instance,
    work: &mut Work,
) -> Result<Plan, AllocError>
    ensures plan { IfOk result (λ plan. IsPlan instance.now plan.amounts.items) }
    ensures rounds { work.new.rounds
        ≤ work.old.rounds + MAX_ROUNDS * wide_groups instance.now.rows }
    ensures picks { work.new.picks ≤ work.old.picks + length instance.now.rows }
    ensures counted { (work.old.rounds ≤ work.new.rounds) × (work.old.picks ≤ work.new.picks) }
{
    let gathered = gather_rows(alloc, instance)?;
    plan_gathered_counted(rt, alloc, instance, &gathered, work)
}
