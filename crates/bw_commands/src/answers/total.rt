//! The answer to `total`.
ghost use Rattle.std.specs.Prelude.{◌≡◌, ◌≤◌, ◌<◌, ◌++◌, ◌∷◌, [], ℕ, List, Some, codes, length};
ghost use Rattle.std.specs.Prelude.{unwrap_or, slice_index, string_bytes, OnOk, IfOk, IfErr};
ghost use Rattle.std.specs.Fmt.{decimal};
ghost use Rattle.std.specs.Map.{keys_of};
ghost use Rattle.std.specs.Vec.{vec_capacity};
ghost use Rattle.bw_model.specs.Groups.{limit_of};
ghost use Rattle.bw_model.specs.Demand.{limited_total};
ghost use Rattle.bw_demand.specs.Demands.{demands_of, IsGathered};
ghost use Rattle.bw_commands.specs.Answers.{Answers};
ghost use Rattle.bw_commands.specs.GroupLines.{IsPathOf, ArePathsOf};
ghost use Rattle.bw_commands.specs.Total.{IsTotal, limit_line, limit_lines};

use bw_demand::{Gathered, gather_rows, limiting};
use bw_hierarchy::{Fault, Hierarchy};
use bw_model::Instance;
use bw_streams::{put_last_word, put_number, put_number_line};
use bw_tree::{Tree, TreeFault};
use std::alloc::Global;

/// Appends the answer to `total`: the greatest total, a line for each limiting group in order of
/// creation, and the demands outside them, in slices of one period.
///
/// # Errors
///
/// `OutOfMemory` if an allocation failed.
pub fn put_total(
    alloc: Global,
    hierarchy: &mut Hierarchy,
    answer: &mut Vec<u8>,
) -> Result<(), Fault>
    ensures answers { Answers (IsTotal hierarchy.old) answer.old answer.new result }
    ensures same { hierarchy.new ≡ hierarchy.old }
{
    let snapshot = hierarchy.take_snapshot()?;
    let instance = &snapshot.instance;
    let gathered = gather_rows(alloc, instance)?;
    let limits = limiting(alloc, instance, &gathered)?;
    let total = total_of(instance, &gathered);
    put_number_line(b"total ", total, answer)?;
    let groups = limits.groups.as_slice();
    put_limits(hierarchy.tree(), instance, groups, answer)?;
    put_number_line(b"demand ", limits.rest, answer)?;
    hierarchy.keep(snapshot);
    Ok(())
}

// The greatest total: the most of the root.
fn total_of(instance: &Instance, gathered: &Gathered) -> u64
    requires { IsGathered instance.now (demands_of gathered.now) }
    ensures { result ≡ limited_total instance.now gathered.now.most.items }
{
    // its contract says that there is a root
    let _rows = instance.rows();
    gathered.most[0]
}

// Appends a line for each of these rows.
fn put_limits(
    tree: &Tree,
    instance: &Instance,
    groups: &[u32],
    answer: &mut Vec<u8>,
) -> Result<(), Fault>
    requires each { length (keys_of tree.now.groups) ≡ length instance.now.rows }
    requires within { (k : ℕ) → k < length groups.now
        → slice_index groups.now k < length instance.now.rows }
    ensures ok { OnOk result ((paths : List (List ℕ)) × ArePathsOf tree.now groups.now paths
        × (answer.new.items ≡ answer.old.items
        ++ limit_lines instance.now groups.now paths)) }
    ensures err { IfErr result (λ fault. fault ≡ Fault.Tree TreeFault.OutOfMemory) }
    ensures room { vec_capacity answer.old ≤ vec_capacity answer.new }
{
    for g in groups {
        put_limit(tree, instance, *g, answer)?;
    }
    Ok(())
}

// Appends the line of one row.
fn put_limit(tree: &Tree, instance: &Instance, g: u32, answer: &mut Vec<u8>) -> Result<(), Fault>
    requires each { length (keys_of tree.now.groups) ≡ length instance.now.rows }
    requires within { g < length instance.now.rows }
    ensures ok { OnOk result ((path : List ℕ) × IsPathOf tree.now g path
        × (answer.new.items ≡ answer.old.items ++ limit_line instance.now g path)) }
    ensures err { IfErr result (λ fault. fault ≡ Fault.Tree TreeFault.OutOfMemory) }
    ensures room { vec_capacity answer.old ≤ vec_capacity answer.new }
{
    let path = path_of(tree, g as usize)?;
    let limit = instance.limit(g).unwrap_or(0);
    put_number(b"limit ", limit, answer)?;
    put_last_word(path.as_bytes(), answer)?;
    Ok(())
}

// The path of the group of a row.
fn path_of(tree: &Tree, g: usize) -> Result<String, TreeFault>
    requires { g < length (keys_of tree.now.groups) }
    ensures path { IfOk result (λ path. IsPathOf tree.now g (string_bytes path)) }
    ensures err { IfErr result (λ fault. fault ≡ TreeFault.OutOfMemory) }
{
    tree.path_of(tree.entry_of_row(g).id)
}
