//! The lines of all groups: what an answer tells of a group, and then its path.
ghost use Rattle.std.specs.Prelude.{◌≡◌, ◌≤◌, ◌<◌, ◌++◌, ℕ, List, codes, length, OnOk};
ghost use Rattle.std.specs.Fmt.{decimal};
ghost use Rattle.std.specs.List.{range_with_len};
ghost use Rattle.std.specs.Map.{keys_of};
ghost use Rattle.std.specs.Vec.{vec_capacity};
ghost use Rattle.bw_stat.specs.Report.{report_line};
ghost use Rattle.bw_commands.specs.GroupLines.{ArePathsOf, group_lines};
ghost use Rattle.bw_commands.specs.LineText.{line_at, line_of, HasRow, IsHead};

use super::paths::put_path;
use crate::span::Span;
use bw_model::Stat;
use bw_stat::{Books, put_counters};
use bw_streams::put_digits;
use bw_tree::{GroupId, Tree};
use std::alloc::{AllocError, Global};

/// The numbers that an answer prints for each group.
#[derive(Clone, Copy)]
pub enum Line<'a> {
    /// The slices that it gets in one period, by its row.
    Amount(&'a [u64]),
    /// The counters booked for its id.
    Counters(&'a Books),
}

/// Appends the line of each group of a tree, in order of creation.
///
/// # Errors
///
/// `AllocError` if an allocation failed.
pub fn put_lines(
    alloc: Global,
    line: Line<'_>,
    tree: &Tree,
    answer: &mut Vec<u8>,
) -> Result<(), AllocError>
    requires { (g : ℕ) → g < length (keys_of tree.now.groups) → HasRow line g }
    ensures ok { OnOk result ((paths : List (List ℕ))
        × ArePathsOf tree.now (range_with_len 0 (length (keys_of tree.now.groups))) paths
        × (answer.new.items ≡ answer.old.items
        ++ group_lines (line_of line.entry (keys_of tree.now.groups))
        (range_with_len 0 (length (keys_of tree.now.groups))) paths)) }
    ensures room { vec_capacity answer.old ≤ vec_capacity answer.new }
{
    let count = tree.group_count();
    let mut spans = Vec::with_capacity(alloc, count)?;
    for g in 0..count {
        let group = tree.entry_of_row(g);
        put_head(line, g, group.id, answer)?;
        let start = answer.len();
        put_path(answer, spans.as_slice(), group.parent, group.name)?;
        let end = answer.len();
        answer.push(b'\n')?;
        spans.push_reserved(Span { start, end });
    }
    Ok(())
}

// Appends the line of one group, by its row and its id, up to its path.
fn put_head(line: Line<'_>, g: usize, id: GroupId, answer: &mut Vec<u8>) -> Result<(), AllocError>
    requires { HasRow line g }
    ensures ok { OnOk result ((head : List ℕ) × (answer.new.items ≡ answer.old.items ++ head)
        × IsHead (line_at line.entry g id) head) }
    ensures room { vec_capacity answer.old ≤ vec_capacity answer.new }
{
    match line {
        Line::Amount(amounts) => put_amount(amounts[g], answer),
        Line::Counters(books) => put_columns(&books.counters_near(g, id), answer),
    }
}

// Appends an amount and a space.
fn put_amount(amount: u64, answer: &mut Vec<u8>) -> Result<(), AllocError>
    ensures ok { OnOk result
        (answer.new.items ≡ answer.old.items ++ (decimal amount ++ codes " ")) }
    ensures room { vec_capacity answer.old ≤ vec_capacity answer.new }
{
    answer.reserve(21)?;
    put_digits(amount, answer);
    answer.push_reserved(b' ');
    Ok(())
}

// Appends the counters of a group, each with the space after it.
fn put_columns(stat: &Stat, answer: &mut Vec<u8>) -> Result<(), AllocError>
    ensures ok { OnOk result ((head : List ℕ) × (answer.new.items ≡ answer.old.items ++ head)
        × IsHead (report_line stat.now) head) }
    ensures room { vec_capacity answer.old ≤ vec_capacity answer.new }
{
    put_counters(stat, answer)?;
    Ok(())
}
