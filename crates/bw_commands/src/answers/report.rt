//! The answer to `report`.
ghost use Rattle.bw_commands.specs.Answers.{Answers};
ghost use Rattle.bw_commands.specs.Reported.{IsReport};

use super::line::{Line, put_lines};
use bw_hierarchy::{Fault, Hierarchy};
use bw_stat::report_head;
use std::alloc::Global;

/// Appends the answer to `report`: the head line and, for each group in order of creation, its
/// counters and its path.
///
/// # Errors
///
/// `OutOfMemory` if an allocation failed.
pub fn put_report(alloc: Global, hierarchy: &Hierarchy, answer: &mut Vec<u8>) -> Result<(), Fault>
    ensures { Answers (IsReport hierarchy.now) answer.old answer.new result }
{
    answer.extend_from_slice(report_head().as_bytes())?;
    let line = Line::Counters(hierarchy.books());
    put_lines(alloc, line, hierarchy.tree(), answer)?;
    Ok(())
}
