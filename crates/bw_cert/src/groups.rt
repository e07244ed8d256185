//! Groups of a certified text, line by line.
ghost use Rattle.std.specs.Prelude.{◌≡◌, ◌≤◌};
ghost use Rattle.bw_cert.specs.Spelling.{text_lines, words_of};
ghost use Rattle.bw_cert.specs.Reading.{ReadsAs, seen, line_at, group_of, group_at, groups_at};
ghost use Rattle.bw_cert.specs.Reading.{group_view, columns_view};

use crate::fault::CertFault;
use crate::line_words::group_words;
use crate::spelled::spelled_group;
use crate::word_values::{flag, level, limit, number, parent};
use bw_model::limits::MAX_GROUPS;
use bw_model::{Certificate, HostShape, Instance, Mark, Row};
use bw_text::split_line;
use std::alloc::Global;

/// An instance, an amount in slices for each of its groups, and a certificate of the amounts.
#[derive(Debug, Drop)]
pub struct Certified {
    pub instance: Instance,
    pub amounts: Vec<u64>,
    pub certificate: Certificate,
}

/// The rows of an instance, an amount in slices for each of them, and a certificate of the amounts.
#[derive(Debug, Drop)]
pub struct CertifiedRows {
    pub shape: HostShape,
    pub rows: Vec<Row>,
    pub amounts: Vec<u64>,
    pub certificate: Certificate,
}

/// All values of a group's line.
#[derive(Clone, Copy)]
pub(crate) struct GroupLine {
    pub(crate) row: Row,
    pub(crate) amount: u64,
    pub(crate) flag: bool,
    pub(crate) level: Option<Mark>,
}

/// The values of the groups' lines, by column.
#[derive(Drop)]
pub(crate) struct Columns {
    pub(crate) rows: Vec<Row>,
    pub(crate) amounts: Vec<u64>,
    pub(crate) tight: Vec<bool>,
    pub(crate) levels: Vec<Option<Mark>>,
}

/// The first line, and the text after it.
pub(crate) fn first_line(text: &[u8]) -> Result<(&[u8], &[u8]), CertFault>
    ensures { seen (λ p. (p.0.now, text_lines p.1.now)) result ≡ line_at (text_lines text.now) }
{
    match split_line(text) {
        None => Err(CertFault::CutShort),
        Some((line, rest)) => Ok((line, rest)),
    }
}

// The values of one line.
#[tactic(auto, unfolding(crate::specs::Reading::group_of))]
fn group(line: &[u8]) -> Result<GroupLine, CertFault>
    ensures { seen group_view result ≡ group_of (words_of line.now) }
{
    let Some(words) = group_words(line) else {
        return Err(CertFault::BadLine);
    };
    let parent = parent(words.parent)?;
    let weight = number(words.weight)?;
    let limit = limit(words.limit)?;
    let demand = number(words.demand)?;
    let amount = number(words.amount)?;
    let flag = flag(words.flag)?;
    let level = level(words.level)?;
    let row = Row {
        parent,
        weight,
        limit,
        demand,
    };
    Ok(GroupLine {
        row,
        amount,
        flag,
        level,
    })
}

// The values of the first line, read word by word, and the text after it.
// in a function of its own, so that the loop of `groups` has the registers
#[inline(never)]
fn group_by_words(text: &[u8]) -> Result<(GroupLine, &[u8]), CertFault>
    ensures { seen (λ p. (group_view p.0, text_lines p.1.now)) result
        ≡ group_at (text_lines text.now) }
{
    let (line, rest) = first_line(text)?;
    let read = group(line)?;
    Ok((read, rest))
}

/// Reads `count` groups. Returns them with the text after their lines.
// in a function of its own, so that the loop has the registers
#[inline(never)]
pub(crate) fn groups(alloc: Global, count: u64, text: &[u8]) -> Result<(Columns, &[u8]), CertFault>
    requires { count ≤ MAX_GROUPS }
    ensures { ReadsAs (λ p. (columns_view p.0, text_lines p.1.now)) result
        (groups_at count (text_lines text.now)) }
{
    let room = count as usize;
    let mut rows = Vec::with_capacity(alloc, room)?;
    let mut amounts = Vec::with_capacity(alloc, room)?;
    let mut tight = Vec::with_capacity(alloc, room)?;
    let mut levels = Vec::with_capacity(alloc, room)?;
    let mut rest = text;
    for _ in 0..count {
        // pushed here too, since values that wait for the other way are moved through memory
        if let Some((next, after)) = spelled_group(rest) {
            rows.push_reserved(next.row);
            amounts.push_reserved(next.amount);
            tight.push_reserved(next.flag);
            levels.push_reserved(next.level);
            rest = after;
            continue;
        }
        let (next, after) = group_by_words(rest)?;
        rows.push_reserved(next.row);
        amounts.push_reserved(next.amount);
        tight.push_reserved(next.flag);
        levels.push_reserved(next.level);
        rest = after;
    }
    let columns = Columns {
        rows,
        amounts,
        tight,
        levels,
    };
    Ok((columns, rest))
}
