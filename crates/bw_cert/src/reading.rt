//! Reading of certified texts.
ghost use Rattle.std.specs.Prelude.{◌≡◌, ◌≤◌, Ok, IfOk};
ghost use Rattle.bw_cert.specs.Spelling.{Value, text_lines, words_of, spelling, IsValue};
ghost use Rattle.bw_model.specs.Groups.{IsInstance};
ghost use Rattle.bw_cert.specs.Reading.{ReadsAs, head_of, host_in, certified_of, certified_view};
ghost use Rattle.bw_cert.specs.Reading.{groups_read, rows_view};

use crate::fault::CertFault;
use crate::groups::{Certified, CertifiedRows, first_line, groups};
use crate::in_order::valid_rows;
use crate::line_words::head_words;
use crate::word_values::number;
use bw_model::limits::MAX_GROUPS;
use bw_model::{Certificate, HostShape, Instance, InstanceFault};
use std::alloc::Global;

// The host, and the number of groups that follow.
#[tactic(auto, unfolding(crate::specs::Reading::head_of))]
fn head(line: &[u8]) -> Result<(HostShape, u64), CertFault>
    ensures read { result ≡ head_of (words_of line.now) }
    ensures few { IfOk result (λ p. p.1 ≤ MAX_GROUPS) }
{
    let Some(words) = head_words(line) else {
        return Err(CertFault::BadLine);
    };
    if words.name != b"bw".as_slice() || words.version != b"1".as_slice() {
        return Err(CertFault::BadField);
    }
    let processors = number(words.processors)?;
    let period_us = number(words.period)?;
    let slice_us = number(words.slice)?;
    let count = number(words.groups)?;
    let shape = host(processors, period_us, slice_us)?;
    if count > MAX_GROUPS as u64 {
        return Err(CertFault::Instance(InstanceFault::TooMany));
    }
    Ok((shape, count))
}

fn host(processors: u64, period_us: u64, slice_us: u64) -> Result<HostShape, CertFault>
    ensures { result ≡ host_in processors period_us slice_us }
{
    match HostShape::new(processors, period_us, slice_us) {
        Ok(shape) => Ok(shape),
        Err(fault) => Err(CertFault::Host(fault)),
    }
}

// Reads all of the text.
#[tactic(auto, unfolding(crate::specs::Reading::certified_of))]
fn certified_rows(alloc: Global, text: &[u8]) -> Result<CertifiedRows, CertFault>
    ensures exact { ReadsAs rows_view result (certified_of (text_lines text.now)) }
    ensures valid { IfOk result (λ c. IsInstance (groups_read c)) }
{
    let (line, rest) = first_line(text)?;
    let (shape, count) = head(line)?;
    let (columns, rest) = groups(alloc, count, rest)?;
    if !rest.is_empty() {
        return Err(CertFault::Trailing);
    }
    let rows = match valid_rows(alloc, columns.rows, shape) {
        Ok(rows) => rows,
        Err(InstanceFault::OutOfMemory) => return Err(CertFault::OutOfMemory),
        Err(fault) => return Err(CertFault::Instance(fault)),
    };
    Ok(CertifiedRows {
        shape,
        rows,
        amounts: columns.amounts,
        certificate: Certificate {
            tight: columns.tight,
            levels: columns.levels,
        },
    })
}

// The instance of rows that were read.
fn certified(alloc: Global, text: &[u8]) -> Result<Certified, CertFault>
    ensures { ReadsAs certified_view result (certified_of (text_lines text.now)) }
{
    let read = certified_rows(alloc, text)?;
    let instance = Instance::of_valid(alloc, read.rows, read.shape)?;
    Ok(Certified {
        instance,
        amounts: read.amounts,
        certificate: read.certificate,
    })
}

/// The rows, amounts and certificate of a text, read in one pass. [`read_certified`] makes the
/// instance too, with its lists of children.
///
/// # Errors
/// Those of [`read_certified`].
pub fn read_certified_rows(alloc: Global, text: &[u8]) -> Result<CertifiedRows, CertFault>
    // The rows that are read are those of an instance, and the text is the value's spelling.
    ensures found { IfOk result
        (λ c. IsValue (rows_view c) × (text.now ≡ spelling (rows_view c))) }
    // A spelling is read as its value, unless memory was refused.
    ensures only { (v : Value) → IsValue v → text.now ≡ spelling v
        → ReadsAs rows_view result (Ok v) }
    // The fault is exactly this.
    ensures exact { ReadsAs rows_view result (certified_of (text_lines text.now)) }
{
    certified_rows(alloc, text)
}

/// The instance, amounts and certificate of a text, read in one pass.
///
/// # Errors
/// The first of these, except that `OutOfMemory` can replace any if memory was refused:
/// `CutShort`, then `BadLine`, then `BadField` of line 1;
/// `Host` of line 1, then `Instance(TooMany)`;
/// `CutShort`, then `BadLine`, then `BadField` of each further line in order;
/// `Trailing`;
/// `Instance` of the rows.
pub fn read_certified(alloc: Global, text: &[u8]) -> Result<Certified, CertFault>
    // A value that is read has this text as its spelling.
    ensures found { IfOk result
        (λ c. IsValue (certified_view c) × (text.now ≡ spelling (certified_view c))) }
    // A spelling is read as its value, unless memory was refused.
    ensures only { (v : Value) → IsValue v → text.now ≡ spelling v
        → ReadsAs certified_view result (Ok v) }
    // The fault is exactly this.
    ensures exact { ReadsAs certified_view result (certified_of (text_lines text.now)) }
{
    certified(alloc, text)
}
