//! Reads a certified text whole, checks it, and answers by one line.
ghost use Rattle.std.specs.Prelude.{◌≡◌, ◌≢◌, ◌⊎◌, ◌<◌, ◌≤◌, ◌+◌, ◌-◌, ◌++◌, ◌^◌, ℕ, List, min};
ghost use Rattle.std.specs.Prelude.{length, true, false, OnOk, OnErr, IfOk, IfErr, IsErrOf};
ghost use Rattle.std.specs.Io.KnownBytes.{Appends, Consumes, IsAtEnd, Keeps};
ghost use Rattle.bw_streams.specs.Fronts.{AppendsFront};
ghost use Rattle.bw_cert.specs.Spelling.{HoldsPlan};
ghost use Rattle.bw_text_check.specs.CheckText.{line_of, verdict_line, is_accepted, IsFinding};
ghost use Rattle.bw_text_check.specs.CheckText.{Checks, ChecksFront};
ghost use Rattle.bw_streams.specs.Prints.{Prints};
ghost use Rattle.bw_streams.specs.Reading.{EndIsReadOnce};
ghost use Rattle.bw_text_check.specs.Reads.{Reads};
ghost use Rattle.bw_streams.specs.Watched.{inner_of, has_failed, read_calls, IsFresh, HasNoFault};

use bw_cert::{CertFault, read_certified_rows};
use bw_check::{CheckFault, Verdict, check_rows};
use bw_machine::Count;
use bw_streams::{
    READ_CALLS, RunFault, Watched, piece_room, put_number, put_number_line, put_refusal, send_line,
};
use std::alloc::{AllocError, Global};
use std::io::{Read, Write};

/// Maximum length of a certified text in bytes, 4 MiB.
pub const TEXT_BYTES: usize = 4194304;

ghost use Rattle.bw_text_check.specs.declared.text_check.TheConstants.{TEXT_BYTES};

// Result of a check: the verdict on a certified text, or why the text is none.
#[derive(Clone, Copy)]
pub(crate) enum Finding {
    Checked(Verdict),
    Faulty(CertFault),
}

ghost use Rattle.bw_check.specs.declared.verdict.Verdict.TheVariants.{Refused};

// Reads once and appends the bytes to `text`. `false` is the end of the text.
fn take_piece<R: Read>(
    text: &mut Vec<u8>,
    piece: &mut [u8],
    reader: &mut Watched<R>,
) -> Result<bool, RunFault>
    requires room { 0 < length piece.old }
    requires small { length text.old.items ≤ TEXT_BYTES }
    requires reader { HasNoFault reader.old }
    ensures reads { read_calls reader.new ≡ min (read_calls reader.old + 1) (2 ^ 64 - 1) }
    ensures consumed { (bytes : List ℕ) × Consumes
        (R.remaining (inner_of reader.old)) (R.remaining (inner_of reader.new)) bytes }
    ensures ok { OnOk result ((bytes : List ℕ)
        × Consumes (R.remaining (inner_of reader.old)) (R.remaining (inner_of reader.new)) bytes
        × (text.new.items ≡ text.old.items ++ bytes)) }
    ensures small { OnOk result (length text.new.items ≤ TEXT_BYTES) }
    ensures more { IfOk result
        (λ more. more ≡ true → length text.old.items < length text.new.items) }
    ensures quiet { OnOk result (HasNoFault reader.new) }
    ensures end { IfOk result (λ more. more ≡ false → IsAtEnd (R.remaining (inner_of reader.new))) }
    ensures read_when { IsErrOf result RunFault.Read → (has_failed reader.new ≡ true)
        ⊎ ((bytes : List ℕ)
        × Consumes (R.remaining (inner_of reader.old)) (R.remaining (inner_of reader.new)) bytes
        × (TEXT_BYTES < length text.old.items + length bytes)) }
    ensures write { IfErr result (λ f. f ≢ RunFault.Write) }
{
    match reader.read(piece) {
        Err(_) => Err(RunFault::Read),
        Ok(0) => Ok(false),
        Ok(n) => {
            if n > TEXT_BYTES - text.len() {
                return Err(RunFault::Read);
            }
            text.extend_from_slice(piece.split_at(n).0)?;
            Ok(true)
        }
    }
}

// Reads the text to its end.
fn read_text<R: Read>(alloc: Global, reader: &mut Watched<R>) -> Result<Vec<u8>, RunFault>
    requires { IsFresh reader.old }
    ensures ok { IfOk result (λ v. Consumes (R.remaining (inner_of reader.old))
        (R.remaining (inner_of reader.new)) v.items) }
    ensures small { IfOk result (λ v. length v.items ≤ TEXT_BYTES) }
    ensures reads { Reads R.remaining reader.old reader.new result }
    ensures few { IfOk result (λ v. read_calls reader.new ≤ length v.items + 1) }
    ensures few_err { OnErr result (EndIsReadOnce (R.remaining (inner_of reader.old))
        (R.remaining (inner_of reader.new)) (read_calls reader.new)) }
    ensures write { IfErr result (λ f. f ≢ RunFault.Write) }
{
    let mut piece = piece_room(alloc)?;
    let mut text = Vec::new(alloc);
    for turn in 0..READ_CALLS {
        match take_piece(&mut text, &mut piece, reader) {
            Ok(true) => {}
            Ok(false) => return Ok(text),
            Err(fault) => return Err(fault),
        }
    }
    Err(RunFault::Read)
}

// Reads a text and checks what it certifies.
fn finding_in(alloc: Global, text: &[u8]) -> Result<Finding, AllocError>
    ensures found { IfOk result (IsFinding text.now) }
    ensures sound { IfOk result (λ f. is_accepted f ≡ true → HoldsPlan text.now) }
{
    match read_certified_rows(alloc, text) {
        Ok(read) => {
            let verdict = check_rows(
                alloc,
                read.shape,
                read.rows,
                read.amounts.as_slice(),
                &read.certificate,
                &mut Count::none(),
            )?;
            Ok(Finding::Checked(verdict))
        }
        Err(CertFault::OutOfMemory) => Err(AllocError),
        Err(fault) => Ok(Finding::Faulty(fault)),
    }
}

// Whether the line is `accepted`.
fn is_accepted(finding: Finding) -> bool
    ensures { result ≡ is_accepted finding }
{
    matches!(finding, Finding::Checked(Verdict::Accepted))
}

// Appends the line of a refusal.
fn put_refused(answer: &mut Vec<u8>, fault: CheckFault, group: u32) -> Result<(), AllocError>
    ensures { OnOk result (answer.new.items
        ≡ answer.old.items ++ verdict_line (Refused fault group)) }
{
    put_number(b"refused ", u64::from(fault.number()), answer)?;
    answer.extend_from_slice(b" ")?;
    answer.extend_from_slice(fault.name().as_bytes())?;
    put_number_line(b" ", u64::from(group), answer)?;
    Ok(())
}

// The line of a finding.
fn line_of(alloc: Global, finding: Finding) -> Result<Vec<u8>, AllocError>
    ensures { IfOk result (λ line. line.items ≡ line_of finding) }
{
    let mut line = Vec::new(alloc);
    match finding {
        Finding::Checked(Verdict::Accepted) => line.extend_from_slice(b"accepted\n")?,
        Finding::Checked(Verdict::Refused { fault, group }) => put_refused(
            &mut line, fault, group,
        )?,
        Finding::Faulty(fault) => put_refusal(fault.number(), fault.name(), &mut line)?,
    }
    Ok(line)
}

// Writes the line of a finding.
fn answer<W: Write>(
    alloc: Global,
    finding: Finding,
    writer: &mut Watched<W>,
) -> Result<(), RunFault>
    requires { HasNoFault writer.old }
    ensures ok { OnOk result (Appends (W.contents (inner_of writer.old))
        (W.contents (inner_of writer.new)) (line_of finding)) }
    ensures prints { Prints writer.old writer.new result }
    ensures write { IsErrOf result RunFault.Write
        → AppendsFront (W.contents (inner_of writer.old)) (W.contents (inner_of writer.new))
        (line_of finding) }
    ensures read { IfErr result (λ f. f ≢ RunFault.Read) }
{
    let line = line_of(alloc, finding)?;
    send_line(writer, line.as_slice())
}

/// Reads a certified text to its end, checks it, and writes one line: `accepted`, `refused N NAME
/// GROUP` with the row of the group, or `error N NAME`. Returns `true` if and only if the line is
/// `accepted`; the amounts of the text are then the plan of its instance.
///
/// The line is formed before its first byte is written.
///
/// # Errors
///
/// `Read` if a read failed, `READ_CALLS` reads did not reach the end, or the text is longer than
/// 4 MiB.
/// `Memory` if an allocation failed; nothing is written.
/// `Write` if a write or the flush failed, or a write took no bytes.
pub fn check_text<R: Read, W: Write>(
    alloc: Global,
    reader: &mut Watched<R>,
    writer: &mut Watched<W>,
) -> Result<bool, RunFault>
    requires reader { IsFresh reader.old }
    requires writer { IsFresh writer.old }

    // All bytes of the reader are read, and the text written is the line for all of them.
    ensures ok { IfOk result (Checks
        (R.remaining (inner_of reader.old)) (R.remaining (inner_of reader.new))
        (W.contents (inner_of writer.old)) (W.contents (inner_of writer.new))) }
    ensures reads { Reads R.remaining reader.old reader.new result }

    // Each read call but the last gave a byte: after the end there is none.
    ensures few { EndIsReadOnce (R.remaining (inner_of reader.old))
        (R.remaining (inner_of reader.new)) (read_calls reader.new) }
    ensures prints { Prints writer.old writer.new result }

    // After a read fault nothing is written.
    ensures read { IsErrOf result RunFault.Read → writer.new ≡ writer.old }

    // After a write fault a prefix of the line for the whole text is written.
    ensures write { IsErrOf result RunFault.Write → ChecksFront
        (R.remaining (inner_of reader.old)) (R.remaining (inner_of reader.new))
        (W.contents (inner_of writer.old)) (W.contents (inner_of writer.new)) }
    ensures write_end { IsErrOf result RunFault.Write
        → IsAtEnd (R.remaining (inner_of reader.new)) }
{
    let text = read_text(alloc, reader)?;
    let finding = finding_in(alloc, text.as_slice())?;
    answer(alloc, finding, writer)?;
    Ok(is_accepted(finding))
}
