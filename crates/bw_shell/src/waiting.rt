//! Answers that wait in a buffer in front of the writer, and are written together.
ghost use Rattle.std.specs.Prelude.{◌≡◌, ◌≤◌, [], true, OnOk};
ghost use Rattle.std.specs.Vec.{vec_capacity};
ghost use Rattle.bw_shell.specs.Gathers.{GathersText};
ghost use Rattle.bw_streams.specs.Watched.{is_flushed, HasNoFault};
ghost use Rattle.bw_streams.specs.Writes.{Writes};

use bw_streams::{RunFault, Watched, flush, put, send};
use std::io::Write;

/// Number of bytes of answers that may wait, as many as a read gives at most. A write for each line
/// would take instructions for each, most of them to hand on the error that it may give.
pub(crate) const WAITING_BYTES: usize = 65536;

/// Puts a text behind what waits. Where it has no room, all is written.
///
/// # Errors
///
/// `Write` if a write failed or took no bytes.
#[inline(always)]
pub(crate) fn gather<W: Write>(
    writer: &mut Watched<W>,
    waiting: &mut Vec<u8>,
    text: &[u8],
) -> Result<(), RunFault>
    requires { HasNoFault writer.old }
    ensures { GathersText W.contents writer.old writer.new waiting.old.items waiting.new.items result
        text.now }
{
    if text.len() <= waiting.capacity() - waiting.len() {
        put(waiting, text);
        return Ok(());
    }
    send_both(writer, waiting, text)
}

// Writes what waits, and a text behind it.
#[inline(never)]
fn send_both<W: Write>(
    writer: &mut Watched<W>,
    waiting: &mut Vec<u8>,
    text: &[u8],
) -> Result<(), RunFault>
    requires { HasNoFault writer.old }
    ensures { GathersText W.contents writer.old writer.new waiting.old.items waiting.new.items result
        text.now }
{
    match send_waiting(writer, waiting) {
        Ok(()) => send(writer, text),
        Err(fault) => Err(fault),
    }
}

/// Writes what waits.
///
/// # Errors
///
/// `Write` if a write failed or took no bytes.
pub(crate) fn send_waiting<W: Write>(
    writer: &mut Watched<W>,
    waiting: &mut Vec<u8>,
) -> Result<(), RunFault>
    requires { HasNoFault writer.old }
    ensures writes { Writes W.contents writer.old writer.new result
        (λ sent. sent ≡ waiting.old.items) (λ sent. sent ≡ waiting.old.items) }
    ensures empty { OnOk result (waiting.new.items ≡ []) }
{
    if waiting.is_empty() {
        return Ok(());
    }
    match send(writer, waiting.as_slice()) {
        Ok(()) => {
            waiting.clear();
            Ok(())
        }
        Err(fault) => Err(fault),
    }
}

/// Writes what waits, and flushes the writer.
///
/// # Errors
///
/// `Write` if a write or a flush failed, or a write took no bytes.
pub(crate) fn flush_waiting<W: Write>(
    writer: &mut Watched<W>,
    waiting: &mut Vec<u8>,
) -> Result<(), RunFault>
    requires { HasNoFault writer.old }
    ensures writes { Writes W.contents writer.old writer.new result
        (λ sent. sent ≡ waiting.old.items) (λ sent. sent ≡ waiting.old.items) }
    ensures empty { OnOk result (waiting.new.items ≡ []) }
    ensures flushed { OnOk result (is_flushed writer.new ≡ true) }
{
    match send_waiting(writer, waiting) {
        Ok(()) => flush(writer),
        Err(fault) => Err(fault),
    }
}
