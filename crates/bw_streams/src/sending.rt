//! Writes to a watched writer.
ghost use Rattle.std.specs.Prelude.{◌≡◌, [], true, OnOk};
ghost use Rattle.bw_streams.specs.Watched.{is_flushed, HasNoFault};
ghost use Rattle.bw_streams.specs.Writes.{Writes};

use crate::fault::RunFault;
use crate::watched::Watched;
use std::io::Write;

/// Writes all of the text.
///
/// # Errors
///
/// `Write` if a write failed or took no bytes.
pub fn send<W: Write>(writer: &mut Watched<W>, text: &[u8]) -> Result<(), RunFault>
    requires { HasNoFault writer.old }
    ensures { Writes W.contents writer.old writer.new result (λ sent. sent ≡ text.now)
        (λ sent. sent ≡ text.now) }
{
    let mut rest = text;
    while !rest.is_empty() {
        match writer.write(rest) {
            Ok(0) => return Err(RunFault::Write),
            Ok(n) => rest = rest.split_at(n).1,
            Err(_) => return Err(RunFault::Write),
        }
    }
    Ok(())
}

/// Flushes the writer.
///
/// # Errors
///
/// `Write` if the flush failed.
pub fn flush<W: Write>(writer: &mut Watched<W>) -> Result<(), RunFault>
    requires { HasNoFault writer.old }
    ensures writes { Writes W.contents writer.old writer.new result (λ none. none ≡ [])
        (λ none. none ≡ []) }
    ensures flushed { OnOk result (is_flushed writer.new ≡ true) }
{
    match writer.flush() {
        Ok(()) => Ok(()),
        Err(_) => Err(RunFault::Write),
    }
}

/// Writes all of the text and flushes the writer.
///
/// # Errors
///
/// `Write` if a write failed or took no bytes, or the flush failed.
pub fn send_line<W: Write>(writer: &mut Watched<W>, text: &[u8]) -> Result<(), RunFault>
    requires { HasNoFault writer.old }
    ensures writes { Writes W.contents writer.old writer.new result (λ sent. sent ≡ text.now)
        (λ sent. sent ≡ text.now) }
    ensures flushed { OnOk result (is_flushed writer.new ≡ true) }
{
    send(writer, text)?;
    flush(writer)
}
