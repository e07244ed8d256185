//! A session: splits a script into lines and answers each.
ghost use Rattle.std.specs.Prelude.{◌≡◌, ◌≤◌, ◌<◌, ◌+◌, ◌++◌, [], true, length, vec_len, IfOk};
ghost use Rattle.std.specs.Prelude.{OnOk};
ghost use Rattle.std.specs.Vec.{vec_capacity};
ghost use Rattle.bw_streams.specs.Watched.{is_flushed, HasNoFault};
ghost use Rattle.bw_streams.specs.Writes.{Writes};

use crate::newline::newline;
use crate::piece::Piece;
use crate::responder::Responder;
use bw_commands::LINE_BYTES;
use bw_model::HostShape;
use bw_streams::{RunFault, Watched};
use bw_workers::Gate;
use std::alloc::{AllocError, Global};
use std::hash::RandomState;
use std::io::Write;
use std::rt::Clock;
use std::sync::Wait;
use std::thread::Threads;

// Number of bytes that are kept of a line: one more than its maximum shows that it is too long.
pub(crate) const KEPT_BYTES: usize = LINE_BYTES + 1;

ghost use Rattle.bw_shell.specs.declared.session.TheConstants.{KEPT_BYTES};

/// Splits input into lines and answers each. `line` buffers an incomplete line. A line that is
/// complete in the input chunk is answered in place, without copying.
#[derive(Drop)]
pub struct Session<'a, G> {
    responder: Responder<'a, G>,
    line: Vec<u8>,
    ghost line_room: { KEPT_BYTES ≤ vec_capacity line },
    ghost line_fits: { vec_len line ≤ KEPT_BYTES },
}

impl<'a, G: Gate> Session<'a, G> {
    ghost use Rattle.std.specs.Prelude.{◌≡◌, List, ℕ, [], true, IfOk, OnOk};
    ghost use Rattle.bw_commands.specs.State.{start};
    ghost use Rattle.bw_shell.specs.Scan.{Scan, begin, kept_after, TakesLine, TakesBytes, Finishes};
    ghost use Rattle.bw_shell.specs.Gathers.{Gathers};
    ghost use Rattle.bw_shell.specs.Piece.{bytes_of};
    ghost use Rattle.bw_shell.specs.Session.{scan_of, session_waits};
    ghost use Rattle.bw_streams.specs.Watched.{is_flushed, HasNoFault};
    ghost use Rattle.bw_streams.specs.Writes.{Writes};

    /// Allocates all the space that lines and refusals need.
    ///
    /// # Errors
    ///
    /// `AllocError` if an allocation failed.
    pub fn new(
        alloc: Global,
        keys: RandomState,
        shape: HostShape,
        gate: &'a G,
    ) -> Result<Session<'a, G>, AllocError>
        ensures scan { IfOk result (λ s. scan_of G.used s ≡ begin (start shape (G.used gate.now))) }
        ensures waits { IfOk result (λ s. session_waits s ≡ []) }
    {
        let line = Vec::with_capacity(alloc, KEPT_BYTES)?;
        Ok(Session {
            responder: Responder::new(alloc, keys, shape, gate)?,
            line,
        })
    }

    // Appends bytes to the incomplete line, up to `KEPT_BYTES`.
    fn keep(&mut self, bytes: &[u8])
        ensures scan { scan_of G.used self.new
            ≡ record (scan_of G.used self.old) {
              kept = kept_after
                  (scan_of G.used self.old).kept bytes.now;
            } }
        ensures waits { session_waits self.new ≡ session_waits self.old }
    {
        let count = bytes.len().min(KEPT_BYTES - self.line.len());
        let _ = self.line.extend_from_slice(bytes.split_at(count).0);
    }

    // Answers the incomplete line, which ends with these bytes in front of a newline.
    fn end_line<H: Threads + Wait + Clock + Sync, W: Write>(
        &mut self,
        rt: &H,
        front: Piece<'_>,
        writer: &mut Watched<W>,
    ) -> Result<(), RunFault>
        requires { HasNoFault writer.old }
        ensures { Gathers W.contents writer.old writer.new (session_waits self.old)
            (session_waits self.new) result
            (λ text. TakesLine (scan_of G.used self.old) (bytes_of front.entry) text
            (scan_of G.used self.new))
            (λ text. (t : Scan)
            × TakesLine (scan_of G.used self.old) (bytes_of front.entry) text t) }
    {
        if self.line.is_empty() {
            return self.responder.reply(rt, front, writer);
        }
        self.keep(front.bytes());
        let line = Piece::Bytes(self.line.as_slice());
        match self.responder.reply(rt, line, writer) {
            Ok(()) => {
                self.line.clear();
                Ok(())
            }
            Err(fault) => Err(fault),
        }
    }

    // Answers each line that ends in the chunk, and keeps the rest.
    fn take_bytes<H: Threads + Wait + Clock + Sync, W: Write>(
        &mut self,
        rt: &H,
        piece: &[u8],
        writer: &mut Watched<W>,
    ) -> Result<(), RunFault>
        requires { HasNoFault writer.old }
        ensures { Gathers W.contents writer.old writer.new (session_waits self.old)
            (session_waits self.new) result
            (λ text. TakesBytes (scan_of G.used self.old) piece.now text (scan_of G.used self.new))
            (λ text. (t : Scan) × TakesBytes (scan_of G.used self.old) piece.now text t) }
    {
        let mut rest = Piece::new(piece);
        while let Some(end) = newline(rest.bytes()) {
            let (front, behind) = rest.split_line(end);
            match self.end_line(rt, front, writer) {
                Ok(()) => {}
                Err(fault) => return Err(fault),
            }
            rest = behind;
        }
        self.keep(rest.bytes());
        Ok(())
    }

    /// Answers each line that ends in a chunk of the script, writes the answers and flushes the
    /// writer. A `period` is served with no answer waiting. At most 64 KiB of answers wait.
    ///
    /// # Errors
    ///
    /// `Write` if a write or a flush failed, or a write took no bytes.
    pub fn feed<H: Threads + Wait + Clock + Sync, W: Write>(
        &mut self,
        rt: &H,
        piece: &[u8],
        writer: &mut Watched<W>,
    ) -> Result<(), RunFault>
        requires quiet { HasNoFault writer.old }
        requires none_waits { session_waits self.old ≡ [] }
        ensures writes { Writes W.contents writer.old writer.new result
            (λ text. TakesBytes (scan_of G.used self.old) piece.now text (scan_of G.used self.new))
            (λ text. (t : Scan) × TakesBytes (scan_of G.used self.old) piece.now text t) }
        ensures flushed { OnOk result (is_flushed writer.new ≡ true) }
        ensures none_waits { OnOk result (session_waits self.new ≡ []) }
    {
        match self.take_bytes(rt, piece, writer) {
            Ok(()) => self.responder.flush(writer),
            Err(fault) => Err(fault),
        }
    }

    // Answers a last line without a newline.
    fn answer_last<H: Threads + Wait + Clock + Sync, W: Write>(
        &mut self,
        rt: &H,
        writer: &mut Watched<W>,
    ) -> Result<(), RunFault>
        requires { HasNoFault writer.old }
        ensures { Gathers W.contents writer.old writer.new (session_waits self.old)
            (session_waits self.new) result
            (Finishes (scan_of G.used self.old)) (Finishes (scan_of G.used self.old)) }
    {
        if self.line.is_empty() {
            return Ok(());
        }
        let line = Piece::Bytes(self.line.as_slice());
        self.responder.reply(rt, line, writer)
    }

    /// Answers a last line without a newline, and flushes the writer.
    ///
    /// # Errors
    ///
    /// `Write` if a write or a flush failed, or a write took no bytes.
    pub fn finish<H: Threads + Wait + Clock + Sync, W: Write>(
        &mut self,
        rt: &H,
        writer: &mut Watched<W>,
    ) -> Result<(), RunFault>
        requires quiet { HasNoFault writer.old }
        requires none_waits { session_waits self.old ≡ [] }
        ensures writes { Writes W.contents writer.old writer.new result
            (Finishes (scan_of G.used self.old)) (Finishes (scan_of G.used self.old)) }
        ensures flushed { OnOk result (is_flushed writer.new ≡ true) }
    {
        match self.answer_last(rt, writer) {
            Ok(()) => self.responder.flush(writer),
            Err(fault) => Err(fault),
        }
    }
}
