//! Runs of whole scripts.
ghost use Rattle.std.specs.Prelude.{◌≡◌, ◌≢◌, ◌||◌, ◌<◌, ◌+◌, ◌-◌, ◌^◌, ℕ, List, [], Some, min};
ghost use Rattle.std.specs.Prelude.{length, true, false, OnOk, IfOk, IfErr, IsErrOf};
ghost use Rattle.std.specs.Io.KnownBytes.{Appends, Consumes, IsAtEnd, Keeps};
ghost use Rattle.bw_commands.specs.State.{start};
ghost use Rattle.bw_shell.specs.Scan.{Scan, TakesBytes};
ghost use Rattle.bw_shell.specs.Session.{scan_of, session_waits};
ghost use Rattle.bw_shell.specs.Runs.{Runs};
ghost use Rattle.bw_streams.specs.Fronts.{AppendsFront};
ghost use Rattle.bw_streams.specs.Reading.{ReadGives};
ghost use Rattle.bw_streams.specs.Watched.{inner_of, has_failed, has_stalled, read_calls};
ghost use Rattle.bw_streams.specs.Watched.{is_flushed, IsFresh, HasNoFault};

use crate::keys::hash_keys;
use crate::session::Session;
use bw_model::HostShape;
use bw_streams::{READ_CALLS, RunFault, Watched, piece_room};
use bw_workers::{Gate, NoGate};
use std::io::{Read, Write};
use std::random::RandomSource;
use std::rt::Clock;
use std::sync::Wait;
use std::thread::Threads;

// Reads once and answers the lines that end in the chunk. `false` is the end of the script.
fn read_some<H: Threads + Wait + Clock + Sync, G: Gate, R: Read, W: Write>(
    rt: &H,
    session: &mut Session<'_, G>,
    piece: &mut [u8],
    reader: &mut Watched<R>,
    writer: &mut Watched<W>,
) -> Result<bool, RunFault>
    requires room { 0 < length piece.old }
    requires reader { HasNoFault reader.old }
    requires writer { HasNoFault writer.old }
    requires flushed { is_flushed writer.old ≡ true }
    requires none_waits { session_waits session.old ≡ [] }
    ensures none_waits { OnOk result (session_waits session.new ≡ []) }
    ensures reads { read_calls reader.new ≡ min (read_calls reader.old + 1) (2 ^ 64 - 1) }
    ensures gives { ReadGives (R.remaining (inner_of reader.old))
        (R.remaining (inner_of reader.new)) result }
    ensures ok { OnOk result ((input text : List ℕ)
        × TakesBytes (scan_of G.used session.old) input text (scan_of G.used session.new)
        × Consumes (R.remaining (inner_of reader.old)) (R.remaining (inner_of reader.new)) input
        × Appends (W.contents (inner_of writer.old)) (W.contents (inner_of writer.new)) text) }
    ensures reader_quiet { OnOk result (HasNoFault reader.new) }
    ensures writer_quiet { OnOk result (HasNoFault writer.new) }
    ensures writer_flushed { OnOk result (is_flushed writer.new ≡ true) }
    ensures end { IfOk result (λ more. more ≡ false → IsAtEnd (R.remaining (inner_of reader.new))) }
    ensures read { IsErrOf result RunFault.Read
        → Keeps (R.remaining (inner_of reader.old)) (R.remaining (inner_of reader.new)) }
    ensures read_when { IsErrOf result RunFault.Read → has_failed reader.new ≡ true }
    ensures read_writes { IsErrOf result RunFault.Read → writer.new ≡ writer.old }
    ensures write { IsErrOf result RunFault.Write → (input text : List ℕ) × (t : Scan)
        × TakesBytes (scan_of G.used session.old) input text t
        × Consumes (R.remaining (inner_of reader.old)) (R.remaining (inner_of reader.new)) input
        × AppendsFront (W.contents (inner_of writer.old)) (W.contents (inner_of writer.new)) text }
    ensures write_when { IsErrOf result RunFault.Write
        → (has_failed writer.new || has_stalled writer.new) ≡ true }
    ensures memory { IfErr result (λ f. f ≢ RunFault.Memory) }
{
    match reader.read(piece) {
        Err(_) => Err(RunFault::Read),
        Ok(0) => Ok(false),
        Ok(n) => match session.feed(rt, piece.split_at(n).0, writer) {
            Ok(()) => Ok(true),
            Err(fault) => Err(fault),
        },
    }
}

// Reads a script to its end, and writes the answer to each line. It takes `&mut Session`: an owned
// session would be dropped at every return, with a proof goal each.
fn read_script<H: Threads + Wait + Clock + Sync, G: Gate, R: Read, W: Write>(
    rt: &H,
    session: &mut Session<'_, G>,
    piece: &mut [u8],
    reader: &mut Watched<R>,
    writer: &mut Watched<W>,
) -> Result<(), RunFault>
    requires begun { (scan_of G.used session.old).kept ≡ Some [] }
    requires none_waits { session_waits session.old ≡ [] }
    requires room { 0 < length piece.old }
    requires reader { IsFresh reader.old }
    requires writer { IsFresh writer.old }
    ensures { Runs R.remaining W.contents
        (scan_of G.used session.old).state reader.old reader.new writer.old writer.new result }
{
    for turn in 0..READ_CALLS {
        match read_some(rt, session, piece, reader, writer) {
            Ok(true) => {}
            Ok(false) => return session.finish(rt, writer),
            Err(fault) => return Err(fault),
        }
    }
    Err(RunFault::Read)
}

/// Reads a script to its end, and writes the answer to each line. The workers of each `period` draw
/// under the gate. All buffers are allocated before the first read.
///
/// # Errors
///
/// `Read` after a read that failed or after `READ_CALLS` reads.
/// `Write` if a write or a flush failed, or a write took no bytes.
/// `Memory` if an allocation failed before the first read.
pub fn run_gated<
    H: AllocGlobal + Threads + Wait + Clock + RandomSource + Sync,
    G: Gate,
    R: Read,
    W: Write,
>(
    rt: &H,
    reader: &mut Watched<R>,
    writer: &mut Watched<W>,
    shape: HostShape,
    gate: &G,
) -> Result<(), RunFault>
    requires reader { IsFresh reader.old }
    requires writer { IsFresh writer.old }
    ensures { Runs R.remaining W.contents
        (start shape (G.used gate.now)) reader.old reader.new writer.old writer.new result }
{
    let mut piece = piece_room(rt.alloc())?;
    let keys = hash_keys(rt).map_err(|_| RunFault::Memory)?;
    let mut session = Session::new(rt.alloc(), keys, shape, gate)?;
    read_script(rt, &mut session, &mut piece, reader, writer)
}

/// Reads a script to its end, and writes the answer to each line. Every leaf uses the slices that
/// its workers draw. All buffers are allocated before the first read.
///
/// # Errors
///
/// `Read` after a read that failed or after `READ_CALLS` reads.
/// `Write` if a write or a flush failed, or a write took no bytes.
/// `Memory` if an allocation failed before the first read.
pub fn run<H: AllocGlobal + Threads + Wait + Clock + RandomSource + Sync, R: Read, W: Write>(
    rt: &H,
    reader: &mut Watched<R>,
    writer: &mut Watched<W>,
    shape: HostShape,
) -> Result<(), RunFault>
    requires reader { IsFresh reader.old }
    requires writer { IsFresh writer.old }
    ensures { Runs R.remaining W.contents
        (start shape (λ leaf. true)) reader.old reader.new writer.old writer.new result }
{
    run_gated(rt, reader, writer, shape, &NoGate)
}
