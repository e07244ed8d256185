//! The program as one function: from its words, a reader and a writer to its exit status.
ghost use Rattle.std.specs.Prelude.{◌≡◌, map, string_bytes};
ghost use Rattle.bw_streams.specs.Watched.{IsFresh};
ghost use Rattle.arbiter.specs.Ended.{Ends, EndsBytes, EndsCheck, EndsOn, host_named};
ghost use Rattle.bw_model.specs.Host.{host_refusal};

use crate::asked::host_of;
use crate::failure::explained;
use crate::memory::keep_freed;
use crate::told::{check_ended, host_refused, no_job, run_ended};
use crate::words::{Job, read_words};
use bw_shell::run;
use bw_streams::Watched;
use bw_text_check::check_text;
use std::io::{Read, Write};
use std::random::RandomSource;
use std::rt::Clock;
use std::sync::Wait;
use std::thread::Threads;

// `arbiter run`: runs the script of the reader, with a worker for each processor at each `period`.
fn run_job<
    H: AllocGlobal + Eprint + Threads + Wait + Clock + RandomSource + Sync,
    R: Read,
    W: Write,
>(
    rt: &H,
    processors: u32,
    period_us: u32,
    slice_us: u32,
    reader: &mut Watched<R>,
    writer: &mut Watched<W>,
) -> u8
    requires reader { IsFresh reader.old }
    requires writer { IsFresh writer.old }
    ensures { EndsOn R.remaining W.contents reader.old reader.new writer.old writer.new result
        (host_named processors period_us slice_us)
        (host_refusal (host_named processors period_us slice_us)) }
{
    match host_of(processors, period_us, slice_us) {
        Ok(shape) => {
            keep_freed(rt.alloc());
            let ran = run(rt, reader, writer, shape);
            run_ended(rt, explained(ran, reader, writer))
        }
        Err(fault) => host_refused(rt, fault),
    }
}

// `arbiter check`: checks the certified text of the reader.
fn check_job<H: AllocGlobal + Eprint, R: Read, W: Write>(
    rt: &H,
    reader: &mut Watched<R>,
    writer: &mut Watched<W>,
) -> u8
    requires reader { IsFresh reader.old }
    requires writer { IsFresh writer.old }
    ensures { EndsCheck R.remaining W.contents reader.old reader.new writer.old writer.new result }
{
    let checked = check_text(rt.alloc(), reader, writer);
    check_ended(rt, explained(checked, reader, writer))
}

/// Does the job that the words behind the program's name give, and answers the exit status.
///
/// - 0: the script was read to its end and its transcript was written; or the text was read and is
///   accepted, and its line was written; or help was written.
/// - 1: reading or writing failed, or memory was refused.
/// - 2: the words or the host were refused; nothing was read or written.
/// - 3: the text was read and is not accepted, and its line was written.
///
/// What failed or was refused is printed on standard error.
pub fn do_job<
    H: AllocGlobal + Eprint + Threads + Wait + Clock + RandomSource + Sync,
    R: Read,
    W: Write,
>(rt: &H, words: &[String], reader: &mut Watched<R>, writer: &mut Watched<W>) -> u8
    requires reader { IsFresh reader.old }
    requires writer { IsFresh writer.old }
    ensures { Ends R.remaining W.contents reader.old reader.new writer.old writer.new result
        (map string_bytes words.now) }
{
    match read_words(rt.alloc(), words) {
        Ok(Job::Check) => check_job(rt, reader, writer),
        Ok(
            Job::Run {
                processors,
                period_us,
                slice_us,
            },
        ) => run_job(rt, processors, period_us, slice_us, reader, writer),
        Err(fault) => no_job(rt, fault, reader, writer),
    }
}

/// Does the job on bytes in memory: answers the exit status and all that was written.
///
/// The clause of `do_job` says nothing of the bytes of a stream whose bytes are not known. Here all
/// of them are, and it gives them.
pub fn do_job_on_bytes<H: AllocGlobal + Eprint + Threads + Wait + Clock + RandomSource + Sync>(
    rt: &H,
    words: &[String],
    input: &[u8],
) -> (u8, Vec<u8>)
    ensures { EndsBytes input.now result.1.items result.0 (map string_bytes words.now) }
{
    let mut reader = Watched::new(input);
    let mut writer = Watched::new(Vec::new(rt.alloc()));
    let status = do_job(rt, words, &mut reader, &mut writer);
    (status, writer.into_inner())
}
