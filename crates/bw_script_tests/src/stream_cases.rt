//! The script of one period over readers and writers that fail.
//!
//! The period needs a thread. Where the machine refuses one, the answer is another, and a test ends
//! at its assertion.
ghost use Rattle.std.specs.Prelude.{◌<◌};

use crate::streams::{Broken, Choked};
use bw_model::HostShape;
use bw_shell::{run, status_of_run};
use bw_streams::{RunFault, Watched};
use std::alloc::{AllocError, Global};
use std::io;
use std::process::Abort;
use std::random::RandomSource;
use std::rt::Clock;
use std::sync::Wait;
use std::test::Fail;
use std::thread::Threads;

// One processor, a period of 100 ms and slices of 5 ms: 20 slices.
pub(crate) fn host() -> Result<HostShape, Fail> {
    Ok(HostShape::new(1, 100000, 5000)?)
}

// The lines of one period of one processor, and their answers. A static table costs its readers no
// proof.
static ONE_PERIOD: [(&str, &str); 14] = [
    ("mkdir pod", "ok"),
    ("mkdir pod/x", "ok"),
    ("mkdir pod/y", "ok"),
    ("mkdir job", "ok"),
    ("write pod cpu.max 50000 100000", "ok"),
    ("write pod/y cpu.weight 300", "ok"),
    ("demand pod/x 20", "ok"),
    ("demand pod/y 20", "ok"),
    ("demand job 20", "ok"),
    ("total", "total 20\nlimit 20 .\ndemand 0"),
    ("plan", "20 .\n10 pod\n3 pod/x\n7 pod/y\n10 job"),
    ("period", "served 20"),
    (
        "read pod cpu.stat",
        "usage_usec 50000\nnr_periods 1\nnr_throttled 1\nthrottled_usec 150000\nnr_bursts 0\nburst_usec 0",
    ),
    (
        "report",
        "          usage_usec    periods  throttled       throttled_usec group
              100000          1          0                    0 .
               50000          1          1               150000 pod
               15000          1          0                    0 pod/x
               35000          1          0                    0 pod/y
               50000          1          0                    0 job",
    ),
];

// The lines of a script, and their answers.
pub(crate) fn joined(
    alloc: Global,
    cases: &[(&str, &str)],
) -> Result<(String, String), AllocError> {
    let mut script = String::new(alloc);
    let mut wanted = String::new(alloc);
    for (line, answer) in cases {
        script.push_str(line)?;
        script.push('\n')?;
        wanted.push_str(answer)?;
        wanted.push('\n')?;
    }
    Ok((script, wanted))
}

// The answers to the lines that lie whole within so many bytes of the script.
fn answers_within(alloc: Global, bytes: usize) -> Result<String, AllocError> {
    let mut answers = String::new(alloc);
    let mut end = 0usize;
    for (line, answer) in &ONE_PERIOD {
        end = end.saturating_add(line.len()).saturating_add(1);
        if end <= bytes {
            answers.push_str(answer)?;
            answers.push('\n')?;
        }
    }
    Ok(answers)
}

// A run without a fault.
pub(crate) fn assert_ran(rt: &impl Abort, ran: &Result<(), RunFault>) {
    assert!(rt; ran.is_ok());
    assert!(rt; status_of_run(ran) == 0);
}

// A run that this fault ended.
fn assert_fault(rt: &impl Abort, ran: &Result<(), RunFault>, fault: RunFault) {
    assert!(rt; matches!(ran, Err(why) if *why == fault));
    assert!(rt; status_of_run(ran) == 1);
}

// A run over a reader that gives at most so many bytes a call, and fails after so many in all.
fn assert_read<R: AllocGlobal + Threads + Wait + Clock + RandomSource + Abort + Sync>(
    rt: &R,
    script: &str,
    most: usize,
    left: usize,
    kind: io::ErrorKind,
) -> Result<(), Fail>
    requires { 0 < most }
{
    let mut out = Vec::new(rt.alloc());
    let mut reader = Watched::new(Broken {
        bytes: script.as_bytes(),
        most,
        left,
        kind,
    });
    let mut writer = Watched::new(&mut out);
    let result = run(rt, &mut reader, &mut writer, host()?);
    let failed = reader.failed();
    let answers = answers_within(rt.alloc(), left)?;
    assert!(rt; out.as_slice() == answers.as_bytes());
    assert!(rt; failed == (left <= script.len()));
    if failed {
        assert_fault(rt, &result, RunFault::Read);
    } else {
        assert_ran(rt, &result);
    }
    Ok(())
}

#[test]
fn a_reader_in_pieces(rt: HostRuntime) -> Result<(), Fail> {
    let (script, _answers) = joined(rt.alloc(), &ONE_PERIOD)?;
    for most in 1..50usize {
        assert_read(&rt, script.as_str(), most, 1000, io::ErrorKind::Other)?;
    }
    Ok(())
}

#[test]
fn a_reader_that_fails(rt: HostRuntime) -> Result<(), Fail> {
    let (script, _answers) = joined(rt.alloc(), &ONE_PERIOD)?;
    for left in 0..script.len() + 1 {
        assert_read(&rt, script.as_str(), 1, left, io::ErrorKind::Interrupted)?;
        assert_read(&rt, script.as_str(), 7, left, io::ErrorKind::Other)?;
    }
    Ok(())
}

// A run over a writer that takes at most so many bytes a call. It fails, or takes none, after so
// many calls.
fn assert_written<R: AllocGlobal + Threads + Wait + Clock + RandomSource + Abort + Sync>(
    rt: &R,
    script: &str,
    answers: &str,
    out: &mut Choked,
    calls: usize,
) -> Result<(), Fail> {
    let left = out.left;
    let stalls = out.stalls;
    let mut reader = Watched::new(script.as_bytes());
    let mut writer = Watched::new(&mut *out);
    let result = run(rt, &mut reader, &mut writer, host()?);
    let failed = writer.failed();
    let stalled = writer.stalled();
    let is_cut = left < calls;
    assert!(rt; failed == (is_cut && !stalls));
    assert!(rt; stalled == (is_cut && stalls));
    if is_cut {
        assert_fault(rt, &result, RunFault::Write);
        assert!(rt; answers.as_bytes().starts_with(out.bytes.as_slice()));
    } else {
        assert_ran(rt, &result);
        assert!(rt; out.bytes.as_slice() == answers.as_bytes());
    }
    Ok(())
}

// The bytes that the writer takes a call, whether it stalls or fails, and the number of calls that
// write all answers.
static WRITERS: [(usize, bool, usize); 5] = [
    (1, false, 605),
    (2, true, 303),
    (5, false, 122),
    (1000, false, 2),
    (1000, true, 2),
];

#[test]
fn a_writer_that_fails_or_stalls(rt: HostRuntime) -> Result<(), Fail> {
    let (script, answers) = joined(rt.alloc(), &ONE_PERIOD)?;
    for (most, stalls, calls) in &WRITERS {
        for left in 0..calls.saturating_add(2) {
            let mut out = Choked {
                bytes: Vec::new(rt.alloc()),
                most: *most,
                left,
                stalls: *stalls,
            };
            assert_written(&rt, script.as_str(), answers.as_str(), &mut out, *calls)?;
            if *most == 1 {
                assert!(rt; out.bytes.len() == left.min(*calls));
            }
        }
    }
    Ok(())
}
