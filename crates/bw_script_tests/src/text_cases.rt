//! Lines that are no UTF-8, among lines that are, however the reads cut them.
ghost use Rattle.std.specs.Prelude.{◌<◌};

use crate::stream_cases::{assert_ran, host};
use crate::streams::Broken;
use bw_shell::run;
use bw_streams::Watched;
use std::io;
use std::process::Abort;
use std::random::RandomSource;
use std::rt::Clock;
use std::sync::Wait;
use std::test::Fail;
use std::thread::Threads;

// A run over a reader that gives at most so many bytes a call.
fn assert_answers<R: AllocGlobal + Threads + Wait + Clock + RandomSource + Abort + Sync>(
    rt: &R,
    script: &[u8],
    most: usize,
    answers: &[u8],
) -> Result<(), Fail>
    requires { 0 < most }
{
    let mut out = Vec::new(rt.alloc());
    let mut reader = Watched::new(Broken {
        bytes: script,
        most,
        left: 1000,
        kind: io::ErrorKind::Other,
    });
    let mut writer = Watched::new(&mut out);
    let result = run(rt, &mut reader, &mut writer, host()?);
    assert_ran(rt, &result);
    assert!(rt; out.as_slice() == answers);
    Ok(())
}

#[test]
fn a_bad_line_between_good_lines(rt: HostRuntime) -> Result<(), Fail> {
    let script = b"mkdir a\nmkdir \xff\nmkdir b\n";
    let answers = b"ok\nerror 81 BadText\nok\n";
    for most in 1..30usize {
        assert_answers(&rt, script, most, answers)?;
    }
    Ok(())
}

// In some reads the first piece ends within the character.
#[test]
fn a_character_in_two_reads(rt: HostRuntime) -> Result<(), Fail> {
    let script = b"mkdir \xc3\xa9\nrmdir \xc3\xa9\nmkdir \xc3\n";
    let answers = b"ok\nok\nerror 81 BadText\n";
    for most in 1..30usize {
        assert_answers(&rt, script, most, answers)?;
    }
    Ok(())
}

#[test]
fn a_bad_last_line_without_a_newline(rt: HostRuntime) -> Result<(), Fail> {
    let script = b"mkdir a\nmkdir \xc3\xa9\xc3";
    let answers = b"ok\nerror 81 BadText\n";
    for most in 1..30usize {
        assert_answers(&rt, script, most, answers)?;
    }
    Ok(())
}
