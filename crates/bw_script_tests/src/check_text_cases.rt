//! The check of a whole text over readers and writers that fail. A check that is refused memory has
//! written nothing.
ghost use Rattle.std.specs.Prelude.{◌<◌};

use crate::streams::{Broken, Choked};
use bw_streams::{RunFault, Watched};
use bw_text_check::{check_text, status_of_check};
use std::alloc::Global;
use std::io;
use std::process::Abort;
use std::test::Fail;

const TWO_GROUPS: &str =
    "bw 1 1 100000 5000 3\n- 100 max 0 20 1 13/100@0\n0 100 max 20 7 0 -\n0 200 max 20 13 0 -\n";

// A check that this fault ended.
fn assert_fault(rt: &impl Abort, checked: &Result<bool, RunFault>, fault: RunFault) {
    assert!(rt; matches!(checked, Err(why) if *why == fault));
    assert!(rt; status_of_check(checked) == 1);
}

// A check over a reader that gives at most so many bytes a call. It fails in place of giving more
// than so many in all.
fn assert_read(
    rt: &impl Abort,
    alloc: Global,
    most: usize,
    left: usize,
    kind: io::ErrorKind,
) -> Result<(), Fail>
    requires { 0 < most }
{
    let mut out = Vec::with_capacity(alloc, 64)?;
    let mut reader = Watched::new(Broken {
        bytes: TWO_GROUPS.as_bytes(),
        most,
        left,
        kind,
    });
    let mut writer = Watched::new(&mut out);
    let result = check_text(alloc, &mut reader, &mut writer);
    if matches!(result, Err(RunFault::Memory)) {
        assert!(rt; out.is_empty());
    } else if left < TWO_GROUPS.len() {
        assert_fault(rt, &result, RunFault::Read);
        assert!(rt; out.is_empty());
    } else {
        assert!(rt; matches!(result, Ok(true)));
        assert!(rt; out.as_slice() == b"accepted\n".as_slice());
    }
    Ok(())
}

// A check over a reader that fails at each byte of the text in turn, and over one without a fault.
fn assert_reads(
    rt: &impl Abort,
    alloc: Global,
    most: usize,
    kind: io::ErrorKind,
) -> Result<(), Fail>
    requires { 0 < most }
{
    for left in 0..TWO_GROUPS.len() {
        assert_read(rt, alloc, most, left, kind)?;
    }
    assert_read(rt, alloc, most, 1000, kind)
}

#[test]
fn a_reader_that_fails(rt: HostRuntime) -> Result<(), Fail> {
    assert_reads(&rt, rt.alloc(), 1, io::ErrorKind::Interrupted)?;
    assert_reads(&rt, rt.alloc(), 7, io::ErrorKind::Other)?;
    assert_reads(&rt, rt.alloc(), 100, io::ErrorKind::Other)?;
    Ok(())
}

// A check over a writer that takes a byte a call, and fails, or takes none, after so many calls.
fn assert_written(rt: &impl Abort, alloc: Global, left: usize, stalls: bool) -> Result<(), Fail> {
    let line = b"accepted\n".as_slice();
    let mut out = Choked {
        bytes: Vec::with_capacity(alloc, 64)?,
        most: 1,
        left,
        stalls,
    };
    let mut reader = Watched::new(TWO_GROUPS.as_bytes());
    let mut writer = Watched::new(&mut out);
    let result = check_text(alloc, &mut reader, &mut writer);
    if matches!(result, Err(RunFault::Memory)) {
        assert!(rt; out.bytes.is_empty());
    } else if left < line.len() {
        assert_fault(rt, &result, RunFault::Write);
        assert!(rt; out.bytes.as_slice() == line.split_at(left).0);
    } else {
        assert!(rt; matches!(result, Ok(true)));
        assert!(rt; out.bytes.as_slice() == line);
    }
    Ok(())
}

#[test]
fn a_writer_that_fails_or_stalls_in_the_line(rt: HostRuntime) -> Result<(), Fail> {
    for left in 0..11usize {
        assert_written(&rt, rt.alloc(), left, false)?;
        assert_written(&rt, rt.alloc(), left, true)?;
    }
    Ok(())
}
