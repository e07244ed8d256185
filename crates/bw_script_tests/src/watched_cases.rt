//! Calls of `Watched` and of the stream that it holds, one for one.
ghost use Rattle.std.specs.Prelude.{None};

use bw_streams::Watched;
use std::alloc::{AllocError, Global};
use std::io;
use std::io::{Error, ErrorKind, Read, Write};
use std::process::Abort;
use std::test::Fail;

// A call of a stream, with the length of its buffer.
#[derive(Clone, Copy, Debug, PartialEq, Eq)]
enum Call {
    Read(usize),
    Write(usize),
    Flush,
}

// Length of the longest buffer.
const LONGEST: usize = 5000000;

// Reads, writes and flushes, some of them empty or needless.
static CALLS: [Call; 16] = [
    Call::Read(0),
    Call::Read(1),
    Call::Write(0),
    Call::Flush,
    Call::Flush,
    Call::Read(65536),
    Call::Write(1),
    Call::Write(9000),
    Call::Flush,
    Call::Write(0),
    Call::Write(LONGEST),
    Call::Flush,
    Call::Read(7),
    Call::Read(LONGEST),
    Call::Write(3),
    Call::Flush,
];

// A stream that notes its calls. The one of this number fails or takes no bytes, each other one
// fills or takes its whole buffer.
#[derive(Drop)]
struct Noted {
    calls: Vec<Call>,
    faulty: usize,
    fails: bool,
}

impl Noted {
    // Notes a call, and answers it.
    fn answer(&mut self, call: Call, length: usize) -> io::Result<usize> {
        let number = self.calls.len();
        self.calls.push(call)?;
        if number != self.faulty {
            return Ok(length);
        }
        if self.fails {
            Err(Error::from(ErrorKind::Other))
        } else {
            Ok(0)
        }
    }
}

impl Read for Noted {
    ghost remaining = { λ _. None };

    fn read(&mut self, buf: &mut [u8]) -> io::Result<usize> {
        let length = buf.len();
        let answer = self.answer(Call::Read(length), length)?;
        Ok(answer.min(length))
    }
}

impl Write for Noted {
    ghost contents = { λ _. None };

    fn write(&mut self, buf: &[u8]) -> io::Result<usize> {
        let length = buf.len();
        let answer = self.answer(Call::Write(length), length)?;
        Ok(answer.min(length))
    }

    fn flush(&mut self) -> io::Result<()> {
        self.answer(Call::Flush, 0)?;
        Ok(())
    }
}

// The answers of a watched stream, and the calls that it passes on.
#[derive(Drop)]
struct Wanted {
    passed: Vec<Call>,
    failed: bool,
    stalled: bool,
    reads: u64,
}

impl Wanted {
    // The answer to a call, `None` for a failure.
    fn answer(
        &mut self,
        call: Call,
        faulty: usize,
        fails: bool,
    ) -> Result<Option<usize>, AllocError> {
        let is_over = self.failed || self.stalled;
        let (length, is_read) = match call {
            Call::Read(length) => (length, true),
            Call::Write(length) => (length, false),
            Call::Flush => (0, false),
        };
        if is_read {
            self.reads = self.reads.saturating_add(1);
        } else if is_over {
            self.failed = true;
            return Ok(None);
        }
        let is_faulty = self.passed.len() == faulty;
        self.passed.push(call)?;
        if is_faulty && fails {
            self.failed = true;
            return Ok(None);
        }
        if is_faulty && !is_read && length > 0 {
            self.stalled = true;
        }
        Ok(Some(if is_faulty { 0 } else { length }))
    }
}

// Makes a call of a watched stream: how many bytes it gives or takes, `None` for a failure.
fn called(watched: &mut Watched<Noted>, call: Call, room: &mut [u8]) -> Option<usize> {
    let most = room.len();
    match call {
        Call::Read(length) => watched.read(&mut room[..length.min(most)]).ok(),
        Call::Write(length) => watched.write(&room[..length.min(most)]).ok(),
        Call::Flush => watched.flush().ok().map(|_| 0),
    }
}

// All calls, of which the stream inside answers the one of this number by a fault.
fn assert_calls(
    rt: &impl Abort,
    alloc: Global,
    room: &mut [u8],
    faulty: usize,
    fails: bool,
) -> Result<(), Fail> {
    let mut watched = Watched::new(Noted {
        calls: Vec::new(alloc),
        faulty,
        fails,
    });
    let mut wanted = Wanted {
        passed: Vec::new(alloc),
        failed: false,
        stalled: false,
        reads: 0,
    };
    for call in &CALLS {
        let answer = wanted.answer(*call, faulty, fails)?;
        assert!(rt; called(&mut watched, *call, room) == answer);
        assert!(rt; watched.failed() == wanted.failed);
        assert!(rt; watched.stalled() == wanted.stalled);
        assert!(rt; watched.reads() == wanted.reads);
    }
    let noted = watched.into_inner();
    assert!(rt; noted.calls.as_slice() == wanted.passed.as_slice());
    Ok(())
}

fn zeros(alloc: Global) -> Result<Vec<u8>, AllocError> {
    vec![in alloc; 0u8; LONGEST]
}

#[test]
fn calls_are_passed_on_one_for_one(rt: HostRuntime) -> Result<(), Fail> {
    let mut room = zeros(rt.alloc())?;
    assert!(&rt; room.len() == LONGEST);
    for faulty in 0..CALLS.len() + 1 {
        assert_calls(&rt, rt.alloc(), &mut room, faulty, true)?;
        assert_calls(&rt, rt.alloc(), &mut room, faulty, false)?;
    }
    Ok(())
}
