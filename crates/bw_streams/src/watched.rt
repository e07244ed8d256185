//! A reader or a writer that remembers how its calls went.
ghost use Rattle.std.specs.Prelude.{◌≡◌, ◌+◌, ◌-◌, ◌^◌, ◌||◌, ◌&&◌, ℕ, min, length, false, is_ok};
ghost use Rattle.std.specs.Prelude.{is_err};
ghost use Rattle.std.specs.Option.{option_or};
ghost use Rattle.std.specs.Result.{result_err};
ghost use Rattle.std.specs.Io.{ReadsAtMost, WritesAtMost};
ghost use Rattle.std.specs.Io.KnownBytes.{Keeps, ReadConsumes, WriteAppends};

use std::io::{Error, ErrorKind, Read, Result, Write};

/// Passes each read, write and flush on to the reader or writer inside, once. After the first fault
/// no write and no flush is passed on. A fault is a call that failed, or a write of some bytes that
/// took none.
///
/// It remembers the error of the first failed call, whether a write of some bytes took none, the
/// number of reads, and whether every successful write was flushed.
#[derive(Drop)]
pub struct Watched<T> {
    inner: T,
    error: Option<Error>,
    stalled: bool,
    reads: u64,
    flushed: bool,
}

impl<T> Watched<T> {
    ghost use Rattle.std.specs.Prelude.{◌≡◌, Some, None, IfSome, IfNone};
    ghost use Rattle.bw_streams.specs.Watched.{inner_of, first_error, has_failed, has_stalled};
    ghost use Rattle.bw_streams.specs.Watched.{read_calls, is_flushed, IsFresh, HasNoFault};

    /// Starts to watch a reader or a writer: no fault and no read so far, and nothing to flush.
    pub fn new(inner: T) -> Watched<T>
        ensures inner { inner_of result ≡ inner }
        ensures fresh { IsFresh result }
    {
        Watched {
            inner,
            error: None,
            stalled: false,
            reads: 0,
            flushed: true,
        }
    }

    /// Whether a read, a write or a flush has failed.
    pub fn failed(&self) -> bool
        ensures { result ≡ has_failed self.now }
    {
        self.error.is_some()
    }

    /// The error of the first read, write or flush that failed.
    pub fn error(&self) -> Option<Error>
        ensures { result ≡ first_error self.now }
    {
        self.error
    }

    /// Whether a write of at least one byte took none.
    pub fn stalled(&self) -> bool
        ensures { result ≡ has_stalled self.now }
    {
        self.stalled
    }

    /// Number of reads, saturating at `u64::MAX`.
    pub fn reads(&self) -> u64
        ensures { result ≡ read_calls self.now }
    {
        self.reads
    }

    /// Whether no write has succeeded since the last successful flush.
    pub fn flushed(&self) -> bool
        ensures { result ≡ is_flushed self.now }
    {
        self.flushed
    }

    /// Ends the watch.
    pub fn into_inner(self) -> T
        ensures { result ≡ inner_of self }
    {
        let Watched { inner, .. } = self;
        inner
    }

    // The error of every write and flush after the first fault.
    fn fault(&self) -> Option<Error>
        ensures none { HasNoFault self.now → result ≡ None }
        ensures some { IfNone result (HasNoFault self.now) }
        ensures error { IfSome (first_error self.now) (λ e. result ≡ Some e) }
    {
        if self.error.is_none() && self.stalled {
            return Some(Error::from(ErrorKind::WriteZero));
        }
        self.error
    }
}

impl<T: Read> Read for Watched<T> {
    ghost use Rattle.std.specs.Prelude.{◌≡◌, ◌+◌, ◌-◌, ◌^◌, ◌||◌, min, is_err};
    ghost use Rattle.std.specs.Option.{option_or};
    ghost use Rattle.std.specs.Result.{result_err};
    ghost use Rattle.std.specs.Io.{ReadsAtMost};
    ghost use Rattle.std.specs.Io.KnownBytes.{ReadConsumes};
    ghost use Rattle.bw_streams.specs.Watched.{inner_of, first_error, has_failed, has_stalled};
    ghost use Rattle.bw_streams.specs.Watched.{read_calls, is_flushed};

    ghost remaining = { λ w. T.remaining (inner_of w) };

    fn read(&mut self, buf: &mut [u8]) -> Result<usize>
        ensures bound { ReadsAtMost result buf.new }
        ensures bytes { ReadConsumes (T.remaining (inner_of self.old))
            (T.remaining (inner_of self.new)) result buf.new }
        ensures error { first_error self.new
            ≡ option_or (first_error self.old) (result_err result) }
        ensures failed { has_failed self.new ≡ (has_failed self.old || is_err result) }
        ensures stalled { has_stalled self.new ≡ has_stalled self.old }
        ensures reads { read_calls self.new ≡ min (read_calls self.old + 1) (2 ^ 64 - 1) }
        ensures flushed { is_flushed self.new ≡ is_flushed self.old }
    {
        self.reads = self.reads.saturating_add(1);
        let result = self.inner.read(buf);
        self.error = self.error.or(result.err());
        result
    }
}

impl<T: Write> Write for Watched<T> {
    ghost use Rattle.std.specs.Prelude.{◌≡◌, ◌||◌, ◌&&◌, is_ok, is_err};
    ghost use Rattle.std.specs.Option.{option_or};
    ghost use Rattle.std.specs.Result.{result_err};
    ghost use Rattle.std.specs.Io.{WritesAtMost};
    ghost use Rattle.std.specs.Io.KnownBytes.{Keeps, WriteAppends};
    ghost use Rattle.bw_streams.specs.Watched.{inner_of, first_error, has_failed, has_stalled};
    ghost use Rattle.bw_streams.specs.Watched.{read_calls, is_flushed, takes_none, StopsAtFault};

    ghost contents = { λ w. T.contents (inner_of w) };

    fn write(&mut self, buf: &[u8]) -> Result<usize>
        ensures bound { WritesAtMost result buf.now }
        ensures bytes { WriteAppends (T.contents (inner_of self.old))
            (T.contents (inner_of self.new)) result buf.now }
        ensures error { first_error self.new
            ≡ option_or (first_error self.old) (result_err result) }
        ensures failed { has_failed self.new ≡ (has_failed self.old || is_err result) }
        ensures stalled { has_stalled self.new
            ≡ (has_stalled self.old || takes_none buf.now result) }
        ensures reads { read_calls self.new ≡ read_calls self.old }
        ensures flushed { is_flushed self.new ≡ (is_flushed self.old && is_err result) }
        ensures stops { StopsAtFault self.old self.new result }
    {
        let result = match self.fault() {
            Some(error) => Err(error),
            None => self.inner.write(buf),
        };
        self.error = self.error.or(result.err());
        if let Ok(n) = result {
            self.flushed = false;
            if n == 0 && !buf.is_empty() {
                self.stalled = true;
            }
        }
        result
    }

    fn flush(&mut self) -> Result<()>
        ensures bytes { Keeps (T.contents (inner_of self.old)) (T.contents (inner_of self.new)) }
        ensures error { first_error self.new
            ≡ option_or (first_error self.old) (result_err result) }
        ensures failed { has_failed self.new ≡ (has_failed self.old || is_err result) }
        ensures stalled { has_stalled self.new ≡ has_stalled self.old }
        ensures reads { read_calls self.new ≡ read_calls self.old }
        ensures flushed { is_flushed self.new ≡ (is_flushed self.old || is_ok result) }
        ensures stops { StopsAtFault self.old self.new result }
    {
        let result = match self.fault() {
            Some(error) => Err(error),
            None => self.inner.flush(),
        };
        self.error = self.error.or(result.err());
        if result.is_ok() {
            self.flushed = true;
        }
        result
    }
}
