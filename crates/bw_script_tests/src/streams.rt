//! A reader and a writer that fail.
ghost use Rattle.std.specs.Prelude.{◌<◌, Some};

use std::io;
use std::io::{Read, Write};

// A reader that gives at most `most` bytes a call, and fails in place of giving more than `left`.
#[derive(Drop)]
pub(crate) struct Broken<'a> {
    pub(crate) bytes: &'a [u8],
    pub(crate) most: usize,
    pub(crate) left: usize,
    pub(crate) kind: io::ErrorKind,
    ghost gives_some: { 0 < most },
}

impl Read for Broken<'_> {
    ghost remaining = { λ s. Some s.bytes.now };

    fn read(&mut self, buf: &mut [u8]) -> io::Result<usize> {
        if self.left == 0 {
            return Err(io::Error::from(self.kind));
        }
        let n = buf
            .len()
            .min(self.most)
            .min(self.left)
            .min(self.bytes.len());
        let (front, rest) = self.bytes.split_at(n);
        buf[..n].copy_from_slice(front);
        self.bytes = rest;
        self.left -= n;
        Ok(n)
    }
}

// A writer that takes at most `most` bytes a call. At the call after `left` it fails, or takes
// none.
#[derive(Drop)]
pub(crate) struct Choked {
    pub(crate) bytes: Vec<u8>,
    pub(crate) most: usize,
    pub(crate) left: usize,
    pub(crate) stalls: bool,
}

impl Write for Choked {
    ghost contents = { λ w. Some w.bytes.items };

    fn write(&mut self, buf: &[u8]) -> io::Result<usize> {
        if self.left == 0 {
            if self.stalls {
                return Ok(0);
            }
            return Err(io::Error::from(io::ErrorKind::Other));
        }
        let n = buf.len().min(self.most);
        self.bytes.extend_from_slice(buf.split_at(n).0)?;
        self.left -= 1;
        Ok(n)
    }

    fn flush(&mut self) -> io::Result<()> {
        Ok(())
    }
}
