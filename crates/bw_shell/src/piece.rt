//! A part of a script, which is tested for UTF-8 at most once.
ghost use Rattle.std.specs.Prelude.{◌≡◌, ◌+◌, ◌<◌, length, take, drop, slice_index};
ghost use Rattle.bw_shell.specs.Piece.{bytes_of};

use bw_commands::{MOST_MARKED, Marked, WIDE};

/// A part of a script. A part of `Text` is text too, so that its lines need no test of their own.
#[derive(Clone, Copy)]
pub(crate) enum Piece<'a> {
    Text(&'a str),
    Bytes(&'a [u8]),
    /// A short line, whose blanks are marked.
    Line(Marked<'a>),
}

impl<'a> Piece<'a> {
    ghost use Rattle.std.specs.Prelude.{◌≡◌, ◌+◌, ◌<◌, length, take, drop, slice_index};
    ghost use Rattle.bw_shell.specs.Piece.{bytes_of};

    /// Tests all bytes at once.
    pub fn new(bytes: &'a [u8]) -> Piece<'a>
        ensures { bytes_of result ≡ bytes.now }
    {
        match str::from_utf8(bytes) {
            Ok(text) => Piece::Text(text),
            Err(_) => Piece::Bytes(bytes),
        }
    }

    /// Returns the bytes.
    pub fn bytes(self) -> &'a [u8]
        ensures { result.now ≡ bytes_of self.entry }
    {
        match self {
            Piece::Text(text) => text.as_bytes(),
            Piece::Bytes(bytes) => bytes,
            Piece::Line(line) => line.text().as_bytes(),
        }
    }

    /// Splits off the line that ends in front of this byte, a newline. The newline is in neither
    /// part.
    pub fn split_line(self, end: usize) -> (Piece<'a>, Piece<'a>)
        requires end { end < length (bytes_of self) }
        requires ascii { slice_index (bytes_of self) end < 128 }
        ensures front { bytes_of result.0 ≡ take end (bytes_of self.entry) }
        ensures behind { bytes_of result.1 ≡ drop (end + 1) (bytes_of self.entry) }
    {
        match self {
            Piece::Text(text) => split_text(text, end),
            Piece::Line(line) => split_text(line.text(), end),
            Piece::Bytes(bytes) => (Piece::Bytes(&bytes[..end]), Piece::Bytes(&bytes[end + 1..])),
        }
    }
}

// Splits off the line that ends in front of this byte of a text. The blanks of a short line are
// marked.
#[inline(always)]
fn split_text(text: &str, end: usize) -> (Piece<'_>, Piece<'_>)
    requires end { end < length text.now }
    requires ascii { slice_index text.now end < 128 }
    ensures front { bytes_of result.0 ≡ take end text.now }
    ensures behind { bytes_of result.1 ≡ drop (end + 1) text.now }
{
    let behind = &text[end..];
    let rest = Piece::Text(&behind[1..]);
    if WIDE <= text.len() && end <= WIDE {
        return (Piece::Line(Marked::at_front(text, end)), rest);
    }
    let front = &text[..end];
    if WIDE < end && end <= MOST_MARKED {
        return (Piece::Line(Marked::new(front)), rest);
    }
    (Piece::Text(front), rest)
}
