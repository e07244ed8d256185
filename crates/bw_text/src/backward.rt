//! Texts that are written into a buffer from their last byte to their first.
//!
//! A number's digits come from its last to its first. So each word is written in place, and the
//! whole text is appended by one copy.
ghost use Rattle.std.specs.Prelude.{◌≡◌, ◌+◌, ◌≤◌, ◌<◌, ◌∷◌, ◌++◌, length, take, drop, IsAscii};
ghost use Rattle.std.specs.Prelude.{OnErr, is_ok, if◌then◌else◌};
ghost use Rattle.std.specs.Prelude.{string_bytes, string_len, string_capacity};
ghost use Rattle.std.specs.Fmt.{decimal};

use itoa::write_digits;
use std::alloc::AllocError;

/// Writes a byte right before the text that begins at `end`, and returns where it stands.
pub fn write_byte_before(buffer: &mut [u8], end: usize, byte: u8) -> usize
    requires room { 1 ≤ end }
    requires within { end ≤ length buffer.old }
    ensures start { result + 1 ≡ end }
    ensures written { drop result buffer.new ≡ byte ∷ drop end buffer.old }
    ensures before { take result buffer.new ≡ take result buffer.old }
{
    buffer[end - 1] = byte;
    end - 1
}

/// Writes a number in decimal digits right before the text that begins at `end`, and returns where
/// the digits begin.
///
/// A number has 1 to 20 digits.
pub fn write_number_before(buffer: &mut [u8], end: usize, n: u64) -> usize
    requires room { 20 ≤ end }
    requires within { end ≤ length buffer.old }
    ensures start { result + length (decimal n) ≡ end }
    ensures at_most { end ≤ result + 20 }
    ensures written { drop result buffer.new ≡ decimal n ++ drop end buffer.old }
    ensures before { take result buffer.new ≡ take result buffer.old }
{
    write_digits(n, buffer, end)
}

/// Appends a text of ASCII bytes.
///
/// # Errors
///
/// `AllocError` if the text has too little room and memory is refused. The text is then unchanged.
pub fn push_ascii(out: &mut String, bytes: &[u8]) -> Result<(), AllocError>
    requires { IsAscii bytes.now }
    ensures bytes { string_bytes out.new
        ≡ (if is_ok result then string_bytes out.old ++ bytes.now else string_bytes out.old) }
    ensures full { OnErr result (string_capacity out.old
        < string_len out.old + length bytes.now) }
{
    // SAFETY: ASCII bytes are UTF-8. It is proved, so the bytes need no second pass.
    out.push_str(unsafe { std::str::from_utf8_unchecked(bytes) })
}
