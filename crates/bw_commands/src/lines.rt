//! The lines of a script.
ghost use Rattle.std.specs.Prelude.{◌≡◌, ◌<◌, ◌∷◌, length};
ghost use Rattle.bw_commands.specs.Lines.{lines_of};

/// Splits off the first line. Its newline, if it has one, is in neither part.
pub(crate) fn first_line(text: &[u8]) -> (&[u8], &[u8])
    requires { 0 < length text.now }
    ensures lines { lines_of text.now ≡ result.0.now ∷ lines_of result.1.now }
    ensures shorter { length result.1.now < length text.now }
{
    match bw_text::split_line(text) {
        Some((line, rest)) => (line, rest),
        None => (text, &[]),
    }
}
