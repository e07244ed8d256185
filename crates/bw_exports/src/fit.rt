//! Lengths of a caller's columns.
ghost use Rattle.std.specs.Prelude.{◌≡◌, ◌==◌};
ghost use Rattle.std.specs.List.{list_all};

/// Whether each of these lengths is `count`.
pub(crate) fn are_all(count: usize, lengths: &[usize]) -> bool
    ensures { result ≡ list_all (λ length. length == count) lengths.now }
{
    lengths.iter().all(|length| *length == count)
}
