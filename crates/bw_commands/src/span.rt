//! A part of a text.

/// Where a part of a text begins, and where it ends: the byte after its last one.
#[derive(Clone, Copy)]
pub struct Span {
    pub start: usize,
    pub end: usize,
}
