//! Paths of groups, each after that of its parent in one text: a path is made from the parent's.
ghost use Rattle.std.specs.Prelude.{◌≡◌, ◌≤◌, ◌<◌, ◌++◌, ◌∷◌, [], length, OnOk, IfSome};
ghost use Rattle.std.specs.Vec.{vec_capacity};
ghost use Rattle.bw_commands.specs.PathList.{cut, cuts, AreWithin, path_below};

use crate::span::Span;
use std::alloc::AllocError;

/// Appends the path of a group whose parent's row, if it has a parent, is one of those with these
/// spans.
///
/// # Errors
///
/// `AllocError` if an allocation failed.
pub fn put_path(
    text: &mut Vec<u8>,
    spans: &[Span],
    parent: Option<u32>,
    name: &str,
) -> Result<(), AllocError>
    requires within { AreWithin (length text.old.items) spans.now }
    requires parent { IfSome parent (λ p. p < length spans.now) }
    ensures ok { OnOk result (text.new.items ≡ text.old.items
        ++ path_below (cuts text.old.items spans.now) parent name.now) }
    ensures room { vec_capacity text.old ≤ vec_capacity text.new }
{
    let Some(parent) = parent else {
        text.push(b'.')?;
        return Ok(());
    };
    if parent == 0 {
        text.extend_from_slice(name.as_bytes())?;
        return Ok(());
    }
    put_below(text, spans[parent as usize], name)?;
    Ok(())
}

// Appends a path that stands in the text already, `/` and a name.
fn put_below(text: &mut Vec<u8>, above: Span, name: &str) -> Result<(), AllocError>
    requires { AreWithin (length text.old.items) (above ∷ []) }
    ensures ok { OnOk result
        (text.new.items ≡ text.old.items ++ (cut text.old.items above ++ 47 ∷ name.now)) }
    ensures room { vec_capacity text.old ≤ vec_capacity text.new }
{
    put_front(text, above)?;
    text.extend_from_slice(name.as_bytes())?;
    Ok(())
}

// Appends a part of the text once more, and `/`. `extend_from_within` would go byte by byte.
fn put_front(text: &mut Vec<u8>, part: Span) -> Result<(), AllocError>
    requires { AreWithin (length text.old.items) (part ∷ []) }
    ensures ok { OnOk result
        (text.new.items ≡ text.old.items ++ (cut text.old.items part ++ 47 ∷ [])) }
    ensures room { vec_capacity text.old ≤ vec_capacity text.new }
{
    let at = text.len();
    let bytes = part.end - part.start;
    // the last byte stays `/`
    text.resize(at + bytes + 1, b'/')?;
    let (written, front) = text.as_mut_slice().split_at_mut(at);
    let (copy, _) = front.split_at_mut(bytes);
    copy.copy_from_slice(&written[part.start..part.end]);
    Ok(())
}
