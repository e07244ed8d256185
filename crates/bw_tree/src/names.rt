//! Names of groups, and the first name of a path.
ghost use Rattle.std.specs.Prelude.{◌≡◌, ◌==◌, ◌<◌, [], ◌∷◌, length, position, MatchOption};
ghost use Rattle.std.specs.Prelude.{IfSome};
ghost use Rattle.std.specs.List.{list_all, slice_split};
ghost use Rattle.bw_tree.specs.Groups.{is_name, is_name_byte};

use crate::limits::MAX_NAME;
use bw_text::is_word;

pub(crate) fn is_name(name: &str) -> bool
    ensures { result ≡ is_name name.now }
{
    if name.len() < 1 {
        return false;
    }
    if name.len() > MAX_NAME {
        return false;
    }
    if !are_name_bytes(name.as_bytes()) {
        return false;
    }
    if is_word(name, ".") {
        return false;
    }
    if is_word(name, "..") {
        return false;
    }
    true
}

fn are_name_bytes(bytes: &[u8]) -> bool
    ensures { result ≡ list_all is_name_byte bytes.now }
{
    bytes.iter().all(|b| *b != b'/' && *b != 0 && *b != b'\n')
}

/// Splits a path at its first `/` into the first name and the rest; `None` if it has no `/`.
pub fn split_front(path: &str) -> Option<(&str, &str)>
    ensures parts { MatchOption result (slice_split (λ b. b == 47) path.now ≡ path.now ∷ [])
        (λ x. slice_split (λ b. b == 47) path.now ≡ x.0.now ∷ slice_split (λ b. b == 47) x.1.now) }
    ensures shorter { IfSome result (λ x. length x.1.now < length path.now) }
{
    let Some(place) = first_slash(path.as_bytes()) else {
        return None;
    };
    let (name, _) = path.split_at(place);
    let (_, rest) = path.split_at(place + 1);
    Some((name, rest))
}

// Place of the first `/`. This loop costs less than the library's search for a `char`.
fn first_slash(path: &[u8]) -> Option<usize>
    ensures value { result ≡ position (λ b. b == 47) path.now }
    ensures within { IfSome result (λ n. n < length path.now) }
{
    path.iter().position(|b| *b == b'/')
}
