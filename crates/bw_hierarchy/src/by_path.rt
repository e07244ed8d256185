//! Finds and makes groups by their paths.
ghost use Rattle.std.specs.Prelude.{◌≡◌, ◌<◌, length, OnErr, IfOk, IfErr, IfSome, Ok};
ghost use Rattle.std.specs.Option.{option_map};
ghost use Rattle.std.specs.Path.{rfind_below, rsplit_once};
ghost use Rattle.bw_hierarchy.specs.Faults.{IsRefusal, IsMemoryLast};
ghost use Rattle.bw_hierarchy.specs.Calls.{found_at, mkdir_of};

use crate::fault::Fault;
use bw_tree::{GroupId, Tree};

pub(crate) fn find(tree: &Tree, path: &str) -> Result<GroupId, Fault>
    ensures { result ≡ found_at tree.now path.now }
{
    Ok(tree.find(path)?)
}

// Splits a path into the parent's path and the name; `None` if it has no `/`.
fn split_last(path: &str) -> Option<(&str, &str)>
    ensures { option_map (λ x. (x.0.now, x.1.now)) result ≡ rsplit_once 47 path.now }
{
    let Some(place) = last_slash(path.as_bytes()) else {
        return None;
    };
    let (front, _) = path.split_at(place);
    let (_, name) = path.split_at(place + 1);
    Some((front, name))
}

// Place of the last `/`. This loop costs less than the library's search for a `char`.
fn last_slash(path: &[u8]) -> Option<usize>
    ensures value { result ≡ rfind_below 47 path.now (length path.now) }
    ensures within { IfSome result (λ n. n < length path.now) }
{
    let mut end = path.len();
    while end > 0 {
        end -= 1;
        if path[end] == b'/' {
            return Some(end);
        }
    }
    None
}

// Makes a group at a path. Its parent is the root if the path has no `/`.
pub(crate) fn mkdir(tree: &mut Tree, path: &str) -> Result<GroupId, Fault>
    ensures made { IfOk result (λ id. mkdir_of tree.old path.now ≡ Ok (id, tree.new)) }
    ensures refused { IfErr result (IsRefusal (mkdir_of tree.old path.now)) }
    ensures memory { IfErr result (IsMemoryLast (mkdir_of tree.old path.now)) }
    ensures err { OnErr result (tree.new ≡ tree.old) }
{
    match split_last(path) {
        None => Ok(tree.mkdir(0, path)?),
        Some((front, name)) => {
            let parent = find(tree, front)?;
            Ok(tree.mkdir(parent, name)?)
        }
    }
}
