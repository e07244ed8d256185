//! Reads and writes the files of a group.
ghost use Rattle.std.specs.Prelude.{◌≡◌, ◌≤◌, ◌==◌, false, [], OnOk, OnErr, IfOk, IfErr, Ok, Err};
ghost use Rattle.std.specs.Prelude.{None};
ghost use Rattle.std.specs.Str.{IsUtf8};
ghost use Rattle.std.specs.Vec.{vec_capacity};
ghost use Rattle.bw_model.specs.Host.{IsHost};
ghost use Rattle.bw_tree.specs.Groups.{group_at};
ghost use Rattle.bw_tree.specs.Tree.{setting_refusal};
ghost use Rattle.bw_hierarchy.specs.Faults.{IsRefusal, IsMemoryLast};
ghost use Rattle.bw_hierarchy.specs.Calls.{found_at};
ghost use Rattle.bw_hierarchy.specs.GroupFiles.{file_named, is_of_root};
ghost use Rattle.bw_hierarchy.specs.Files.{file_of, text_of, read_of, weight_write, max_write};
ghost use Rattle.bw_hierarchy.specs.Files.{burst_write, write_at, write_of};

use crate::fault::Fault;
use crate::group_file::{GroupFile, file_named};
use crate::{by_path, settings};
use bw_files::{put_burst, put_max, put_stat, put_weight, read_burst, read_max, read_weight};
use bw_model::HostShape;
use bw_stat::Books;
use bw_tree::{GroupId, Tree, TreeFault};

// File of a group with this name.
fn file_of(id: GroupId, name: &str) -> Result<GroupFile, Fault>
    ensures exact { result ≡ file_of id (file_named name.now) }
    ensures inner { IfOk result (λ file. is_of_root file ≡ false → (id == 0) ≡ false) }
{
    let Some(file) = file_named(name) else {
        return Err(Fault::NoSuchFile);
    };
    if !file.is_of_root() && id == 0 {
        return Err(Fault::NoSuchFile);
    }
    Ok(file)
}

// Appends the text of a group's file to an empty text.
fn put_text(
    tree: &Tree,
    books: &Books,
    id: GroupId,
    name: &str,
    text: &mut Vec<u8>,
) -> Result<(), Fault>
    requires { text.old.items ≡ [] }
    ensures found { OnOk result
        (text_of books.now id name.now (group_at tree.now.groups id) ≡ Ok text.new.items) }
    ensures utf8 { OnOk result (IsUtf8 text.new.items) }
    ensures refused { IfErr result
        (IsRefusal (text_of books.now id name.now (group_at tree.now.groups id))) }
    ensures memory { IfErr result
        (IsMemoryLast (text_of books.now id name.now (group_at tree.now.groups id))) }
    ensures room { vec_capacity text.old ≤ vec_capacity text.new }
{
    let Some(group) = tree.group(id) else {
        return Err(Fault::Tree(TreeFault::NotFound));
    };
    match file_of(id, name)? {
        GroupFile::Weight => Ok(put_weight(group.weight, text)?),
        GroupFile::Max => Ok(put_max(group.quota, group.period, text)?),
        GroupFile::MaxBurst => Ok(put_burst(group.burst, text)?),
        GroupFile::Stat => Ok(put_stat(&books.counters(id), id == 0, text)?),
    }
}

// Appends the text of a file of the group at a path to an empty text.
pub(crate) fn read_into(
    shape: HostShape,
    tree: &Tree,
    books: &Books,
    path: &str,
    file: &str,
    text: &mut Vec<u8>,
) -> Result<(), Fault>
    requires { text.old.items ≡ [] }
    ensures found { OnOk result
        (read_of (record { shape = shape; tree = tree.now; books = books.now })
        path.now file.now ≡ Ok text.new.items) }
    ensures utf8 { OnOk result (IsUtf8 text.new.items) }
    ensures refused { IfErr result
        (IsRefusal (read_of (record { shape = shape; tree = tree.now; books = books.now })
        path.now file.now)) }
    ensures memory { IfErr result
        (IsMemoryLast (read_of (record { shape = shape; tree = tree.now; books = books.now })
        path.now file.now)) }
    ensures room { vec_capacity text.old ≤ vec_capacity text.new }
{
    let id = by_path::find(tree, path)?;
    put_text(tree, books, id, file, text)
}

fn write_weight_at(tree: &mut Tree, id: GroupId, text: &[u8]) -> Result<(), Fault>
    requires { setting_refusal tree.old id ≡ None }
    ensures set { OnOk result (weight_write tree.old id text.now ≡ Ok tree.new) }
    ensures refused { IfErr result (λ e. weight_write tree.old id text.now ≡ Err e) }
    ensures err { OnErr result (tree.new ≡ tree.old) }
{
    let weight = read_weight(text)?;
    Ok(tree.set_weight(id, weight)?)
}

fn write_max_at(tree: &mut Tree, id: GroupId, text: &[u8]) -> Result<(), Fault>
    requires { setting_refusal tree.old id ≡ None }
    ensures set { OnOk result (max_write tree.old id text.now ≡ Ok tree.new) }
    ensures refused { IfErr result (λ e. max_write tree.old id text.now ≡ Err e) }
    ensures err { OnErr result (tree.new ≡ tree.old) }
{
    let wanted = read_max(text)?;
    settings::set_max(tree, id, wanted.quota, wanted.period)
}

fn write_burst_at(tree: &mut Tree, id: GroupId, text: &[u8]) -> Result<(), Fault>
    requires { setting_refusal tree.old id ≡ None }
    ensures set { OnOk result (burst_write tree.old id text.now ≡ Ok tree.new) }
    ensures refused { IfErr result (λ e. burst_write tree.old id text.now ≡ Err e) }
    ensures err { OnErr result (tree.new ≡ tree.old) }
{
    let burst = read_burst(text)?;
    settings::set_burst(tree, id, burst)
}

fn write_at(tree: &mut Tree, id: GroupId, name: &str, text: &[u8]) -> Result<(), Fault>
    ensures set { OnOk result (write_at tree.old id name.now text.now ≡ Ok tree.new) }
    ensures refused { IfErr result (λ e. write_at tree.old id name.now text.now ≡ Err e) }
    ensures err { OnErr result (tree.new ≡ tree.old) }
{
    if tree.group(id).is_none() {
        return Err(Fault::Tree(TreeFault::NotFound));
    }
    match file_of(id, name)? {
        GroupFile::Weight => write_weight_at(tree, id, text),
        GroupFile::Max => write_max_at(tree, id, text),
        GroupFile::MaxBurst => write_burst_at(tree, id, text),
        GroupFile::Stat => Err(Fault::ReadOnly),
    }
}

// Writes a text into a file of the group at a path, and returns the group's id.
pub(crate) fn write(tree: &mut Tree, path: &str, file: &str, text: &[u8]) -> Result<GroupId, Fault>
    ensures set { OnOk result (write_of tree.old path.now file.now text.now ≡ Ok tree.new) }
    ensures found { IfOk result (λ id. found_at tree.old path.now ≡ Ok id) }
    ensures refused { IfErr result (λ e. write_of tree.old path.now file.now text.now ≡ Err e) }
    ensures err { OnErr result (tree.new ≡ tree.old) }
{
    let id = by_path::find(tree, path)?;
    write_at(tree, id, file, text)?;
    Ok(id)
}
