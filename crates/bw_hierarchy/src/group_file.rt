//! The files of a group, by their names.
ghost use Rattle.std.specs.Prelude.{◌≡◌, IfSome, Some};
ghost use Rattle.bw_hierarchy.specs.GroupFiles.{file_name, file_named, is_of_root};
ghost use Rattle.bw_hierarchy.specs.declared.group_file.GroupFile.{GroupFile};

/// A file of a group (cgroup-v2.rst, "CPU Interface Files").
#[derive(Clone, Copy, Debug, PartialEq, Eq)]
pub enum GroupFile {
    /// `cpu.weight`: its share among its siblings.
    Weight,
    /// `cpu.max`: its limit, and the length of its own period.
    Max,
    /// `cpu.max.burst`: what it may use above its limit in one of its own periods.
    MaxBurst,
    /// `cpu.stat`: its counters, which are read alone.
    Stat,
}

impl GroupFile {
    /// Whether the root has this file.
    pub fn is_of_root(self) -> bool
        ensures { result ≡ is_of_root self }
    {
        match self {
            GroupFile::Weight => false,
            GroupFile::Max => false,
            GroupFile::MaxBurst => false,
            GroupFile::Stat => true,
        }
    }
}

fn look_up(name: &str) -> Option<GroupFile>
    ensures { result ≡ file_named name.now }
{
    match name {
        "cpu.weight" => Some(GroupFile::Weight),
        "cpu.max" => Some(GroupFile::Max),
        "cpu.max.burst" => Some(GroupFile::MaxBurst),
        "cpu.stat" => Some(GroupFile::Stat),
        _ => None,
    }
}

/// File with this name; `None` for any other text.
pub fn file_named(name: &str) -> Option<GroupFile>
    // A file is found if and only if the text is its name.
    ensures found { IfSome result (λ file. name.now ≡ file_name file) }
    ensures only { (file : GroupFile) → name.now ≡ file_name file → result ≡ Some file }
    ensures exact { result ≡ file_named name.now }
{
    look_up(name)
}
