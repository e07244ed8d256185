//! The number of groups on a path, which definitions of trees go by, and the width of a marked
//! line.
ghost use Rattle.std.specs.Prelude.{◌≡◌};
ghost use Rattle.bw_commands.specs.declared.marked.TheConstants.{LEAST_MARKED, MOST_MARKED};
ghost use Rattle.bw_commands.specs.declared.marked.TheConstants.{WIDE};
ghost use Rattle.bw_model.specs.declared.limits.TheConstants.{MAX_PATH};

/// Law: a path has up to 65 groups, both ends included.
pub fn path_numbers()
    ensures { MAX_PATH ≡ 65 }
{}

/// Law: a line of up to 32 bytes comes with the places of its blanks. They are marked in a text of
/// 8 to 63 bytes.
pub fn line_numbers()
    ensures wide { WIDE ≡ 32 }
    ensures least { LEAST_MARKED ≡ 8 }
    ensures most { MOST_MARKED ≡ 63 }
{}
