//! Names that are written into a caller's buffer.
ghost use Rattle.std.specs.Prelude.{◌≡◌};
ghost use Rattle.bw_exports.specs.Names.{with_name};

use bw_columns::write_front;

/// Writes a name and a 0 to the beginning, if there is room for both.
#[tactic(auto, unfolding(crate::specs::Names::with_name))]
pub(crate) fn write_name(into: &mut [u8], name: &[u8])
    ensures { into.new ≡ with_name name.now into.old }
{
    if name.len() < into.len() {
        write_front(into, name);
        into[name.len()] = 0;
    }
}
