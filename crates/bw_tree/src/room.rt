//! Room for more groups in the lists of a tree.
ghost use Rattle.std.specs.Prelude.{◌≡◌, ◌≤◌, ◌<◌, length, vec_len, vec_capacity, OnOk};

use bw_model::limits::MAX_GROUPS;
use std::alloc::AllocError;

// Makes room for one more element. A full list gets room for four times as many, so it seldom
// moves its elements. Of a large block the system backs only the pages that are written.
#[inline(always)]
pub(crate) fn leave_room<T>(list: &mut Vec<T>) -> Result<(), AllocError>
    requires { length list.old.items ≤ MAX_GROUPS }
    ensures items { list.new.items ≡ list.old.items }
    ensures room { OnOk result (vec_len list.new < vec_capacity list.new) }
{
    if list.len() < list.capacity() {
        return Ok(());
    }
    list.reserve(3 * list.len().max(1))
}
