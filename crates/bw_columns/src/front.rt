//! Lists written to the front of a caller's buffer.
ghost use Rattle.std.specs.Prelude.{◌≡◌, ◌≤◌, ◌++◌, length, drop};

/// Writes all of a list to the front of a buffer.
pub fn write_front<T: Copy>(into: &mut [T], list: &[T])
    requires { length list.now ≤ length into.old }
    ensures { into.new ≡ list.now ++ drop (length list.now) into.old }
{
    let (front, _) = into.split_at_mut(list.len());
    front.copy_from_slice(list);
}
