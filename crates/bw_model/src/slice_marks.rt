//! The marks of a child: of the last of its slices, and of the next one.
ghost use Rattle.std.specs.Prelude.{◌≡◌, ◌<◌, ◌≤◌};
ghost use Rattle.bw_model.specs.Marks.{price_of, last_mark, next_mark};

use crate::limits::MAX_CAPACITY;
use crate::mark::Mark;

/// The mark of the last of a child's slices, 1 to 64,000, of a child of a weight of at least 1.
pub fn last_mark(slices: u64, weight: u64, place: u32) -> Mark
    requires some { 0 < slices }
    requires small { slices ≤ MAX_CAPACITY }
    requires weighed { 0 < weight }
    ensures { price_of result ≡ last_mark slices weight place }
{
    Mark {
        num: 2 * slices - 1,
        den: weight,
        place,
    }
}

/// The mark of one slice more than a child has, 0 to 64,000, of a child of a weight of at least 1.
pub fn next_mark(slices: u64, weight: u64, place: u32) -> Mark
    requires small { slices ≤ MAX_CAPACITY }
    requires weighed { 0 < weight }
    ensures { price_of result ≡ next_mark slices weight place }
{
    Mark {
        num: 2 * slices + 1,
        den: weight,
        place,
    }
}
