//! Limits of a split, and the numbers of its search.
use bw_model::limits::{MAX_CAPACITY, MAX_GROUPS, MAX_WEIGHT};

/// Greatest number of children in one split: all groups but the root can be children of one.
pub const MAX_CHILDREN: usize = MAX_GROUPS - 1;

/// Greatest number of levels that one split tests on all children. As many halvings cut the
/// greatest level down to one step.
pub const MAX_ROUNDS: u64 = 44;

/// Number of steps that [`MAX_ROUNDS`] halvings bring down to one.
pub const WIDEST: u64 = 1 << MAX_ROUNDS;

/// Steps of a level in a cost of one: a power of two, so that a division by it is a shift.
///
/// Two costs that differ are at least a step apart. They have two weights below them, so they
/// differ by at least the cost one over the product of the weights.
pub const STEPS: u64 = 1 << 27;

const _: () = prove!(MAX_WEIGHT * MAX_WEIGHT <= STEPS);

/// Levels below this one are two numbers of 18 bits: of parts, and of steps above them.
pub const LOW_LEVELS: u64 = LOW_PART * LOW_PART;

/// Steps in a part of a low level. The product of a weight and a number of 18 bits has 32 bits.
pub const LOW_PART: u64 = 1 << 18;

/// Steps in a part of a cost, for other levels. The product of a weight and the number of parts, or
/// of steps in one, has 32 bits.
pub const FINE: u32 = 1 << 11;

/// Steps in which the first guess of a search is reckoned, so that its products fit in 64 bits.
pub const COARSE: u64 = 4096;

/// Level, in steps, at which each child takes its maximum: the last mark of the greatest amount at
/// the least weight.
pub const GREATEST_LEVEL: u64 = (2 * MAX_CAPACITY - 1) * STEPS;

/// Greatest number in a list of 16 bits, as of maxima and parts in slices.
pub const MAX_PART: u64 = 65535;

const _: () = prove!(MAX_CAPACITY <= MAX_PART);
