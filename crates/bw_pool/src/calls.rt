//! The calls of the pool, and its replies.

/// A call of one seat. `leaf` and `group` are rows. The other numbers are in slices.
#[derive(Clone, Copy, Debug, PartialEq)]
pub enum PoolCall {
    /// Draws up to `ask` slices of a leaf: the least of `ask` and of what is left at the leaf, at
    /// each ancestor and at the seat's processor.
    Draw { leaf: u32, ask: u64 },
    /// Gives back `n` slices of a leaf that the seat holds.
    GiveBack { leaf: u32, n: u64 },
    /// Lowers the ceiling of a group to `to`, but not below what is drawn.
    Lower { group: u32, to: u64 },
    /// Reads what a group has drawn, and its ceiling.
    Look { group: u32 },
}

/// The cause of a short draw: the group nearest the leaf that had exactly the drawn slices left, or
/// else the processor.
#[derive(Clone, Copy, Debug, PartialEq)]
pub enum Short {
    /// The group of this row.
    Group(u32),
    /// The seat's processor had no more slices left in the period.
    Processor,
}

/// Refusals of a call, in the order in which they are tested.
#[derive(Clone, Copy, Debug, PartialEq)]
pub enum Refusal {
    /// A draw by a seat without a processor.
    NoProcessor,
    /// The row does not exist.
    NoGroup,
    /// A draw from or a give-back to a group with children.
    NotLeaf,
    /// A draw or a give-back of 0 slices.
    ZeroAsk,
}

/// The reply to a call, in slices. A refused call and `NotHeld` change nothing.
#[derive(Clone, Copy, Debug, PartialEq)]
pub enum PoolReply {
    /// To `Draw`: the slices drawn, 0 to what was asked. `short` is the cause if they are fewer.
    Granted { got: u64, short: Option<Short> },
    /// To `GiveBack`: all slices were given back.
    Returned,
    /// To `GiveBack` of more slices than the seat holds of the leaf. Nothing was given back.
    NotHeld { held: u64 },
    /// To `Lower`: the new ceiling of the group. It is `to`, but at least what is drawn and at most
    /// the old ceiling.
    Lowered { ceiling: u64 },
    /// To `Look`: the `n` slices drawn by the group and the groups below it, and the group's
    /// ceiling.
    Drawn { n: u64, ceiling: u64 },
    /// To any call: its first refusal.
    Refused(Refusal),
}
