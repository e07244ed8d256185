//! The events of a dispatcher, and why one is refused.

/// An event. Leaves and processors are numbered from 0.
#[derive(Clone, Copy, Debug, PartialEq)]
pub enum Event {
    /// Tasks of a leaf wake: this number of them.
    Wake {
        leaf: u64,
        tasks: u64,
    },
    /// A processor that is free takes a waiting task of a leaf.
    Pick {
        processor: u64,
        leaf: u64,
    },
    /// The task on a processor ends its run, which took `used` nanoseconds. It waits again, or has
    /// gone to sleep.
    End {
        processor: u64,
        used: u64,
        remains: bool,
    },
}

/// Why an event is refused.
#[derive(Clone, Copy, Debug, PartialEq)]
pub enum Refusal {
    /// There is no leaf of this number.
    UnknownLeaf,
    /// There is no processor of this number.
    UnknownProcessor,
    /// The processor of the pick runs a task.
    ProcessorBusy,
    /// The processor whose task ends runs none.
    ProcessorIdle,
    /// No task of the leaf that is picked waits.
    NothingWaits,
    /// A leaf that waits is due, and the one that is picked is not, or has a later deadline.
    NotEarliest,
    /// A leaf that waits has a lesser clock than the one that is picked.
    NotLeast,
    /// A charge, a use or a number of tasks would be above `u64::MAX`.
    TooGreat,
}
