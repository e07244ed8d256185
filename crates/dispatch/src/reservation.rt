//! Leaves with a guarantee: what they are owed, who runs, and what happens.

ghost use Rattle.std.specs.Prelude.{◌≡◌};
ghost use Rattle.dispatch.specs.Reservation.{ready_in, seen_leaf};

use crate::leaves::Leaf;

/// A leaf of the plan with its guarantee.
///
/// Times that are owed are in 2^-20 ns, so that a guarantee times nanoseconds needs no division.
#[derive(Clone, Copy, Debug, PartialEq)]
pub struct Account {
    /// Share of the plan, its clock, and its tasks.
    pub share: Leaf,
    /// Guaranteed part of a processor, in 2^-20. A leaf may have more than one processor.
    pub guarantee: u64,
    /// Amount that the leaf is owed, and a quantum more, in 2^-20 ns. So 0 says that it had a
    /// quantum beyond its guarantee, and what it had beyond that is forgotten.
    pub owed: u64,
    /// Whether a limit stops the leaf: its tasks wait for the next period of that limit.
    pub is_stopped: bool,
    /// Whether the leaf is inside the group with a limit.
    pub is_inside: bool,
}

impl Account {
    /// Number of tasks that wait for a processor, 0 if a limit stops the leaf.
    pub fn ready(&self) -> u64
        ensures { result ≡ ready_in self.now }
    {
        if self.is_stopped {
            0
        } else {
            self.share.waiting
        }
    }

    /// The leaf as a pick and a level see it: tasks that a limit stops do not wait.
    pub fn seen_leaf(&self) -> Leaf
        ensures { result ≡ seen_leaf self.now }
    {
        Leaf {
            waiting: self.ready(),
            ..self.share
        }
    }
}

/// The numbers that the rule goes by.
#[derive(Clone, Copy, Debug, PartialEq)]
pub struct Terms {
    /// Slice, in nanoseconds: what a pick charges to the clock of a share.
    pub slice: u64,
    /// Quantum, in nanoseconds: a slice with its longest overrun, which a pick takes of what is
    /// owed.
    pub quantum: u32,
    /// Slack, in nanoseconds: a leaf is due when it is behind by this of its guarantee.
    pub slack: u32,
    /// Credit, in nanoseconds: what a leaf without tasks keeps of its guarantee.
    pub credit: u32,
    /// Number of processors.
    pub processors: u64,
}

/// Run of a processor.
#[derive(Clone, Copy, Debug, PartialEq)]
pub struct Run {
    /// Leaf of the task.
    pub leaf: u64,
    /// Part of a quantum that the leaf paid at the pick, in 2^-20 ns.
    pub paid: u64,
    /// Nanoseconds since the pick.
    pub age: u64,
}

/// An event. Leaves and processors are numbered from 0.
#[derive(Clone, Copy, Debug, PartialEq)]
pub enum Step {
    /// This many nanoseconds pass.
    Pass(u64),
    /// Tasks of a leaf wake: this number of them.
    Wake {
        leaf: u64,
        tasks: u64,
    },
    /// A processor that is free takes a waiting task of a leaf.
    Pick {
        processor: u64,
        leaf: u64,
    },
    /// The task on a processor ends its run, in which it used this many nanoseconds. It waits
    /// again, or has gone to sleep.
    End {
        processor: u64,
        used: u64,
        remains: bool,
    },
    /// A new plan begins: the clock of all is noted.
    Level,
    /// The new plan gives a leaf this amount and this guarantee. Its lead stays.
    Give {
        leaf: u64,
        amount: u64,
        guarantee: u64,
    },
    /// A task of the leaf that waits leaves it, or sleeps before it is picked.
    Leave(u64),
    /// Cuts what the leaf is owed beyond its credit.
    Cut(u64),
    /// A limit stops the leaf, which keeps no more than its credit, or stops it no longer.
    Stop {
        leaf: u64,
        stops: bool,
    },
    /// A new period of a limit begins.
    Refill,
}
