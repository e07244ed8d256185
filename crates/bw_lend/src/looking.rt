//! The looks at the lock of a seat that waits. Each is made by a right to it, and noted once.
ghost use Rattle.std.specs.Prelude.{◌≡◌};

use bw_machine::{Count, Machine};
use bw_ticket::TicketLock;

/// The right to one look: the one after so many reads, or after so many looks of a visit. A place's
/// word and a visit give it. It is not `Drop`.
pub(crate) struct Chance {
    nth: Count,
}

/// The sight of one look, by the right to it. Only [`Chance::look`] makes one. It is not `Drop`.
pub(crate) struct Found {
    nth: Count,
    served: u64,
}

impl Chance {
    pub(crate) fn of(nth: &Count) -> Chance
        ensures { result.nth.steps ≡ nth.now.steps }
    {
        Chance {
            nth: nth.with(&Count::none()),
        }
    }

    /// Looks which ticket is served.
    pub(crate) fn look<M: Machine>(self, lock: &TicketLock<M>) -> Found
        ensures { result.nth.steps ≡ self.nth.steps }
    {
        let Chance { nth } = self;
        Found {
            nth,
            served: lock.look().served(),
        }
    }

    /// Gives the right up.
    pub(crate) fn end(self) {
        let Chance { nth: _ } = self;
    }
}

impl Found {
    /// The ticket that was found served.
    pub(crate) fn served(&self) -> u64
        ensures { result ≡ self.now.served }
    {
        self.served
    }

    /// Ends it, once it is noted. Returns the ticket.
    pub(crate) fn end(self) -> u64
        ensures { result ≡ self.served }
    {
        let Found { nth: _, served } = self;
        served
    }
}
