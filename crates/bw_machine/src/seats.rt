//! The phases of a seat's call, and the events that change them.

/// The phase of a seat's call.
#[derive(Clone, Copy, Debug, PartialEq)]
pub enum Phase<C> {
    /// No call.
    Idle,
    /// It has drawn the ticket of this number, from 0.
    Waiting { number: u64, call: C },
    /// Its ticket is served, and no other seat is inside.
    Inside { call: C },
    /// Its call is made, and its ticket is still served.
    Done,
}

/// One atomic action of one seat.
#[derive(Clone, Copy, Debug, PartialEq)]
pub enum CoreEvent<C> {
    /// An idle seat draws the next ticket for a call.
    Take { seat: u32, call: C },
    /// A waiting seat whose ticket is served goes inside.
    Enter { seat: u32 },
    /// The seat inside makes its call: one step of the machine and one entry of the history.
    Apply { seat: u32 },
    /// A seat that has made its call serves the next ticket and is idle.
    Leave { seat: u32 },
}
