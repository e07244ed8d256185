//! The phases of a seat in the waiting protocol, and the events that change them.

/// The phase of a seat. Tickets are numbers from 0.
#[derive(Clone, Copy, Debug, PartialEq)]
pub enum Phase {
    /// It has no ticket and owes no wake.
    Idle,
    /// It has drawn this ticket, and has stored no mark for it since then, or since it last slept or
    /// tried to.
    Waiting(u64),
    /// It has stored the mark of its ticket in the wake word, and has not looked since.
    Marked(u64),
    /// It has looked since it stored its mark, and its ticket was not served.
    Looked(u64),
    /// It sleeps on the wake word of its ticket.
    Asleep(u64),
    /// It has found its ticket served.
    Inside,
    /// It has made its call, and its ticket is still served.
    Done,
    /// It has left with this ticket, and has not yet seen whether the next one is drawn.
    Served(u64),
    /// It owes wakes: the first ticket, and the number of tickets.
    Owes(u64, u64),
    /// It owes wakes, and has seen the mark of the first ticket.
    Found(u64, u64),
    /// It owes wakes, and the mark of the first ticket is gone: the wake is next.
    Wakes(u64, u64),
}

/// One atomic step of one seat.
#[derive(Clone, Copy, Debug, PartialEq)]
pub enum Event {
    /// An idle seat draws the next ticket.
    Take(u32),
    /// A waiting seat loads the ticket that is served: it goes inside if that is its own.
    Look(u32),
    /// A waiting seat stores the mark of its ticket.
    Mark(u32),
    /// A seat that has looked since its mark goes to sleep, if its wake word still has the mark. Else
    /// it waits as before its first look.
    Park(u32),
    /// A sleeping seat wakes for no reason, and waits as before its first look.
    SpuriousWake(u32),
    /// The seat inside makes its call.
    Apply(u32),
    /// A seat that has made its call adds one to the ticket that is served.
    Leave(u32),
    /// A seat that has left loads the next ticket to be drawn. If the ticket after its own is not
    /// drawn, it owes no wake.
    PeekNext(u32),
    /// A seat that owes wakes loads the wake word of the first ticket. Without that ticket's mark
    /// it no longer owes that wake.
    PeekWord(u32),
    /// A seat that has seen the mark removes it, if it is still stored.
    TakeMark(u32),
    /// A seat wakes the other seat, which sleeps on the wake word. That one waits as before its first
    /// look. If none sleeps there, it wakes none.
    Wake(u32, u32),
}
