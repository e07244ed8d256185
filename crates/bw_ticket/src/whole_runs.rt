//! The laws over whole runs of a lock: each is the contract of a function that does nothing.
ghost use Rattle.bw_ticket.specs.Turns.{RunsFollowTheProtocol, RunsServeDrawnTickets};

use bw_machine::Machine;

/// Every list of turns of an opened lock is a run of the waiting protocol of `bw_wake`.
///
/// A turn is one step on a word of the table, or a sleep, the end of a sleep, or a wake. So in each
/// state that the turns lead to, the mark of each sleeping seat is stored, or its wake is the next
/// step. No wake is lost and no state is stuck. At most seven events of awake seats raise the
/// ticket that is served, if it is drawn.
pub fn runs_follow_the_protocol<M: Machine>()
    ensures { RunsFollowTheProtocol M M.Call M.Reply }
{}

/// After any turns of an opened lock, each drawn ticket is served and left within eight rounds of
/// turns for itself and for each ticket before it that is not yet left.
///
/// In a round each seat that is neither idle nor asleep makes a turn that brings it on: any but a
/// front, the end of a sleep, and the step after a wake. Other turns may come at any place. That
/// rounds are made is left to the system: it runs each thread that can run.
pub fn runs_serve_drawn_tickets<M: Machine>()
    ensures { RunsServeDrawnTickets M M.Call M.Reply }
{}
