//! Laws of the lock: each is the contract of a function that does nothing.
ghost use Rattle.std.specs.Prelude.{◌≡◌, ◌^◌};
ghost use Rattle.bw_ticket.specs.Follows.{StepsAreEvents};
ghost use Rattle.bw_ticket.specs.UnderWay.{NoWakeIsLostInLock};

use crate::limits::{MAX_CALLS, MAX_SEATS, MAX_TICKETS, MOST_AWAKE};
use bw_machine::Machine;

/// Each step of a waiting or leaving seat is the event of the waiting protocol of `bw_wake` that
/// has its name.
///
/// Take any state of that protocol in which the seat has the phase of its view. The event can
/// happen there. It changes the words as the step changes the table. It moves the seat to the phase
/// of its view after the step, and no other seat. The wake moves the woken seat, too.
pub fn steps_are_events<M: Machine>()
    ensures { StepsAreEvents M M.Call M.Reply }
{}

/// No wake is lost in any state under the rule of the lock's table, which each step keeps.
///
/// The table does not record who sleeps: a seat may sleep if it has looked in vain since it stored
/// its mark. Assume that the mark of each sleeping seat is still stored, or that its wake is the
/// next step. Then: if a sleeper's ticket is served, its wake-up is under way; no state is stuck;
/// and the assumption still holds after each event of the protocol. If only seats with stored
/// marks sleep, the assumption holds. It holds in every run: `runs_follow_the_protocol`.
pub fn no_wake_is_lost<M: Machine>()
    ensures { NoWakeIsLostInLock M.after M.answer }
{}

/// The limits of a lock: 64 seats, 65536 calls of each, so 4194304 tickets, and 42043 looks, spins
/// and yields of a waiting seat between two sleeps. The definitions read the first two from the
/// code.
pub fn lock_numbers()
    ensures seats { MAX_SEATS ≡ 64 }
    ensures calls { MAX_CALLS ≡ 65536 }
    ensures tickets { MAX_TICKETS ≡ 2 ^ 22 }
    ensures awake { MOST_AWAKE ≡ 42043 }
{}
