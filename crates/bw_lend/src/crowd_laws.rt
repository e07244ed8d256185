//! Laws of lent seats: each is the contract of a function that does nothing.
ghost use Rattle.std.specs.Prelude.{◌≡◌, ◌^◌};
ghost use Rattle.bw_lend.specs.BothTables.{BothAreEvents, BothServeDrawnTickets};
ghost use Rattle.bw_lend.specs.BothTables.{AccessesServeDrawnTickets};
ghost use Rattle.bw_lend.specs.CrowdLaws.{NoWakeIsLost, NoneIsStuck, AwakeSeatsCanStep};
ghost use Rattle.bw_lend.specs.CrowdLaws.{OnlyTheServedTicketIsInside, AtMostOneIsInside};
ghost use Rattle.bw_lend.specs.CrowdRounds.{SeventeenRoundsRaiseServing, DrawnTicketsAreLeft};
ghost use Rattle.bw_lend.specs.Turns.{TurnsAreEvents, TurnsLeaveDrawnTickets};

use crate::table::{AWAY, BACK, CLAIMED, DONE, POSTED, TICKETS};
use bw_machine::Machine;
use bw_ticket::limits::MAX_TICKETS;

/// Tickets fit into the words of places: a ticket is below 2^22, and a word has room for 2^28.
pub fn tickets_fit()
    ensures tickets { MAX_TICKETS ≡ 2 ^ 22 }
    ensures room { TICKETS ≡ 2 ^ 28 }
{}

/// The codes of places are those that the rule and the turns have as numbers.
pub fn codes_of_places()
    ensures away { AWAY ≡ 1 }
    ensures claimed { CLAIMED ≡ 2 }
    ensures posted { POSTED ≡ 3 }
    ensures done { DONE ≡ 4 }
    ensures back { BACK ≡ 5 }
{}

/// A seat that sleeps has its wake under way.
///
/// While nobody has claimed it and its ticket is served, a seat comes for it. Who has claimed it
/// holds it, and who has given it back owes it a wake. The law assumes a hint word for each seat.
pub fn no_lent_wake_is_lost()
    ensures { NoWakeIsLost }
{}

/// While a ticket is drawn and not yet left, some seat is neither idle nor asleep.
///
/// The law assumes a hint word for each seat.
pub fn no_lent_seat_is_stuck()
    ensures { NoneIsStuck }
{}

/// In every state, a seat that is neither idle nor asleep can make an event.
pub fn awake_lent_seats_can_step()
    ensures { AwakeSeatsCanStep }
{}

/// Only a seat with the ticket that is served is inside, and it is there for the seat that drew it.
///
/// The law assumes a hint word for each seat.
pub fn only_the_served_ticket_is_inside()
    ensures { OnlyTheServedTicketIsInside }
{}

/// At most one seat is inside, for itself or for another.
///
/// The law assumes a hint word for each seat.
pub fn at_most_one_is_inside()
    ensures { AtMostOneIsInside }
{}

/// Seventeen rounds raise the ticket that is served, in each state where it is drawn.
///
/// A round is a list of events in which each seat that is neither idle nor asleep at its beginning
/// makes one. Tickets may be drawn in it, and seats may wake without a wake. The law assumes a hint
/// word for each seat. It holds for every number of seats, and of calls in one visit. Of all states
/// of two seats `tests/lock/explore.py` finds that 12 are enough, and 13 of three.
pub fn seventeen_rounds_raise_serving()
    ensures { SeventeenRoundsRaiseServing }
{}

/// Each drawn ticket is served and left within seventeen rounds for itself and for each ticket
/// before it that is not yet left.
///
/// The law assumes a hint word for each seat. It leaves to the system that rounds are made: that
/// each thread runs which can run.
pub fn drawn_tickets_are_left()
    ensures { DrawnTicketsAreLeft }
{}

/// Each turn of a seat that lends itself, waits while it is lent, or has left, is one event of the
/// model, by the same seat.
///
/// Before it waits, such a turn is a look, a seat that is lent or a hint that is stored. While it
/// waits, the turn is a read, a look, a try to take back or a sleep. After it has left, the turn is
/// a read of a hint, a try to claim, a place that is given back or a wake. It is made where the
/// contracts of these calls allow it, and with what they say. Every other turn is taken to be an
/// event of the model. The law assumes a hint word for each seat.
pub fn turns_are_events()
    ensures { TurnsAreEvents }
{}

/// After any turns, each drawn ticket is served and left within seventeen rounds of turns for
/// itself and for each ticket before it that is not yet left.
///
/// In a round each seat that is neither idle nor asleep makes a turn. The law assumes a hint word
/// for each seat.
pub fn turns_leave_drawn_tickets()
    ensures { TurnsLeaveDrawnTickets }
{}

/// Each turn on the lock's own table or on the table of places is one event of the model, or none.
///
/// A turn on the lock's table is one of `bw_ticket`. A thread makes it where it draws, and where it
/// is in a call of the lock, which it begins where its visit says that it enters. There it looks
/// before all else (`bw_ticket`, `store_mark`, `glance`). So a seat draws, enters and leaves as the
/// model has it, none glances, and none stores a mark. The law begins with a lock that was just
/// opened, and all of whose seats are lent. It assumes a hint word for each seat.
pub fn both_tables_are_events<M: Machine>()
    ensures { BothAreEvents M M.Call M.Reply }
{}

/// After any turns on both tables, each drawn ticket is served and left within seventeen rounds for
/// itself and for each ticket before it that is not yet left.
///
/// In a round each seat that is neither idle nor asleep makes a turn that is an event. The law
/// assumes a hint word for each seat. That rounds are made is left to the system.
pub fn both_tables_serve_drawn_tickets<M: Machine>()
    ensures { BothServeDrawnTickets M M.Call M.Reply }
{}

/// After any turns on both tables, each drawn ticket is served and left within eighteen rounds of
/// accesses for itself and for each ticket before it that is not yet left.
///
/// In a round each seat that is neither idle nor asleep makes an access to a word of either table.
/// One access for each ticket is no event: the load by which the seat inside notes its call. A
/// front is taken for none. The law assumes a hint word for each seat. Of all states of two seats
/// `tests/lock/explore.py` finds that 13 are enough.
pub fn accesses_serve_drawn_tickets<M: Machine>()
    ensures { AccessesServeDrawnTickets M M.Call M.Reply }
{}
