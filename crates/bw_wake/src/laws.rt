//! Laws of the waiting protocol: each is the contract of a function that does nothing.
ghost use Rattle.bw_wake.specs.Progress.{NoWakeIsLost, ServedTicketGoesOn, NoneIsStuck};
ghost use Rattle.bw_wake.specs.Progress.{AwakeSeatsCanStep};
ghost use Rattle.bw_wake.specs.Raises.{SevenEventsRaiseServing};
ghost use Rattle.bw_wake.specs.Rounds.{EightRoundsRaiseServing, DrawnTicketsAreServed};
ghost use Rattle.bw_wake.specs.Refines.{RefinesTheCore};

use bw_machine::Machine;

/// A seat that sleeps with the ticket that is served has its wake-up under way.
///
/// Another seat has yet to look for its mark, has seen the mark, or wakes it next. The law assumes
/// a wake word for each seat.
pub fn no_wake_is_lost()
    ensures { NoWakeIsLost }
{}

/// The seat of a served ticket is awake or inside, or its wake-up is under way.
///
/// The law assumes a wake word for each seat.
pub fn served_ticket_goes_on()
    ensures { ServedTicketGoesOn }
{}

/// While a ticket is drawn and not yet left, some seat is neither idle nor asleep.
///
/// The law assumes a wake word for each seat.
pub fn none_is_stuck()
    ensures { NoneIsStuck }
{}

/// Seven events are enough to raise the ticket that is served, in each state where it is drawn.
///
/// Each of these events is possible, and its seat is neither idle nor asleep. So no ticket is
/// drawn, and no seat wakes without a wake. The law assumes a wake word for each seat. It says
/// that such events exist, and not that a thread makes them.
pub fn seven_events_raise_serving()
    ensures { SevenEventsRaiseServing }
{}

/// Eight rounds raise the ticket that is served, in each state where it is drawn.
///
/// A round is a list of events in which each seat that is neither idle nor asleep at its beginning
/// makes one. Tickets may be drawn in it, and seats may wake without a wake. The law assumes a wake
/// word for each seat.
pub fn eight_rounds_raise_serving()
    ensures { EightRoundsRaiseServing }
{}

/// Each drawn ticket is served and left within eight rounds for itself and for each ticket before
/// it that is not yet left.
///
/// The law assumes a wake word for each seat. It leaves to the system that rounds are made: that
/// each thread runs which can run.
pub fn drawn_tickets_are_served()
    ensures { DrawnTicketsAreServed }
{}

/// In every state, a seat that is neither idle nor asleep can make an event.
pub fn awake_seats_can_step()
    ensures { AwakeSeatsCanStep }
{}

/// Each event of the waiting protocol is at most one event of the interleaving core, over any
/// machine. So each law of the core over every schedule holds of seats that wait in this way.
pub fn refines_the_core<M: Machine>()
    ensures { RefinesTheCore M.after M.answer }
{}
