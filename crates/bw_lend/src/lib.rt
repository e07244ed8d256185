//! Seats of a ticket lock that lend themselves to one another.
//!
//! A seat that waits for its ticket lends its whole `bw_ticket::Seat`, ticket drawn, through a
//! table of places. A seat that leaves the lock makes the calls of the next tickets that are lent.
//! So a crowd of callers is served in ticket order, by few threads, with few sleeps. Flat combining
//! and combining locks work alike.
//!
//! Each call keeps the contract that it has without lending.
#![tactic(auto)]

mod crowd_laws;
mod helping;
mod lending;
mod looking;
mod plays;
mod seat;
mod sleeping;
mod stake;
mod steps;
mod table;
mod task;
mod visitor;
mod visits;

pub use crowd_laws::{
    accesses_serve_drawn_tickets, at_most_one_is_inside, awake_lent_seats_can_step,
    both_tables_are_events, both_tables_serve_drawn_tickets, codes_of_places,
    drawn_tickets_are_left, no_lent_seat_is_stuck, no_lent_wake_is_lost,
    only_the_served_ticket_is_inside, seventeen_rounds_raise_serving, tickets_fit,
    turns_are_events, turns_leave_drawn_tickets,
};
pub use seat::{LendingSeat, lend, take_home};
