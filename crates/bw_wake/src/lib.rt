//! The waiting protocol of a ticket lock: its core, which plays one event at a time, and its laws.
//! No wake-up is lost, and no state is stuck.
#![tactic(auto)]

mod laws;
mod seats;
mod wait_core;

pub use laws::{
    awake_seats_can_step, drawn_tickets_are_served, eight_rounds_raise_serving, no_wake_is_lost,
    none_is_stuck, refines_the_core, served_ticket_goes_on, seven_events_raise_serving,
};
pub use seats::{Event, Phase};
pub use wait_core::WaitCore;
