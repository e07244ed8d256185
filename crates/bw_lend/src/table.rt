//! The table of places. Each seat of a lock owns one of the 64 places.
//!
//! Word k is the state of place k, and slot k its content. A state has a ticket and one of six
//! codes. The ticket is that of the seat that was lent. The other 64 words are hints: the hint of a
//! ticket names the place where its seat is lent. Any value of a hint is safe.
ghost use Rattle.std.specs.Prelude.{◌≡◌, ◌≢◌, ◌==◌, ◌/◌, ◌%◌, ◌^◌, ◌<◌, IfSome, IfNone};
ghost use Rattle.std.specs.Prelude.{MatchBool};
ghost use Rattle.bw_lend.specs.Rule.{hint_word, hint_for};
ghost use Rattle.bw_lend.specs.declared.table.TheConstants.{TICKETS, DONE, BACK};

use crate::stake::View;
use crate::visitor::Visitor;
use atomic_table::TableRule;
use bw_machine::Machine;
use bw_ticket::limits::MAX_SEATS;
use bw_ticket::{Answer, TicketLock};
use std::alloc::Global;
use std::snapshot::Snapshot;

/// Number of places, one for each seat that a lock may have.
pub const PLACES: usize = MAX_SEATS as usize;

/// Number of words: a state and a hint for each place.
pub const WORDS: usize = 2 * PLACES;

/// The code of a place whose owner has it. A word of a place that was not used yet is 0.
pub const AWAY: u64 = 1;

/// The code of a place that a helper has.
pub const CLAIMED: u64 = 2;

/// The code of a place with a lent seat. From this code on the content is in the place.
pub const POSTED: u64 = 3;

/// The code of a place with a seat whose call a helper made.
pub const DONE: u64 = 4;

/// The code of a place with a seat that a helper gave back as it was.
pub const BACK: u64 = 5;

// Number of codes that fit beside a ticket.
const CODES: u64 = 8;

/// Bound of the tickets that a word has room for: a ticket and a code fit into the half of a word
/// that a sleep compares.
pub const TICKETS: u64 = 1 << 28;

/// The content of a place.
#[derive(Drop)]
pub enum Place<S, A> {
    /// Nothing: the owner has its seat.
    Empty,
    /// A seat with a pending call.
    Lent(S),
    /// A seat whose call a helper made, and the answer.
    Made(S, A),
}

/// The content of a place of a lock round a machine.
pub type Content<M> = Place<Visitor<M>, Answer<<M as Machine>::Reply>>;

/// The table of places, which threads share.
pub type Places<M> = atomic_table::Table<
    Content<M>,
    View<M>,
    Snapshot<TicketLock<M>>,
    Lending,
    Global,
>;

/// The part of the table that threads step on.
pub type Shared<M> = atomic_table::Shared<Content<M>, View<M>, Snapshot<TicketLock<M>>, Lending>;

/// The right of a seat to make steps on the table.
pub type Token<M> = atomic_table::Seat<Content<M>, View<M>>;

/// The rule of the table of places.
pub struct Lending;

impl<M: Machine> TableRule<Place<Visitor<M>, Answer<M::Reply>>, View<M>, Snapshot<TicketLock<M>>>
    for Lending {
    ghost use Rattle.bw_lend.specs.Rule.{Ruled, stakes_from};
    ghost use Rattle.bw_lend.specs.Lent.{BringsOf};

    ghost holds = { λ about s. Ruled BringsOf about.value.lock_id s };

    ghost first = { λ about. stakes_from about.value.lock_id 0 64 };
}

/// The state of a place with this ticket and code. A sleep compares it whole.
pub fn state_of(ticket: u64, code: u64) -> u64
    requires ticket { ticket < TICKETS }
    requires code { code < 8 }
    ensures ticket { result / 8 ≡ ticket }
    ensures code { result % 8 ≡ code }
    ensures half { result < 2 ^ 32 }
{
    ticket * CODES + code
}

/// The state of a place that a helper gives back, with the seat's call made or not.
pub fn returned_state(ticket: u64, made: bool) -> u64
    requires ticket { ticket < TICKETS }
    ensures ticket { result / 8 ≡ ticket }
    ensures code { MatchBool made (result % 8 ≡ DONE) (result % 8 ≡ BACK) }
{
    if made {
        state_of(ticket, DONE)
    } else {
        state_of(ticket, BACK)
    }
}

/// The code of a state.
pub fn code_of(state: u64) -> u64
    ensures { result ≡ state % 8 }
{
    state % CODES
}

/// Whether the state is of a seat whose call a helper made.
pub fn is_done(state: u64) -> bool
    ensures { result ≡ (state % 8 == 4) }
{
    code_of(state) == DONE
}

/// The half of a state that a sleep compares.
pub fn low_half(state: u64) -> u32
    ensures { result ≡ state % 2 ^ 32 }
{
    (state % (1 << 32)) as u32
}

/// The index of the hint of a ticket.
pub fn hint_word_of(ticket: u64) -> usize
    ensures word { result ≡ hint_word ticket }
    ensures range { result < 128 }
{
    PLACES + (ticket % PLACES as u64) as usize
}

/// The hint that the seat with this ticket is lent in this place.
pub fn hint_of(ticket: u64, place: usize) -> u64
    requires ticket { ticket < TICKETS }
    requires place { place < 64 }
    ensures { result ≡ hint_for ticket place }
{
    ticket * PLACES as u64 + place as u64
}

/// The place that a hint names, if and only if it is a hint of the ticket.
pub fn hinted_place(hint: u64, ticket: u64) -> Option<usize>
    ensures some { IfSome result (λ place. (place < 64) × (hint ≡ hint_for ticket place)) }
    ensures none { IfNone result (hint / 64 ≢ ticket) }
{
    if hint / PLACES as u64 != ticket {
        return None;
    }
    Some((hint % PLACES as u64) as usize)
}
