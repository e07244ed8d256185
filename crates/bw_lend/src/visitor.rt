//! A seat of the lock that enters it on a visit alone.
//!
//! The field of a [`Visitor`] is private to this file, so no other file makes a call of the lock.
//! [`Visitor::finish_and_look`] makes one, where a visit says that its seat enters. Only
//! [`move_home`] gives a seat of the lock back, and it asks for all of them.
ghost use Rattle.std.specs.Prelude.{◌≡◌, ◌+◌, ◌-◌, ◌<◌, ◌≤◌, [], ◌∷◌, ◌++◌, All, None, Some};
ghost use Rattle.std.specs.Prelude.{IfOk, IfErr, IfSome, IsSome, MatchOption, length};
ghost use Rattle.std.specs.Prelude.{vec_capacity};
ghost use Rattle.bw_machine.specs.History.{made};
ghost use Rattle.bw_ticket.specs.Holder.{ticket_pending};
ghost use Rattle.bw_ticket.specs.declared.limits.TheConstants.{MAX_TICKETS};
ghost use Rattle.bw_lend.specs.Lent.{HasTicket};
ghost use Rattle.bw_lend.specs.Visits.{MayEnter};

use crate::seat::LendingSeat;
use crate::visits::Visit;
use bw_machine::Machine;
use bw_ticket::{Answer, Behind, CallsSpent, Seat, TicketLock};
use std::marker::Model;
use std::rt::Clock;
use std::sync::Wait;

/// A seat of a ticket lock that enters it on a visit. Contracts see it as the seat.
#[derive(Drop)]
pub struct Visitor<M: Machine> {
    seat: Seat<M>,
}

impl<M: Machine> Model for Visitor<M> {
    ghost use Rattle.bw_ticket.specs.Holder.{Holder};

    ghost Value = { Holder M.Call M.Reply };

    ghost view = { λ v. v.seat };
}

impl<M: Machine> Visitor<M> {
    pub(crate) fn of(seat: Seat<M>) -> Visitor<M>
        ensures { result ≡ seat }
    {
        Visitor { seat }
    }

    fn into_seat(self) -> Seat<M>
        ensures { result ≡ self }
    {
        let Visitor { seat } = self;
        seat
    }

    pub(crate) fn number(&self) -> u32
        ensures { result ≡ self.now.number }
    {
        self.seat.number()
    }

    pub(crate) fn calls_left(&self) -> u32
        ensures { result ≡ self.now.calls_left }
    {
        self.seat.calls_left()
    }

    pub(crate) fn pending(&self) -> Option<u64>
        ensures ticket { result ≡ ticket_pending self.now.pending }
        ensures small { IfSome result (λ ticket. ticket < MAX_TICKETS) }
    {
        self.seat.pending()
    }

    pub(crate) fn front(&mut self, lock: &TicketLock<M>) -> u64
        requires { self.old.lock_id ≡ lock.now.lock_id }
        ensures seen { self.new ≡ record self.old { reached = result } }
        ensures rises { self.old.reached ≤ result }
        ensures own { All (λ m. m.at < result) self.old.own }
    {
        self.seat.front(lock)
    }

    pub(crate) fn take(&mut self, lock: &TicketLock<M>, call: M::Call) -> Result<u64, CallsSpent>
        requires lock { self.old.lock_id ≡ lock.now.lock_id }
        requires idle { self.old.pending ≡ None }
        ensures ok { IfOk result (λ ticket.
            (0 < self.old.calls_left) × (self.old.reached ≤ ticket) ×
            (self.new ≡ record self.old {
              calls_left = self.old.calls_left - 1;
              pending = Some (ticket, call);
            })) }
        ensures err { IfErr result (λ _. (self.old.calls_left ≡ 0) × (self.new ≡ self.old)) }
        ensures same { self.new.lock_id ≡ self.old.lock_id }
    {
        self.seat.take(lock, call)
    }

    /// Makes the pending call, on the visit with its ticket. That one is of this seat, or of the
    /// one that has claimed its place. Also returns what the seat found behind it when it had left.
    #[inline(always)]
    pub(crate) fn finish_and_look<R: Wait + Clock, V: Visit>(
        &mut self,
        rt: &R,
        lock: &TicketLock<M>,
        visit: &V,
    ) -> (Answer<M::Reply>, Behind)
        requires lock { self.old.lock_id ≡ lock.now.lock_id }
        requires pending { IsSome self.old.pending }
        requires ticket { HasTicket self.old (V.state visit.now).ticket }
        requires enters { MayEnter (V.state visit.now).task }
        ensures later { self.old.reached ≤ result.0.at }
        ensures small { result.0.at < MAX_TICKETS }
        ensures made { MatchOption self.old.pending ⊥ (λ p. (result.0.at ≡ p.0) ×
            (self.new ≡ record self.old {
              pending = None;
              reached = p.0 + 1;
              own = self.old.own ++ made p.1 result.0.reply result.0.at ∷ [];
            })) }
        ensures behind { result.1.left ≡ result.0.at }
    {
        let _ = visit;
        self.seat.finish_and_look(rt, lock)
    }
}

/// Moves the seats of the lock, all at once, into a list that has room for them.
pub(crate) fn move_home<M: Machine>(
    lock: &TicketLock<M>,
    seats: Vec<LendingSeat<M>>,
    mut home: Vec<Seat<M>>,
) -> Vec<Seat<M>>
    requires lock { All (λ s. s.lock_id ≡ lock.now.lock_id) seats.items }
    requires all { length seats.items ≡ lock.now.seats }
    requires empty { home.items ≡ [] }
    requires room { length seats.items ≤ vec_capacity home }
    ensures { result.items ≡ seats.items }
{
    let _ = lock;
    for seat in seats {
        home.push_reserved(seat.into_visitor().into_seat());
    }
    home
}
