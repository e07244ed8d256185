//! Seats that may lend themselves.
ghost use Rattle.std.specs.Prelude.{◌≡◌, ◌+◌, ◌-◌, ◌<◌, ◌≤◌, ◌∷◌, [], ◌++◌};
ghost use Rattle.std.specs.Prelude.{All, None, Some, length};
ghost use Rattle.std.specs.Prelude.{IfOk, IfErr, IsSome, MatchOption};
ghost use Rattle.bw_machine.specs.History.{made};
ghost use Rattle.bw_ticket.specs.Holder.{ticket_pending};
ghost use Rattle.bw_lend.specs.declared.task.Task.TheVariants.{ToLook};
ghost use Rattle.bw_lend.specs.Lent.{HasTicket, IsFinished};
ghost use Rattle.bw_lend.specs.Parts.{IsTable, IsOwner};
ghost use Rattle.bw_lend.specs.Rule.{Each, stakes_from};
ghost use Rattle.std.specs.Arc.{arc_value};
ghost use Rattle.bw_ticket.specs.declared.limits.TheConstants.{MAX_SEATS};

use crate::helping::finish_visit;
use crate::lending::{finish_lent, is_soon};
use crate::plays::HandOut;
use crate::steps::open_place;
use crate::table::{Content, PLACES, Place, Places, Shared, Token, WORDS};
use crate::visitor::{Visitor, move_home};
use crate::visits::{TableVisit, Visit};
use atomic_table::Table;
use bw_machine::Machine;
use bw_ticket::{Answer, CallsSpent, Seat, TicketLock};
use std::alloc::{AllocError, AllocFailed, Global};
use std::marker::Model;
use std::rt::Clock;
use std::snapshot::Snapshot;
use std::sync::{Arc, Wait};

/// A seat of a ticket lock that lends itself while it waits. One thread holds it at a time.
/// Contracts see it as the seat of the lock.
#[derive(Drop)]
pub struct LendingSeat<M: Machine> {
    // none only while it is lent
    seat: Option<Visitor<M>>,
    places: Arc<Places<M>, Global>,
    token: Token<M>,
    place: usize,
}

impl<M: Machine> Model for LendingSeat<M> {
    ghost use Rattle.std.specs.Prelude.{◌≡◌, ◌<◌};
    ghost use Rattle.std.specs.Arc.{arc_value};
    ghost use Rattle.bw_ticket.specs.Holder.{Holder};
    ghost use Rattle.bw_lend.specs.Parts.{IsTable, seat_in, HasSeat};

    ghost Value = { Holder M.Call M.Reply };

    ghost view = { λ s. seat_in s.token.table_id s.seat };

    ghost invariant = { λ s. IsTable s.token.table_id ×
        (s.token.table_id ≡ (arc_value s.places).shared.table_id) × (s.place < 64) ×
        HasSeat s.place s.token.me s.seat };
}

// A place that a seat of the lock may own. Contracts see it as the lock.
#[derive(Drop)]
struct Berth<M: Machine> {
    places: Arc<Places<M>, Global>,
    token: Token<M>,
    place: usize,
}

impl<M: Machine> Model for Berth<M> {
    ghost use Rattle.std.specs.Prelude.{◌≡◌, ◌<◌};
    ghost use Rattle.std.specs.Arc.{arc_value};
    ghost use Rattle.atomic_table.specs.Seated.{TableId};
    ghost use Rattle.bw_lend.specs.Parts.{IsTable, IsOwner};

    ghost Value = { TableId };

    ghost view = { λ b. (arc_value b.places).shared.key.value.lock_id };

    ghost invariant = { λ b. IsTable b.token.table_id ×
        (b.token.table_id ≡ (arc_value b.places).shared.table_id) × (b.place < 64) ×
        IsOwner (arc_value b.places).shared.key.value.lock_id b.place b.token.me };
}

// Lends the seat until its pending call is made. Afterwards it is at hand again.
// in a function of its own, so that a call that need not wait has the registers
#[inline(never)]
fn finish_away<M: Machine, R: Wait + Clock, V: Visit>(
    rt: &R,
    lock: &TicketLock<M>,
    table: &Shared<M>,
    token: &mut Token<M>,
    place: usize,
    home: &mut Option<Visitor<M>>,
    lent: &Snapshot<Visitor<M>>,
    visit: V,
) -> Answer<M::Reply>
    requires table { (token.old.table_id ≡ table.now.table_id) × IsTable table.now.table_id }
    requires visit { (V.state visit).table ≡ table.now.table_id }
    requires owner { IsOwner lock.now.lock_id place token.old.me }
    requires place { place < 64 }
    requires home { home.old ≡ Some lent.now.value }
    requires lock { lent.now.value.lock_id ≡ lock.now.lock_id }
    requires pending { IsSome lent.now.value.pending }
    requires ticket { HasTicket lent.now.value (V.state visit).ticket }
    requires task { (V.state visit).task ≡ ToLook }
    requires nobody { (V.state visit).owed ≡ 0 }
    ensures table { token.new.table_id ≡ token.old.table_id }
    ensures owner { IsOwner lock.now.lock_id place token.new.me }
    ensures finished { (seat : _) × (home.new ≡ Some seat) ×
        IsFinished lent.now.value result seat }
{
    let _ = lent;
    let Some(seat) = home.take() else {
        unreachable!()
    };
    let (seat, answer) = finish_lent(rt, lock, table, token, place, seat, visit);
    *home = Some(seat);
    answer
}

impl<M: Machine> LendingSeat<M> {
    fn of(seat: Seat<M>, berth: Berth<M>) -> LendingSeat<M>
        requires lock { seat.lock_id ≡ berth }
        ensures { result ≡ seat }
    {
        let Berth {
            places,
            token,
            place,
        } = berth;
        LendingSeat {
            seat: Some(Visitor::of(seat)),
            places,
            token,
            place,
        }
    }

    pub(crate) fn into_visitor(self) -> Visitor<M>
        ensures { result ≡ self }
    {
        let LendingSeat {
            seat,
            places: _,
            token: _,
            place: _,
        } = self;
        let Some(seat) = seat else { unreachable!() };
        seat
    }

    fn seat(&self) -> &Visitor<M>
        ensures { result.now ≡ self.now }
    {
        let Some(seat) = &self.seat else {
            unreachable!()
        };
        seat
    }

    /// The number of the seat.
    pub fn number(&self) -> u32
        ensures { result ≡ self.now.number }
    {
        self.seat().number()
    }

    /// Number of calls that the seat may still begin, 0 to 65536.
    pub fn calls_left(&self) -> u32
        ensures { result ≡ self.now.calls_left }
    {
        self.seat().calls_left()
    }

    /// The ticket that was drawn and is not finished.
    pub fn pending(&self) -> Option<u64>
        ensures { result ≡ ticket_pending self.now.pending }
    {
        self.seat().pending()
    }

    /// The number of tickets served, which never falls. Never waits.
    pub fn front(&mut self, lock: &TicketLock<M>) -> u64
        requires { self.old.lock_id ≡ lock.now.lock_id }
        ensures seen { self.new ≡ record self.old { reached = result } }
        ensures rises { self.old.reached ≤ result }
        ensures own { All (λ m. m.at < result) self.old.own }
    {
        let Some(seat) = &mut self.seat else {
            unreachable!()
        };
        seat.front(lock)
    }

    /// Draws a ticket for the call. Never waits. All later tickets wait for the `finish` of this
    /// one.
    ///
    /// # Errors
    ///
    /// - [`CallsSpent`]: no call is left. The lock is not touched.
    pub fn take(&mut self, lock: &TicketLock<M>, call: M::Call) -> Result<u64, CallsSpent>
        requires lock { self.old.lock_id ≡ lock.now.lock_id }
        requires idle { self.old.pending ≡ None }
        ensures ok { IfOk result (λ ticket.
            (0 < self.old.calls_left) × (self.old.reached ≤ ticket) ×
            (self.new ≡ record self.old {
              calls_left = self.old.calls_left - 1;
              pending = Some (ticket, call);
            })) }
        ensures err { IfErr result (λ _. (self.old.calls_left ≡ 0) × (self.new ≡ self.old)) }
    {
        let Some(seat) = &mut self.seat else {
            unreachable!()
        };
        seat.take(lock, call)
    }

    /// Makes the pending call, once all earlier tickets are served.
    pub fn finish<R: Wait + Clock>(&mut self, rt: &R, lock: &TicketLock<M>) -> Answer<M::Reply>
        requires lock { self.old.lock_id ≡ lock.now.lock_id }
        requires pending { IsSome self.old.pending }
        ensures later { self.old.reached ≤ result.at }
        ensures made { MatchOption self.old.pending ⊥ (λ p. (result.at ≡ p.0) ×
            (self.new ≡ record self.old {
              pending = None;
              reached = p.0 + 1;
              own = self.old.own ++ made p.1 result.reply result.at ∷ [];
            })) }
    {
        let Some(seat) = &mut self.seat else {
            unreachable!()
        };
        let mut visit = TableVisit::of(&self.places.shared, seat);
        // a seat that need not wait is not moved
        if is_soon(lock, &mut visit) {
            return finish_visit(rt, lock, &self.places.shared, &mut self.token, seat, visit);
        }
        let lent = Snapshot::of(&*seat);
        finish_away(
            rt,
            lock,
            &self.places.shared,
            &mut self.token,
            self.place,
            &mut self.seat,
            &lent,
            visit,
        )
    }

    /// One call: `take`, then `finish`.
    ///
    /// # Errors
    ///
    /// - [`CallsSpent`]: no call is left. The lock is not touched.
    pub fn call<R: Wait + Clock>(
        &mut self,
        rt: &R,
        lock: &TicketLock<M>,
        call: M::Call,
    ) -> Result<Answer<M::Reply>, CallsSpent>
        requires lock { self.old.lock_id ≡ lock.now.lock_id }
        requires idle { self.old.pending ≡ None }
        ensures ok { IfOk result (λ a. (0 < self.old.calls_left) × (self.old.reached ≤ a.at) ×
            (self.new ≡ record self.old {
              calls_left = self.old.calls_left - 1;
              reached = a.at + 1;
              own = self.old.own ++ made call a.reply a.at ∷ [];
            })) }
        ensures err { IfErr result (λ _. (self.old.calls_left ≡ 0) × (self.new ≡ self.old)) }
    {
        self.take(lock, call)?;
        Ok(self.finish(rt, lock))
    }
}

// The contents of unused places.
fn unused<M: Machine>(alloc: Global) -> Result<Vec<Content<M>>, AllocError>
    ensures { IfOk result (λ v. length v.items ≡ 64) }
{
    let mut contents = Vec::with_capacity(alloc, PLACES)?;
    for _place in 0..PLACES {
        contents.push_reserved(Place::Empty);
    }
    Ok(contents)
}

// A table of unused places, and the seat of the table that will own them all.
fn lay<M: Machine>(alloc: Global, lock: &TicketLock<M>) -> Result<(Places<M>, Token<M>), AllocError>
    ensures table { IfOk result (λ t. IsTable t.0.shared.table_id ×
        (t.1.table_id ≡ t.0.shared.table_id) × (t.0.shared.key.value ≡ lock.now)) }
    ensures fresh { IfOk result (λ t. t.1.me ≡ (stakes_from lock.now.lock_id 0 64, [])) }
{
    let contents = unused(alloc)?;
    match Table::new(alloc, &[0; WORDS], contents, &Snapshot::of(lock)) {
        Ok(laid) => Ok(laid),
        Err(refused) => {
            drop(refused);
            Err(AllocError)
        }
    }
}

// Makes a berth at the first of the unused places.
fn open_berth<M: Machine>(
    places: &Arc<Places<M>, Global>,
    rest: &mut Token<M>,
    place: usize,
) -> Result<Berth<M>, AllocError>
    requires table { (rest.old.table_id ≡ (arc_value places.now).shared.table_id) ×
        IsTable rest.old.table_id }
    requires parts { rest.old.me ≡
        (stakes_from (arc_value places.now).shared.key.value.lock_id place (64 - place), []) }
    requires place { place < 64 }
    ensures table { rest.new.table_id ≡ rest.old.table_id }
    ensures parts { rest.new.me ≡ (
      stakes_from (arc_value places.now).shared.key.value.lock_id
          (place + 1) (64 - (place + 1)),
      [],
    ) }
    ensures lock { IfOk result (λ b. b ≡ (arc_value places.now).shared.key.value.lock_id) }
{
    let mut token = places.shared.split_seat::<HandOut>(rest);
    open_place(&places.shared, &mut token, place);
    let places = Arc::try_clone(places)?;
    Ok(Berth {
        places,
        token,
        place,
    })
}

// Berths in a new table of places.
fn open_berths<M: Machine>(
    alloc: Global,
    lock: &TicketLock<M>,
    count: usize,
) -> Result<Vec<Berth<M>>, AllocError>
    requires few { count ≤ MAX_SEATS }
    ensures count { IfOk result (λ v. length v.items ≡ count) }
    ensures lock { IfOk result (λ v. Each (λ b. b ≡ lock.now.lock_id) v.items) }
{
    let (places, mut rest) = lay(alloc, lock)?;
    let places = Arc::new(alloc, places)?;
    let mut berths = Vec::with_capacity(alloc, count)?;
    for place in 0..count {
        let berth = open_berth(&places, &mut rest, place)?;
        berths.push_reserved(berth);
    }
    Ok(berths)
}

/// Makes all seats of a lock lend themselves to one another. Each keeps its number, its calls and
/// its ticket. No later call but [`take_home`] allocates.
///
/// A lent seat sleeps until one that leaves wakes it, and only a seat of the same table does. So no
/// seat of the lock may be left out.
///
/// # Errors
///
/// - [`AllocFailed`]: hands back the seats.
pub fn lend<M: Machine>(
    alloc: Global,
    lock: &TicketLock<M>,
    seats: Vec<Seat<M>>,
) -> Result<Vec<LendingSeat<M>>, AllocFailed<Vec<Seat<M>>>>
    requires lock { All (λ s. s.lock_id ≡ lock.now.lock_id) seats.items }
    requires all { length seats.items ≡ lock.now.seats }
    requires few { length seats.items ≤ MAX_SEATS }
    ensures ok { IfOk result (λ v. v.items ≡ seats.items) }
    ensures err { IfErr result (λ f. f.value.items ≡ seats.items) }
{
    let count = seats.len();
    // all that may fail comes first, so that no seat is moved in vain
    let Ok(mut berths) = open_berths(alloc, lock, count) else {
        return Err(AllocFailed { value: seats });
    };
    let Ok(mut lending) = Vec::with_capacity(alloc, count) else {
        return Err(AllocFailed { value: seats });
    };
    for seat in seats {
        let Some(berth) = berths.pop() else {
            unreachable!()
        };
        lending.push_reserved(LendingSeat::of(seat, berth));
    }
    Ok(lending)
}

/// The seats of a lock, which no longer lend themselves. All go at once: a seat of the lock's own
/// would wake no lent one.
///
/// # Errors
///
/// - [`AllocFailed`]: hands back the seats, which may still lend themselves.
pub fn take_home<M: Machine>(
    alloc: Global,
    lock: &TicketLock<M>,
    seats: Vec<LendingSeat<M>>,
) -> Result<Vec<Seat<M>>, AllocFailed<Vec<LendingSeat<M>>>>
    requires lock { All (λ s. s.lock_id ≡ lock.now.lock_id) seats.items }
    requires all { length seats.items ≡ lock.now.seats }
    ensures ok { IfOk result (λ v. v.items ≡ seats.items) }
    ensures err { IfErr result (λ f. f.value.items ≡ seats.items) }
{
    match Vec::with_capacity(alloc, seats.len()) {
        Ok(home) => Ok(move_home(lock, seats, home)),
        Err(_) => Err(AllocFailed { value: seats }),
    }
}
