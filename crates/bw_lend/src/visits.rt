//! The visit of a seat to the lock, from where it has drawn a ticket until it owes no wake.
//!
//! A visit is a value that cannot be dropped. Each access of a seat that lends itself or leaves
//! asks for its task in the model `Crowd`, and sets the next one. That code is proved of any
//! [`Visit`], so only the calls of this trait change the task: `Visits.antt:phase_of` says where in
//! the model it is. No other file of the crate names `.wake_one(`.
ghost use Rattle.std.specs.Prelude.{◌≡◌, ◌≢◌, ℕ, ◌+◌, ◌<◌, ◌≤◌, MatchBool, MatchOption};
ghost use Rattle.std.specs.Prelude.{true, false, IsSome};
ghost use Rattle.atomic_table.specs.Seated.{TableId};
ghost use Rattle.bw_lend.specs.declared.task.Task.TheVariants.{
  ToLook,
  ToHint,
  ToWait,
  ToEnter,
  ToPeek,
  ToClaim,
  ToHelp,
  ToGive,
  ToGiveLast,
  ToReturn,
  ToWakeFirst,
  ToWakeFrom,
};
ghost use Rattle.bw_lend.specs.Bells.{IsIn, IsWith};
ghost use Rattle.bw_lend.specs.Lent.{HasTicket};
ghost use Rattle.bw_lend.specs.Parts.{IsTable, IsOwner};
ghost use Rattle.bw_lend.specs.Visits.{Visiting, to, gone, gave, Names};
ghost use Rattle.bw_lend.specs.declared.table.TheConstants.{TICKETS};

use crate::looking::{Chance, Found};
use crate::steps::{Given, Offer, StoredHint, TakenBack, Tried};
use crate::table::{PLACES, Shared, Token, hint_word_of, hinted_place};
use crate::task::Task;
use crate::visitor::Visitor;
use bw_machine::{Count, Machine};
use bw_ticket::Behind;
use std::snapshot::Snapshot;

/// A visit to the lock. It is not `Drop`.
pub(crate) trait Visit {
    // Its table, ticket, wakes and task, the hint that it read last, and the number of looks.
    ghost state: { Self → Visiting };

    ghost hint: { Self → ℕ };

    ghost looks: { Self → ℕ };

    /// The ticket that it works on.
    fn ticket(&self) -> u64
        ensures { result ≡ (state self.now).ticket };

    /// The right to look once more.
    fn chance(&self) -> Chance
        requires task { (state self.now).task ≡ ToLook }
        ensures { result.nth.steps ≡ looks self.now };

    /// Notes what the next look found. Returns whether the seat's own ticket is served: then it
    /// enters.
    fn note(&mut self, sight: Found) -> bool
        requires task { (state self.old).task ≡ ToLook }
        requires own { sight.nth.steps ≡ looks self.old }
        ensures looked { looks self.new ≡ looks self.old + 1 }
        ensures seen { MatchBool result
            ((state self.new ≡ to (state self.old) ToEnter) ×
            (sight.served ≡ (state self.old).ticket))
            ((state self.new ≡ state self.old) × (sight.served ≢ (state self.old).ticket)) };

    /// Notes that the seat is lent in its place.
    fn lend(&mut self, offer: Offer)
        requires task { (state self.old).task ≡ ToLook }
        requires own { offer.ticket ≡ (state self.old).ticket }
        ensures { state self.new ≡ to (state self.old) ToHint };

    /// Notes that the hint of the seat is stored.
    fn hint(&mut self, stored: StoredHint)
        requires task { (state self.old).task ≡ ToHint }
        requires own { stored.ticket ≡ (state self.old).ticket }
        ensures { state self.new ≡ to (state self.old) ToWait };

    /// Notes that the place is taken back with the call not made. The seat enters.
    fn come_back(&mut self, taken: TakenBack)
        requires task { (state self.old).task ≡ ToWait }
        requires own { (taken.ticket ≡ (state self.old).ticket) × (taken.made ≡ false) }
        ensures { state self.new ≡ to (state self.old) ToEnter };

    /// Ends the visit: the place is taken back with the call made.
    fn end_made(self, taken: TakenBack)
        requires task { (state self).task ≡ ToWait }
        requires own { (taken.ticket ≡ (state self).ticket) × (taken.made ≡ true) };

    /// Notes what the seat found behind it when it had left. Returns whether the next ticket was
    /// drawn. If it was not, its seat will find it served.
    fn leave(&mut self, behind: Behind) -> bool
        requires task { (state self.old).task ≡ ToEnter }
        requires own { behind.left ≡ (state self.old).ticket }
        requires small { behind.left + 1 < TICKETS }
        ensures left { MatchBool result
            ((state self.new ≡ gone (state self.old) ToPeek) × (behind.left + 1 < behind.next))
            ((state self.new ≡ gone (state self.old) (ToWakeFrom 0)) ×
            (behind.next ≤ behind.left + 1)) };

    /// Reads the hint of the ticket. Returns the place that it names.
    fn peek(&mut self) -> Option<usize>
        requires table { IsTable (state self.old).table }
        requires task { (state self.old).task ≡ ToPeek }
        requires later { 0 < (state self.old).ticket }
        ensures read { Names (hint self.new) (state self.old).ticket result }
        ensures found { MatchOption result (state self.new ≡ to (state self.old) (ToWakeFrom 0))
            (λ place. (place < 64) × (state self.new ≡ to (state self.old) (ToClaim place))) };

    /// Notes a try to claim the place, to make the call of the seat that is lent there. Returns
    /// whether it was claimed.
    fn claim_to_help(&mut self, tried: Tried) -> bool
        requires task { (state self.old).task ≡ ToClaim tried.place }
        requires own { tried.ticket ≡ (state self.old).ticket }
        ensures claimed { MatchBool result
            ((state self.new ≡ to (state self.old) (ToHelp tried.place)) × (tried.won ≡ true))
            ((state self.new ≡ to (state self.old) (ToWakeFrom 0)) × (tried.won ≡ false)) };

    /// Notes a try to claim the place, to give the seat that is lent there back as it is. Returns
    /// whether it was claimed.
    fn claim_to_return(&mut self, tried: Tried) -> bool
        requires task { (state self.old).task ≡ ToClaim tried.place }
        requires own { tried.ticket ≡ (state self.old).ticket }
        ensures claimed { MatchBool result
            ((state self.new ≡ to (state self.old) (ToReturn tried.place)) × (tried.won ≡ true))
            ((state self.new ≡ to (state self.old) (ToWakeFrom 0)) × (tried.won ≡ false)) };

    /// Notes what the seat found behind it when it had left with the ticket of the seat in the
    /// place. Returns whether the next ticket was drawn.
    fn leave_for(&mut self, place: usize, behind: Behind) -> bool
        requires task { (state self.old).task ≡ ToHelp place }
        requires own { behind.left ≡ (state self.old).ticket }
        ensures left { MatchBool result
            ((state self.new ≡ to (state self.old) (ToGive place)) ×
            (behind.left + 1 < behind.next))
            ((state self.new ≡ to (state self.old) (ToGiveLast place)) ×
            (behind.next ≤ behind.left + 1)) };

    /// Notes that the place is given back with the call made. The next ticket was drawn.
    fn give(&mut self, given: Given)
        requires task { (state self.old).task ≡ ToGive given.place }
        requires own { (given.ticket ≡ (state self.old).ticket) × (given.made ≡ true) }
        requires place { given.place < 64 }
        requires small { given.ticket < TICKETS }
        ensures owed { IsWith (state self.old).owed given.place (state self.new).owed }
        ensures given { state self.new ≡
            gave (gone (state self.old) ToPeek) (state self.new).owed };

    /// Notes that the place is given back with the call made. The next ticket was not drawn.
    fn give_last(&mut self, given: Given)
        requires task { (state self.old).task ≡ ToGiveLast given.place }
        requires own { (given.ticket ≡ (state self.old).ticket) × (given.made ≡ true) }
        requires place { given.place < 64 }
        requires small { given.ticket < TICKETS }
        ensures owed { IsWith (state self.old).owed given.place (state self.new).owed }
        ensures given { state self.new ≡
            gave (gone (state self.old) (ToWakeFrom 0)) (state self.new).owed };

    /// Notes that the place is given back as it was. Its owner is to be woken first.
    fn return_back(&mut self, given: Given)
        requires task { (state self.old).task ≡ ToReturn given.place }
        requires own { (given.ticket ≡ (state self.old).ticket) × (given.made ≡ false) }
        ensures returned { state self.new ≡ to (state self.old) (ToWakeFirst given.place) };

    /// Wakes the owner of the place that was given back as it was.
    fn rouse_first(&mut self, place: usize)
        requires table { IsTable (state self.old).table }
        requires task { (state self.old).task ≡ ToWakeFirst place }
        requires place { place < 64 }
        ensures { state self.new ≡ to (state self.old) (ToWakeFrom 0) };

    /// Whether the owner of the place is owed a wake.
    fn owes(&self, place: usize) -> bool
        requires { place < 64 }
        ensures { MatchBool result (IsIn (state self.now).owed place)
            (IsIn (state self.now).owed place → ⊥) };

    /// Wakes the owner of the place, who is owed that.
    fn rouse(&mut self, place: usize)
        requires table { IsTable (state self.old).table }
        requires task { (state self.old).task ≡ ToWakeFrom place }
        requires owed { IsIn (state self.old).owed place }
        requires place { place < 64 }
        ensures { state self.new ≡ to (state self.old) (ToWakeFrom (place + 1)) };

    /// Goes on past a place whose owner is owed no wake.
    fn pass(&mut self, place: usize)
        requires task { (state self.old).task ≡ ToWakeFrom place }
        requires none { IsIn (state self.old).owed place → ⊥ }
        requires place { place < 64 }
        ensures { state self.new ≡ to (state self.old) (ToWakeFrom (place + 1)) };

    /// Whether nobody is owed a wake.
    fn owes_nobody(&self) -> bool
        ensures { MatchBool result ((state self.now).owed ≡ 0) (Unit {0}) };

    /// Goes on past all places. Nobody is owed a wake.
    fn pass_all(&mut self)
        requires task { (state self.old).task ≡ ToWakeFrom 0 }
        requires none { (state self.old).owed ≡ 0 }
        ensures { state self.new ≡ to (state self.old) (ToWakeFrom 64) };

    /// Ends the visit: all wakes are made.
    fn end(self)
        requires { (state self).task ≡ ToWakeFrom 64 };
}

// The set with the place.
fn with_place(owed: u64, place: usize) -> u64
    requires { place < 64 }
    ensures { IsWith owed place result }
{
    owed | 1 << place
}

/// A visit on the table of places.
pub(crate) struct TableVisit<'a, M: Machine> {
    table: &'a Shared<M>,
    ticket: u64,
    // a bit for each place whose owner is owed a wake
    owed: u64,
    // the last hint
    hint: Snapshot<u64>,
    task: Snapshot<Task>,
    looks: Count,
}

impl<'a, M: Machine> TableVisit<'a, M> {
    /// The visit of a seat that has drawn a ticket.
    pub(crate) fn of(table: &'a Shared<M>, seat: &Visitor<M>) -> TableVisit<'a, M>
        requires drawn { IsSome seat.now.pending }
        ensures table { result.table.now ≡ table.now }
        ensures ticket { HasTicket seat.now result.ticket }
        ensures nobody { result.owed ≡ 0 }
        ensures task { result.task.value ≡ ToLook }
    {
        let Some(drawn) = seat.pending() else {
            unreachable!()
        };
        TableVisit {
            table,
            ticket: drawn,
            owed: 0,
            hint: Snapshot::of(&0),
            task: Snapshot::of(&Task::ToLook),
            looks: Count::none(),
        }
    }
}

impl<'a, M: Machine> Visit for TableVisit<'a, M> {
    ghost state = { λ v. record {
      table = v.table.now.table_id;
      ticket = v.ticket;
      owed = v.owed;
      task = v.task.value;
    } };

    ghost hint = { λ v. v.hint.value };

    ghost looks = { λ v. v.looks.steps };

    fn ticket(&self) -> u64 {
        self.ticket
    }

    fn chance(&self) -> Chance {
        Chance::of(&self.looks)
    }

    fn note(&mut self, sight: Found) -> bool {
        self.looks = self.looks.one_more();
        if sight.end() == self.ticket {
            self.task = Snapshot::of(&Task::ToEnter);
            return true;
        }
        false
    }

    fn lend(&mut self, offer: Offer) {
        offer.end();
        self.task = Snapshot::of(&Task::ToHint);
    }

    fn hint(&mut self, stored: StoredHint) {
        stored.end();
        self.task = Snapshot::of(&Task::ToWait);
    }

    fn come_back(&mut self, taken: TakenBack) {
        taken.end();
        self.task = Snapshot::of(&Task::ToEnter);
    }

    fn end_made(self, taken: TakenBack) {
        taken.end();
        let TableVisit {
            table: _,
            ticket: _,
            owed: _,
            hint: _,
            task: _,
            looks: _,
        } = self;
    }

    fn leave(&mut self, behind: Behind) -> bool {
        self.ticket += 1;
        if behind.is_drawn() {
            self.task = Snapshot::of(&Task::ToPeek);
            return true;
        }
        self.task = Snapshot::of(&Task::ToWakeFrom(0));
        false
    }

    fn peek(&mut self) -> Option<usize> {
        let hint = self.table.peek(hint_word_of(self.ticket));
        self.hint = Snapshot::of(&hint);
        match hinted_place(hint, self.ticket) {
            Some(place) => {
                self.task = Snapshot::of(&Task::ToClaim(place as u64));
                Some(place)
            }
            None => {
                self.task = Snapshot::of(&Task::ToWakeFrom(0));
                None
            }
        }
    }

    fn claim_to_help(&mut self, tried: Tried) -> bool {
        if tried.won() {
            self.task = Snapshot::of(&Task::ToHelp(tried.place() as u64));
            return true;
        }
        self.task = Snapshot::of(&Task::ToWakeFrom(0));
        false
    }

    fn claim_to_return(&mut self, tried: Tried) -> bool {
        if tried.won() {
            self.task = Snapshot::of(&Task::ToReturn(tried.place() as u64));
            return true;
        }
        self.task = Snapshot::of(&Task::ToWakeFrom(0));
        false
    }

    fn leave_for(&mut self, place: usize, behind: Behind) -> bool {
        if behind.is_drawn() {
            self.task = Snapshot::of(&Task::ToGive(place as u64));
            return true;
        }
        self.task = Snapshot::of(&Task::ToGiveLast(place as u64));
        false
    }

    fn give(&mut self, given: Given) {
        let place = given.end();
        self.owed = with_place(self.owed, place);
        self.ticket += 1;
        self.task = Snapshot::of(&Task::ToPeek);
    }

    fn give_last(&mut self, given: Given) {
        let place = given.end();
        self.owed = with_place(self.owed, place);
        self.ticket += 1;
        self.task = Snapshot::of(&Task::ToWakeFrom(0));
    }

    fn return_back(&mut self, given: Given) {
        self.task = Snapshot::of(&Task::ToWakeFirst(given.end() as u64));
    }

    fn rouse_first(&mut self, place: usize) {
        self.table.wake_one(place);
        self.task = Snapshot::of(&Task::ToWakeFrom(0));
    }

    fn owes(&self, place: usize) -> bool {
        self.owed >> place & 1 == 1
    }

    fn rouse(&mut self, place: usize) {
        self.table.wake_one(place);
        self.task = Snapshot::of(&Task::ToWakeFrom(place as u64 + 1));
    }

    fn pass(&mut self, place: usize) {
        self.task = Snapshot::of(&Task::ToWakeFrom(place as u64 + 1));
    }

    fn owes_nobody(&self) -> bool {
        self.owed == 0
    }

    fn pass_all(&mut self) {
        self.task = Snapshot::of(&Task::ToWakeFrom(64));
    }

    fn end(self) {
        let TableVisit {
            table: _,
            ticket: _,
            owed: _,
            hint: _,
            task: _,
            looks: _,
        } = self;
    }
}

/// Wakes the owner of a place that was given back as it was, before all others.
///
/// The seat must have no place but its own: the other one is back.
pub(crate) fn wake_first<M: Machine, V: Visit>(token: &Token<M>, visit: &mut V, place: usize)
    requires table { IsTable (V.state visit.old).table }
    requires free { (lock : _) × (mine : _) × IsOwner lock mine token.now.me }
    requires task { (V.state visit.old).task ≡ ToWakeFirst place }
    requires place { place < 64 }
    ensures { V.state visit.new ≡ to (V.state visit.old) (ToWakeFrom 0) }
{
    let _ = token;
    visit.rouse_first(place);
}

/// Wakes all owners that the visit owes a wake, and ends it. Most visits owe none.
///
/// The seat must have no place but its own: the others are back.
pub(crate) fn wake_all<M: Machine, V: Visit>(token: &Token<M>, visit: V)
    requires table { IsTable (V.state visit).table }
    requires free { (lock : _) × (mine : _) × IsOwner lock mine token.now.me }
    requires task { (V.state visit).task ≡ ToWakeFrom 0 }
{
    let _ = token;
    let mut visit = visit;
    if visit.owes_nobody() {
        visit.pass_all();
        visit.end();
        return;
    }
    for place in 0..PLACES {
        if visit.owes(place) {
            visit.rouse(place);
        } else {
            visit.pass(place);
        }
    }
    visit.end();
}
