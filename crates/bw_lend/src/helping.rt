//! The help of a seat that leaves: it makes the calls of the next tickets that are lent.
ghost use Rattle.std.specs.Prelude.{◌≡◌, ℕ, ◌+◌, ◌<◌, MatchBool, IsSome, true, false};
ghost use Rattle.bw_lend.specs.declared.task.Task.TheVariants.{
  ToEnter,
  ToPeek,
  ToHelp,
  ToGive,
  ToGiveLast,
  ToWakeFrom,
};
ghost use Rattle.bw_lend.specs.Lent.{Brings, HasTicket, IsFinished, IsMade};
ghost use Rattle.bw_lend.specs.Parts.{IsTable, IsOwner, IsHelper};
ghost use Rattle.bw_lend.specs.Visits.{to, gone};
ghost use Rattle.bw_lend.specs.declared.table.TheConstants.{TICKETS};

use crate::steps::{claim, give_back};
use crate::table::{Content, Place, Shared, Token};
use crate::visitor::Visitor;
use crate::visits::{Visit, wake_all, wake_first};
use bw_machine::Machine;
use bw_ticket::{Answer, TicketLock};
use std::rt::Clock;
use std::sync::Wait;

// Greatest number of calls that a seat makes for others when it leaves.
const MOST_HELPED: u64 = 64;

// Makes the pending call of the seat in the place. Returns whether the next ticket was drawn then.
fn make<M: Machine, R: Wait + Clock, V: Visit>(
    rt: &R,
    lock: &TicketLock<M>,
    content: Content<M>,
    place: usize,
    visit: &mut V,
) -> (Content<M>, bool)
    requires lent { (lent : _) × Brings lock.now.lock_id lent content ×
        HasTicket lent (V.state visit.old).ticket × IsMade false content }
    requires task { (V.state visit.old).task ≡ ToHelp place }
    ensures made { (lent : _) → Brings lock.now.lock_id lent content →
        Brings lock.now.lock_id lent result.0 × IsMade true result.0 }
    ensures left { MatchBool result.1
        (V.state visit.new ≡ to (V.state visit.old) (ToGive place))
        (V.state visit.new ≡ to (V.state visit.old) (ToGiveLast place)) }
    ensures small { (V.state visit.old).ticket + 1 < TICKETS }
{
    match content {
        Place::Lent(seat) => {
            let mut seat = seat;
            let (answer, behind) = seat.finish_and_look(rt, lock, visit);
            let later = visit.leave_for(place, behind);
            (Place::Made(seat, answer), later)
        }
        Place::Made(_, _) => unreachable!(),
        Place::Empty => unreachable!(),
    }
}

// Makes the call of the seat in the place that was claimed. Returns whether the next ticket was
// drawn then.
fn make_at<M: Machine, R: Wait + Clock, V: Visit>(
    rt: &R,
    lock: &TicketLock<M>,
    table: &Shared<M>,
    token: &mut Token<M>,
    place: usize,
    visit: &mut V,
) -> bool
    requires table { (token.old.table_id ≡ table.now.table_id) × IsTable table.now.table_id }
    requires helper { (before : _) ×
        IsHelper lock.now.lock_id place (V.state visit.old).ticket false before token.old.me }
    requires place { place < 64 }
    requires task { (V.state visit.old).task ≡ ToHelp place }
    ensures table { token.new.table_id ≡ token.old.table_id }
    ensures helper { (before : _) →
        IsHelper lock.now.lock_id place (V.state visit.old).ticket false before token.old.me →
        IsHelper lock.now.lock_id place (V.state visit.old).ticket true before token.new.me }
    ensures left { MatchBool result
        (V.state visit.new ≡ to (V.state visit.old) (ToGive place))
        (V.state visit.new ≡ to (V.state visit.old) (ToGiveLast place)) }
    ensures small { (V.state visit.old).ticket + 1 < TICKETS }
{
    let content = table.exchange(token, place, Place::Empty);
    let (content, later) = make(rt, lock, content, place, visit);
    let _empty = table.exchange(token, place, content);
    later
}

// Looks for the seat with the next ticket. If it is lent, makes its call and gives it back. Returns
// whether there may be one more.
fn help_one<M: Machine, R: Wait + Clock, V: Visit>(
    rt: &R,
    lock: &TicketLock<M>,
    table: &Shared<M>,
    token: &mut Token<M>,
    visit: &mut V,
) -> bool
    requires table { (token.old.table_id ≡ table.now.table_id) × IsTable table.now.table_id }
    requires visit { (V.state visit.old).table ≡ table.now.table_id }
    requires owner { (mine : _) × IsOwner lock.now.lock_id mine token.old.me }
    requires task { (V.state visit.old).task ≡ ToPeek }
    requires small { (V.state visit.old).ticket < TICKETS }
    requires later { 0 < (V.state visit.old).ticket }
    ensures table { token.new.table_id ≡ token.old.table_id }
    ensures same { token.new.me ≡ token.old.me }
    ensures visit { (V.state visit.new).table ≡ (V.state visit.old).table }
    ensures next { MatchBool result ((V.state visit.new).task ≡ ToPeek)
        ((V.state visit.new).task ≡ ToWakeFrom 0) }
    ensures small { (V.state visit.new).ticket < TICKETS }
    ensures later { 0 < (V.state visit.new).ticket }
{
    let Some(place) = visit.peek() else {
        return false;
    };
    let ticket = visit.ticket();
    if !visit.claim_to_help(claim(lock, table, token, place, ticket)) {
        return false;
    }
    if make_at(rt, lock, table, token, place, visit) {
        visit.give(give_back(table, token, place, ticket, true));
        return true;
    }
    visit.give_last(give_back(table, token, place, ticket, true));
    false
}

// Looks for the seat with the next ticket. If it is lent, gives it back as it is, and wakes its
// owner.
fn return_one<M: Machine, V: Visit>(
    lock: &TicketLock<M>,
    table: &Shared<M>,
    token: &mut Token<M>,
    visit: &mut V,
)
    requires table { (token.old.table_id ≡ table.now.table_id) × IsTable table.now.table_id }
    requires visit { (V.state visit.old).table ≡ table.now.table_id }
    requires owner { (mine : _) × IsOwner lock.now.lock_id mine token.old.me }
    requires task { (V.state visit.old).task ≡ ToPeek }
    requires small { (V.state visit.old).ticket < TICKETS }
    requires later { 0 < (V.state visit.old).ticket }
    ensures table { token.new.table_id ≡ token.old.table_id }
    ensures same { token.new.me ≡ token.old.me }
    ensures visit { (V.state visit.new).table ≡ (V.state visit.old).table }
    ensures task { (V.state visit.new).task ≡ ToWakeFrom 0 }
{
    let Some(place) = visit.peek() else {
        return;
    };
    let ticket = visit.ticket();
    if !visit.claim_to_return(claim(lock, table, token, place, ticket)) {
        return;
    }
    visit.return_back(give_back(table, token, place, ticket, false));
    wake_first(token, visit, place);
}

// Makes the calls of the next tickets, as long as their seats are lent. After 64 calls the next
// seat goes back as it is. Its owner makes its call, and helps on.
fn help<M: Machine, R: Wait + Clock, V: Visit>(
    rt: &R,
    lock: &TicketLock<M>,
    table: &Shared<M>,
    token: &mut Token<M>,
    visit: &mut V,
)
    requires table { (token.old.table_id ≡ table.now.table_id) × IsTable table.now.table_id }
    requires visit { (V.state visit.old).table ≡ table.now.table_id }
    requires owner { (mine : _) × IsOwner lock.now.lock_id mine token.old.me }
    requires task { (V.state visit.old).task ≡ ToPeek }
    requires small { (V.state visit.old).ticket < TICKETS }
    requires later { 0 < (V.state visit.old).ticket }
    ensures table { token.new.table_id ≡ token.old.table_id }
    ensures same { token.new.me ≡ token.old.me }
    ensures visit { (V.state visit.new).table ≡ (V.state visit.old).table }
    ensures task { (V.state visit.new).task ≡ ToWakeFrom 0 }
{
    for _nth in 0..MOST_HELPED {
        if !help_one(rt, lock, table, token, visit) {
            return;
        }
    }
    return_one(lock, table, token, visit);
}

// Makes the calls of the next tickets that are lent, and ends the visit: all their owners are
// woken. It is a function of its own and takes the visit by value, so that a call with no later
// ticket has both in registers.
#[inline(never)]
fn help_and_wake<M: Machine, R: Wait + Clock, V: Visit>(
    rt: &R,
    lock: &TicketLock<M>,
    table: &Shared<M>,
    token: &mut Token<M>,
    visit: V,
)
    requires table { (token.old.table_id ≡ table.now.table_id) × IsTable table.now.table_id }
    requires visit { (V.state visit).table ≡ table.now.table_id }
    requires owner { (mine : _) × IsOwner lock.now.lock_id mine token.old.me }
    requires task { (V.state visit).task ≡ ToPeek }
    requires small { (V.state visit).ticket < TICKETS }
    requires later { 0 < (V.state visit).ticket }
    ensures table { token.new.table_id ≡ token.old.table_id }
    ensures same { token.new.me ≡ token.old.me }
{
    let mut visit = visit;
    help(rt, lock, table, token, &mut visit);
    wake_all(token, visit);
}

/// Makes the pending call of the seat, then those of the next tickets that are lent, and then wakes
/// their owners.
// in its caller, so that the visit stays in registers
#[inline(always)]
pub(crate) fn finish_visit<M: Machine, R: Wait + Clock, V: Visit>(
    rt: &R,
    lock: &TicketLock<M>,
    table: &Shared<M>,
    token: &mut Token<M>,
    seat: &mut Visitor<M>,
    visit: V,
) -> Answer<M::Reply>
    requires table { (token.old.table_id ≡ table.now.table_id) × IsTable table.now.table_id }
    requires visit { (V.state visit).table ≡ table.now.table_id }
    requires owner { (mine : _) × IsOwner lock.now.lock_id mine token.old.me }
    requires lock { seat.old.lock_id ≡ lock.now.lock_id }
    requires pending { IsSome seat.old.pending }
    requires ticket { HasTicket seat.old (V.state visit).ticket }
    requires task { (V.state visit).task ≡ ToEnter }
    requires nobody { (V.state visit).owed ≡ 0 }
    ensures table { token.new.table_id ≡ token.old.table_id }
    ensures same { token.new.me ≡ token.old.me }
    ensures finished { IsFinished seat.old result seat.new }
{
    let mut visit = visit;
    let (answer, behind) = seat.finish_and_look(rt, lock, &visit);
    let later = visit.leave(behind);
    if later {
        help_and_wake(rt, lock, table, token, visit);
        return answer;
    }
    wake_all(token, visit);
    answer
}
