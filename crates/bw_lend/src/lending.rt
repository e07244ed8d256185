//! The wait of a seat, which lends itself until its call is made.
ghost use Rattle.std.specs.Prelude.{◌≡◌, ◌<◌, None, [], ◌∷◌, IsSome, MatchBool};
ghost use Rattle.bw_lend.specs.declared.stake.Part.TheVariants.{Lends};
ghost use Rattle.bw_lend.specs.declared.task.Task.TheVariants.{ToLook, ToWait, ToEnter};
ghost use Rattle.bw_lend.specs.Lent.{HasTicket, IsFinished, IsMade, Returns};
ghost use Rattle.bw_lend.specs.Parts.{IsTable, IsOwner};
ghost use Rattle.bw_lend.specs.Rule.{stake};
ghost use Rattle.bw_lend.specs.Visits.{to};

use crate::helping::finish_visit;
use crate::sleeping::{PlaceWord, TableWord, may_take_back, sleep_lent};
use crate::steps::{TakenBack, post, store_hint, take_back};
use crate::table::{Content, Place, Shared, Token, low_half};
use crate::visitor::Visitor;
use crate::visits::Visit;
use bw_machine::Machine;
use bw_ticket::{Answer, TicketLock};
use std::hint::spin_loop;
use std::rt::Clock;
use std::snapshot::Snapshot;
use std::sync::Wait;

// Greatest number of looks before a seat lends itself.
const LOOKS: u32 = 50;

// Greatest number of tickets ahead at which a seat looks again. With more ahead it lends itself at
// once, so that few seats look at the lock's words.
const NEAR: u64 = 1;

/// Looks whether the seat's ticket is served, some times while it is the next one. If it is, the
/// seat enters. Otherwise it may lend itself.
// in its caller, so that the visit stays in registers
#[inline(always)]
pub(crate) fn is_soon<M: Machine, V: Visit>(lock: &TicketLock<M>, visit: &mut V) -> bool
    requires task { (V.state visit.old).task ≡ ToLook }
    ensures soon { MatchBool result (V.state visit.new ≡ to (V.state visit.old) ToEnter)
        (V.state visit.new ≡ V.state visit.old) }
{
    let ticket = visit.ticket();
    for _look in 0..LOOKS {
        let sight = visit.chance().look(lock);
        let served = sight.served();
        if visit.note(sight) {
            return true;
        }
        if ticket.saturating_sub(served) > NEAR {
            return false;
        }
        spin_loop();
    }
    false
}

// Waits until the place can be taken back, and takes it.
//
// Each turn reads the state of the place. While nobody has claimed the seat, it then looks whether
// its ticket is served: no other seat wakes it for that. It sleeps only if that look was in vain.
fn wait_for_place<M: Machine, R: Wait, W: PlaceWord, V: Visit>(
    rt: &R,
    lock: &TicketLock<M>,
    table: &Shared<M>,
    token: &mut Token<M>,
    place: usize,
    word: &mut W,
    visit: &V,
    lent: &Snapshot<Visitor<M>>,
) -> (Content<M>, TakenBack)
    requires table { (token.old.table_id ≡ table.now.table_id) × IsTable table.now.table_id }
    requires lends { token.old.me ≡
        (stake lent.now.value.lock_id place (Lends lent.now.value) ∷ [], []) }
    requires place { place < 64 }
    requires ticket { HasTicket lent.now.value (V.state visit.now).ticket }
    requires task { (V.state visit.now).task ≡ ToWait }
    requires word { W.exists word.old × (W.state word.old ≡ None) }
    requires own { W.place word.old ≡ place }
    ensures table { token.new.table_id ≡ token.old.table_id }
    ensures owner { IsOwner lent.now.value.lock_id place token.new.me }
    ensures back { Returns lent.now.value result.0 }
    ensures taken { (result.1.ticket ≡ (V.state visit.now).ticket) ×
        IsMade result.1.made result.0 }
{
    for _ in rt.forever() {
        let (state, chance) = word.read();
        if !may_take_back(word, lock, state, chance, visit) {
            sleep_lent(rt, word, visit, low_half(state));
            continue;
        }
        match take_back(table, token, place, word, visit, lent, state) {
            Ok(taken) => return taken,
            Err(lost) => word.retry(lost),
        }
    }
    unreachable!()
}

// Goes on with what came back: the call is made, or the seat makes it now, and then helps the next
// ones.
fn go_on<M: Machine, R: Wait + Clock, V: Visit>(
    rt: &R,
    lock: &TicketLock<M>,
    table: &Shared<M>,
    token: &mut Token<M>,
    lent: &Snapshot<Visitor<M>>,
    content: Content<M>,
    taken: TakenBack,
    visit: V,
) -> (Visitor<M>, Answer<M::Reply>)
    requires table { (token.old.table_id ≡ table.now.table_id) × IsTable table.now.table_id }
    requires visit { (V.state visit).table ≡ table.now.table_id }
    requires owner { (mine : _) × IsOwner lock.now.lock_id mine token.old.me }
    requires lock { lent.now.value.lock_id ≡ lock.now.lock_id }
    requires pending { IsSome lent.now.value.pending }
    requires ticket { HasTicket lent.now.value (V.state visit).ticket }
    requires task { (V.state visit).task ≡ ToWait }
    requires nobody { (V.state visit).owed ≡ 0 }
    requires back { Returns lent.now.value content }
    requires taken { (taken.ticket ≡ (V.state visit).ticket) × IsMade taken.made content }
    ensures table { token.new.table_id ≡ token.old.table_id }
    ensures same { token.new.me ≡ token.old.me }
    ensures finished { IsFinished lent.now.value result.1 result.0 }
{
    let _ = lent;
    match content {
        Place::Made(seat, answer) => {
            visit.end_made(taken);
            (seat, answer)
        }
        Place::Lent(seat) => {
            let mut seat = seat;
            let mut visit = visit;
            visit.come_back(taken);
            let answer = finish_visit(rt, lock, table, token, &mut seat, visit);
            (seat, answer)
        }
        Place::Empty => unreachable!(),
    }
}

/// Lends the seat until a helper has made its pending call, or it has to make that itself.
pub(crate) fn finish_lent<M: Machine, R: Wait + Clock, V: Visit>(
    rt: &R,
    lock: &TicketLock<M>,
    table: &Shared<M>,
    token: &mut Token<M>,
    place: usize,
    seat: Visitor<M>,
    visit: V,
) -> (Visitor<M>, Answer<M::Reply>)
    requires table { (token.old.table_id ≡ table.now.table_id) × IsTable table.now.table_id }
    requires visit { (V.state visit).table ≡ table.now.table_id }
    requires owner { IsOwner lock.now.lock_id place token.old.me }
    requires place { place < 64 }
    requires lock { seat.lock_id ≡ lock.now.lock_id }
    requires pending { IsSome seat.pending }
    requires ticket { HasTicket seat (V.state visit).ticket }
    requires task { (V.state visit).task ≡ ToLook }
    requires nobody { (V.state visit).owed ≡ 0 }
    ensures table { token.new.table_id ≡ token.old.table_id }
    ensures owner { IsOwner lock.now.lock_id place token.new.me }
    ensures finished { IsFinished seat result.1 result.0 }
{
    let Some(ticket) = seat.pending() else {
        unreachable!()
    };
    let lent = Snapshot::of(&seat);
    let mut visit = visit;
    visit.lend(post(table, token, place, seat, ticket));
    visit.hint(store_hint(table, token, place, &lent, ticket));
    let mut word = TableWord::of(table, place);
    let (content, taken) = wait_for_place(rt, lock, table, token, place, &mut word, &visit, &lent);
    go_on(rt, lock, table, token, &lent, content, taken, visit)
}
