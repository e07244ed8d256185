//! The steps on the table of places.
ghost use Rattle.std.specs.Prelude.{◌≡◌, ◌==◌, ◌%◌, ◌<◌, ◌≤◌, [], ◌∷◌, drop, ℕ};
ghost use Rattle.std.specs.Prelude.{Some, IsSome, IfOk, IfErr, MatchBool, false};
ghost use Rattle.bw_lend.specs.declared.stake.Part.TheVariants.{Owns, Hints, Lends, Helps, Fresh};
ghost use Rattle.bw_lend.specs.declared.task.Task.TheVariants.{ToWait};
ghost use Rattle.bw_lend.specs.Lent.{HasTicket, IsMade, Returns};
ghost use Rattle.bw_lend.specs.Rule.{stake};
ghost use Rattle.bw_lend.specs.Parts.{IsTable, IsOwner, IsHelper};
ghost use Rattle.bw_lend.specs.Waits.{MayTakeBack};
ghost use Rattle.bw_lend.specs.declared.table.TheConstants.{TICKETS};

use crate::plays::{Claim, GiveBack, Hint, Open, Post, TakeBack};
use crate::sleeping::PlaceWord;
use crate::table::{
    AWAY, CLAIMED, Content, POSTED, Place, Shared, Token, hint_of, hint_word_of, is_done,
    returned_state, state_of,
};
use crate::visitor::Visitor;
use crate::visits::Visit;
use bw_machine::Machine;
use bw_ticket::TicketLock;
use std::snapshot::Snapshot;

/// Takes an unused place, which the seat of the table owns from now on.
pub(crate) fn open_place<M: Machine>(table: &Shared<M>, token: &mut Token<M>, place: usize)
    requires table { (token.old.table_id ≡ table.now.table_id) × IsTable table.now.table_id }
    requires fresh { token.old.me ≡ (stake table.now.key.value.lock_id place Fresh ∷ [], []) }
    requires place { place < 64 }
    ensures table { token.new.table_id ≡ token.old.table_id }
    ensures owner { IsOwner table.now.key.value.lock_id place token.new.me }
{
    table.store::<Open>(token, place, AWAY);
}

/// A seat that was lent in its place. Only [`post`] makes one. It is not `Drop`.
pub(crate) struct Offer {
    ticket: u64,
}

impl Offer {
    pub(crate) fn end(self) {
        let Offer { ticket: _ } = self;
    }
}

/// A hint that was stored. Only [`store_hint`] makes one. It is not `Drop`.
pub(crate) struct StoredHint {
    ticket: u64,
}

impl StoredHint {
    pub(crate) fn end(self) {
        let StoredHint { ticket: _ } = self;
    }
}

/// Lends the seat through its place.
pub(crate) fn post<M: Machine>(
    table: &Shared<M>,
    token: &mut Token<M>,
    place: usize,
    seat: Visitor<M>,
    ticket: u64,
) -> Offer
    requires table { (token.old.table_id ≡ table.now.table_id) × IsTable table.now.table_id }
    requires owner { IsOwner seat.lock_id place token.old.me }
    requires place { place < 64 }
    requires pending { IsSome seat.pending }
    requires ticket { HasTicket seat ticket }
    requires small { ticket < TICKETS }
    ensures table { token.new.table_id ≡ token.old.table_id }
    ensures lent { token.new.me ≡ (stake seat.lock_id place (Hints seat) ∷ [], []) }
    ensures offer { result.ticket ≡ ticket }
{
    let _empty = table.exchange(token, place, Place::Lent(seat));
    table.store::<Post>(token, place, state_of(ticket, POSTED));
    Offer { ticket }
}

/// Hints at the place where this seat is lent.
pub(crate) fn store_hint<M: Machine>(
    table: &Shared<M>,
    token: &mut Token<M>,
    place: usize,
    lent: &Snapshot<Visitor<M>>,
    ticket: u64,
) -> StoredHint
    requires table { (token.old.table_id ≡ table.now.table_id) × IsTable table.now.table_id }
    requires lent { token.old.me ≡
        (stake lent.now.value.lock_id place (Hints lent.now.value) ∷ [], []) }
    requires place { place < 64 }
    requires ticket { HasTicket lent.now.value ticket }
    requires small { ticket < TICKETS }
    ensures table { token.new.table_id ≡ token.old.table_id }
    ensures lends { token.new.me ≡
        (stake lent.now.value.lock_id place (Lends lent.now.value) ∷ [], []) }
    ensures stored { result.ticket ≡ ticket }
{
    let _ = lent;
    table.store::<Hint>(token, hint_word_of(ticket), hint_of(ticket, place));
    StoredHint { ticket }
}

/// The state of a place was another one than its owner had read. Only a try to take the place back
/// makes one.
#[derive(Drop)]
pub(crate) struct Lost {
    state: u64,
}

/// A place that its owner took back, with the call of its seat made or not. Only [`take_back`]
/// makes one. It is not `Drop`.
pub(crate) struct TakenBack {
    ticket: u64,
    made: bool,
}

impl TakenBack {
    pub(crate) fn end(self) {
        let TakenBack { ticket: _, made: _ } = self;
    }
}

/// Takes the place back, where this seat is lent, if its state is still the one that was read.
///
/// Its owner has read that the seat is back, or has found its own ticket served.
pub(crate) fn take_back<M: Machine, W: PlaceWord, V: Visit>(
    table: &Shared<M>,
    token: &mut Token<M>,
    place: usize,
    word: &W,
    visit: &V,
    lent: &Snapshot<Visitor<M>>,
    state: u64,
) -> Result<(Content<M>, TakenBack), Lost>
    requires table { (token.old.table_id ≡ table.now.table_id) × IsTable table.now.table_id }
    requires lends { token.old.me ≡
        (stake lent.now.value.lock_id place (Lends lent.now.value) ∷ [], []) }
    requires place { place < 64 }
    requires ticket { HasTicket lent.now.value (V.state visit.now).ticket }
    requires task { (V.state visit.now).task ≡ ToWait }
    requires read { W.state word.now ≡ Some state }
    requires seen { MayTakeBack (W.state word.now) (W.found word.now) (V.state visit.now).ticket }
    ensures table { token.new.table_id ≡ token.old.table_id }
    ensures lost { IfErr result (λ _. token.new.me ≡ token.old.me) }
    ensures back { IfOk result (λ y. Returns lent.now.value y.0 ×
        IsOwner lent.now.value.lock_id place token.new.me) }
    ensures taken { IfOk result (λ y. (y.1.ticket ≡ (V.state visit.now).ticket) ×
        IsMade y.1.made y.0) }
    ensures read { IfOk result (λ y. y.1.made ≡ (state % 8 == 4)) }
{
    let _ = word;
    let _ = lent;
    let ticket = visit.ticket();
    let found = table.compare_exchange::<TakeBack>(token, place, state, AWAY);
    if found != state {
        return Err(Lost { state: found });
    }
    let content = table.exchange(token, place, Place::Empty);
    let made = is_done(state);
    Ok((content, TakenBack { ticket, made }))
}

/// A try to claim a place. Only [`claim`] makes one.
#[derive(Drop)]
pub(crate) struct Tried {
    place: usize,
    ticket: u64,
    won: bool,
}

impl Tried {
    pub(crate) fn place(&self) -> usize
        ensures { result ≡ self.now.place }
    {
        self.place
    }

    /// Whether the place was claimed.
    pub(crate) fn won(&self) -> bool
        ensures { result ≡ self.now.won }
    {
        self.won
    }
}

/// A place that was given back, with the call of its seat made or not. Only [`give_back`] makes
/// one. It is not `Drop`.
pub(crate) struct Given {
    place: usize,
    ticket: u64,
    made: bool,
}

impl Given {
    /// The place.
    pub(crate) fn end(self) -> usize
        ensures { result ≡ self.place }
    {
        let Given {
            place,
            ticket: _,
            made: _,
        } = self;
        place
    }
}

/// Takes the place if the seat of this ticket is lent there.
pub(crate) fn claim<M: Machine>(
    lock: &TicketLock<M>,
    table: &Shared<M>,
    token: &mut Token<M>,
    place: usize,
    ticket: u64,
) -> Tried
    requires table { (token.old.table_id ≡ table.now.table_id) × IsTable table.now.table_id }
    requires owner { (mine : _) × IsOwner lock.now.lock_id mine token.old.me }
    requires place { place < 64 }
    requires small { ticket < TICKETS }
    ensures table { token.new.table_id ≡ token.old.table_id }
    ensures tried { (result.place ≡ place) × (result.ticket ≡ ticket) }
    ensures claimed { MatchBool result.won
        (IsHelper lock.now.lock_id place ticket false token.old.me token.new.me)
        (token.new.me ≡ token.old.me) }
{
    let posted = state_of(ticket, POSTED);
    let found = table.compare_exchange::<Claim>(token, place, posted, state_of(ticket, CLAIMED));
    let won = found == posted;
    Tried { place, ticket, won }
}

/// Gives the place of another seat back, with the seat that was lent in it, its call made or not.
pub(crate) fn give_back<M: Machine>(
    table: &Shared<M>,
    token: &mut Token<M>,
    place: usize,
    ticket: u64,
    made: bool,
) -> Given
    requires table { (token.old.table_id ≡ table.now.table_id) × IsTable table.now.table_id }
    requires helper { (lock : _) × (before : _) ×
        IsHelper lock place ticket made before token.old.me }
    requires place { place < 64 }
    requires small { ticket < TICKETS }
    ensures table { token.new.table_id ≡ token.old.table_id }
    ensures back { token.new.me ≡ (drop 1 token.old.me.0, drop 1 token.old.me.1) }
    ensures given { (result.place ≡ place) × (result.ticket ≡ ticket) × (result.made ≡ made) }
{
    table.store::<GiveBack>(token, place, returned_state(ticket, made));
    Given {
        place,
        ticket,
        made,
    }
}
