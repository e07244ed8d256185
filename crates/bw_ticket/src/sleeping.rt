//! The calls by which a seat waits and wakes another, the step woken, and the count of what a seat
//! does between two sleeps.
//!
//! No other file of the crate names `.park(`, `.wake_one(`, `.peek(`, `spin_loop` or `yield_now`,
//! nor the step of a look. Each function makes its call once, and this file has no loop. So what
//! other files do between two sleeps is counted by contract. A sleep and a wake are no steps of the
//! table, so their arguments are asked by contract. [`park_on`] and [`ring`] are proved of any
//! [`WakeWord`], whose counts only its own calls raise: so each makes its call.
ghost use Rattle.std.specs.Prelude.{◌≡◌, ℕ, ◌+◌, ◌^◌, ◌<◌, ◌≤◌, [], ◌∷◌, map, length};
ghost use Rattle.std.specs.Prelude.{vec_capacity, MatchBool};
ghost use Rattle.bw_ticket.specs.declared.board.Phase.TheVariants.{Looked, Waiting, Wakes};
ghost use Rattle.bw_ticket.specs.Plays.{entered, goes, missed, woke};
ghost use Rattle.bw_ticket.specs.Rule.{Each, wake_word};
ghost use Rattle.bw_ticket.specs.Seats.{IsBoard, IsSeat, IsWaiting, Enters};

use crate::board::{SERVING, SlotValue, View};
use crate::limits::MOST_AWAKE;
use crate::lock::{Board, Token};
use crate::patience::Patience;
use crate::steps::wait_turn;
use atomic_table::Play;
use bw_machine::{Count, Machine};
use std::hint::spin_loop;
use std::marker::Model;
use std::rt::Clock;
use std::sync::Wait;
use std::thread::yield_now;

/// Ghost state: the numbers of looks, spins and yields of a waiting seat since it last slept. It has
/// no data at run time.
#[derive(Drop)]
pub(crate) struct Awake {
    count: Count,
    // the looks that may find its own ticket served
    looks: Count,
}

impl Model for Awake {
    ghost use Rattle.bw_ticket.specs.Watch.{Watch};

    ghost Value = { Watch };

    ghost view = { λ awake. record {
      steps = awake.count.steps;
      looks = awake.looks.steps;
    } };
}

impl Awake {
    // A count of nothing. Only `enter` begins one, and `park_on` begins it anew.
    fn none() -> Awake
        ensures steps { result.steps ≡ 0 }
        ensures looks { result.looks ≡ 0 }
    {
        Awake {
            count: Count::none(),
            looks: Count::none(),
        }
    }

    // Counts one more, of which there may be [`MOST_AWAKE`].
    fn add(&mut self)
        requires { self.old.steps < MOST_AWAKE }
        ensures steps { self.new.steps ≡ self.old.steps + 1 }
        ensures looks { self.new.looks ≡ self.old.looks }
    {
        self.count = self.count.one_more();
    }

    // Counts a look that may find the own ticket served.
    fn add_look(&mut self)
        requires { self.old.steps < MOST_AWAKE }
        ensures steps { self.new.steps ≡ self.old.steps + 1 }
        ensures looks { 0 < self.new.looks }
    {
        self.add();
        self.looks = self.looks.one_more();
    }
}

// The steps look and enter, a load of the word `serving`.
struct Looking;

impl<M, C, R> Play<SlotValue<M, C, R>, View<M, C, R>> for Looking {
    ghost use Rattle.bw_ticket.specs.Plays.{looked};

    ghost then = { λ _. looked };
}

/// The step look or enter: one load, counted. Returns whether the seat's own ticket is served: then
/// it has the slot. A seat that looks in vain after it stored its mark may sleep.
pub(crate) fn look<M: Machine>(
    board: &Board<M>,
    seat: &mut Token<M>,
    ticket: u64,
    awake: &mut Awake,
) -> bool
    requires table { (seat.old.table_id ≡ board.now.shared.table_id) ×
        IsBoard board.now.shared.table_id }
    requires waits { IsWaiting seat.old ticket }
    requires few { awake.old.steps < MOST_AWAKE }
    ensures table { seat.new.table_id ≡ seat.old.table_id }
    ensures counted { awake.new.steps ≡ awake.old.steps + 1 }
    ensures seen { 0 < awake.new.looks }
    ensures looked { MatchBool result (Enters ticket seat.old seat.new)
        ((seat.new.me ≡ (map (goes missed) seat.old.me.0, [])) × (ticket + 1 < 2 ^ 32)) }
{
    awake.add_look();
    let found = board.shared.load::<Looking>(seat, SERVING);
    if found == ticket {
        return true;
    }
    false
}

/// The ticket that is served, by one load that is no step of the table. It is counted. The seat has
/// looked since it last slept.
pub(crate) fn glance<M: Machine>(board: &Board<M>, awake: &mut Awake) -> u64
    requires table { IsBoard board.now.shared.table_id }
    requires few { awake.old.steps < MOST_AWAKE }
    requires looked { 0 < awake.old.looks }
    ensures counted { awake.new.steps ≡ awake.old.steps + 1 }
    ensures looks { awake.new.looks ≡ awake.old.looks }
{
    awake.add();
    board.shared.peek(SERVING)
}

/// The ticket that one load found served. Only a look at a lock makes one.
#[derive(Drop)]
pub struct Sighting {
    served: u64,
}

impl Model for Sighting {
    ghost use Rattle.bw_ticket.specs.Sights.{Sighted};

    ghost Value = { Sighted };

    ghost view = { λ s. record { served = s.served } };
}

impl Sighting {
    /// The ticket that was found served.
    pub fn served(&self) -> u64
        ensures { result ≡ self.now.served }
    {
        self.served
    }
}

/// The number of tickets served, by one load that is no step of the table. It is not counted: the
/// caller is no seat that waits.
pub(crate) fn tickets_served<M: Machine>(board: &Board<M>) -> Sighting
    requires { IsBoard board.now.shared.table_id }
{
    Sighting {
        served: board.shared.peek(SERVING),
    }
}

/// Spins once, and counts it. The seat has looked since it last slept.
pub(crate) fn spin(awake: &mut Awake)
    requires few { awake.old.steps < MOST_AWAKE }
    requires looked { 0 < awake.old.looks }
    ensures counted { awake.new.steps ≡ awake.old.steps + 1 }
    ensures looks { awake.new.looks ≡ awake.old.looks }
{
    awake.add();
    spin_loop();
}

/// Yields the processor once, and counts it. The seat has looked since it last slept.
pub(crate) fn give_way(awake: &mut Awake)
    requires few { awake.old.steps < MOST_AWAKE }
    requires looked { 0 < awake.old.looks }
    ensures counted { awake.new.steps ≡ awake.old.steps + 1 }
    ensures looks { awake.new.looks ≡ awake.old.looks }
{
    awake.add();
    yield_now();
}

/// Waits until the seat's own ticket is served, and then has the slot. It looks before all else.
/// Between two sleeps it does not look, spin and yield more than [`MOST_AWAKE`] times: the count
/// begins here.
#[inline(always)]
pub(crate) fn enter<M: Machine, R: Wait + Clock>(
    rt: &R,
    board: &Board<M>,
    seat: &mut Token<M>,
    patience: &mut Patience,
    ticket: u64,
)
    requires table { (seat.old.table_id ≡ board.now.shared.table_id) ×
        IsBoard board.now.shared.table_id }
    requires waits { IsSeat seat.old (Waiting ticket) [] }
    ensures table { seat.new.table_id ≡ seat.old.table_id }
    ensures later { Each (λ p. p.reached ≤ ticket) seat.old.me.0 }
    ensures inside { (y : _) × (seat.new.me ≡ (map (entered ticket y) seat.old.me.0, (0, y) ∷ [])) ×
        (length y.history.items ≡ ticket) × (ticket < vec_capacity y.history) }
{
    let mut awake = Awake::none();
    let is_served = look(board, seat, ticket, &mut awake);
    if is_served {
        return;
    }
    wait_turn(rt, board, seat, patience, ticket, &mut awake);
}

// The step woken: a load of `serving` after a wake. A view changes only at a step on a word.
struct Woken;

impl<M, C, R> Play<SlotValue<M, C, R>, View<M, C, R>> for Woken {
    ghost use Rattle.bw_ticket.specs.Plays.{wake_made};

    ghost then = { λ _. wake_made };
}

/// A word on which threads sleep. It counts the sleeps and the wakes on it: code over any such word
/// counts one only by making it.
pub(crate) trait WakeWord {
    // Whether the word exists, its index in the table, and the numbers of sleeps and of wakes.
    ghost exists: { Self → Type 0 };

    ghost index: { Self → ℕ };

    ghost sleeps: { Self → ℕ };

    ghost wakes: { Self → ℕ };

    /// The index of the word in the table.
    fn at(&self) -> usize
        ensures { result ≡ index self.now };

    /// Sleeps while the lower half of the word is the expected one, until a wake or for no reason.
    fn sleep<R: Wait>(&mut self, rt: &R, expected: u32)
        requires { exists self.old }
        ensures { sleeps self.new ≡ sleeps self.old + 1 };

    /// Rouses one that sleeps on the word, if one does.
    fn rouse(&mut self)
        requires { exists self.old }
        ensures made { wakes self.new ≡ wakes self.old + 1 }
        ensures same { index self.new ≡ index self.old };
}

/// A wake word of the lock's table.
#[derive(Drop)]
pub(crate) struct BoardWord<'a, M: Machine> {
    board: &'a Board<M>,
    word: usize,
    sleeps: Count,
    wakes: Count,
}

impl<'a, M: Machine> BoardWord<'a, M> {
    pub(crate) fn of(board: &'a Board<M>, word: usize) -> BoardWord<'a, M>
        ensures board { result.board.now ≡ board.now }
        ensures word { result.word ≡ word }
    {
        BoardWord {
            board,
            word,
            sleeps: Count::none(),
            wakes: Count::none(),
        }
    }
}

impl<'a, M: Machine> WakeWord for BoardWord<'a, M> {
    ghost exists = { λ w. w.word < w.board.now.shared.table_id.words };

    ghost index = { λ w. w.word };

    ghost sleeps = { λ w. w.sleeps.steps };

    ghost wakes = { λ w. w.wakes.steps };

    fn at(&self) -> usize {
        self.word
    }

    fn sleep<R: Wait>(&mut self, rt: &R, expected: u32) {
        self.board.shared.park(rt, self.word, expected);
        self.sleeps = self.sleeps.one_more();
    }

    fn rouse(&mut self) {
        self.board.shared.wake_one(self.word);
        self.wakes = self.wakes.one_more();
    }
}

/// A wake that was made on this wake word. Only [`ring`] makes one, and [`note_wake`] takes it.
#[derive(Drop)]
pub(crate) struct Rung {
    word: usize,
}

/// Sleeps once on a word while its lower half is the expected one, until a wake or for no reason.
///
/// The seat must have looked in vain since it stored its mark, and since it last slept. The word
/// must be the wake word of its ticket, and the expected value its mark. Afterwards the counts
/// begin anew. Premise: the
/// system compares the word and goes to sleep in one atomic step.
pub(crate) fn park_on<M: Machine, R: Wait, W: WakeWord>(
    rt: &R,
    word: &mut W,
    seat: &Token<M>,
    expected: u32,
    awake: &mut Awake,
)
    requires exists { W.exists word.old }
    requires asked { (t : ℕ) × IsSeat seat.now (Looked t) [] ×
        (W.index word.old ≡ wake_word t) × (expected ≡ t + 1) }
    requires seen { 0 < awake.old.looks }
    ensures made { W.sleeps word.new ≡ W.sleeps word.old + 1 }
    ensures awake { awake.new.steps ≡ 0 }
    ensures slept { awake.new.looks ≡ 0 }
{
    word.sleep(rt, expected);
    *awake = Awake::none();
}

/// Wakes once the seat that sleeps on a word, if one does.
///
/// The word must be the wake word of the ticket whose mark the caller's seat has taken. Premise:
/// the system wakes a seat that sleeps on the word.
pub(crate) fn ring<M: Machine, W: WakeWord>(word: &mut W, seat: &Token<M>) -> Rung
    requires exists { W.exists word.old }
    requires asked { (t : ℕ) × (n : ℕ) × IsSeat seat.now (Wakes t n) [] ×
        (W.index word.old ≡ wake_word t) }
    ensures made { W.wakes word.new ≡ W.wakes word.old + 1 }
    ensures at { result.word ≡ W.index word.old }
{
    word.rouse();
    Rung { word: word.at() }
}

/// The step woken, one load. It takes the wake that was made on the wake word of the ticket.
pub(crate) fn note_wake<M: Machine>(board: &Board<M>, seat: &mut Token<M>, ticket: u64, rung: Rung)
    requires table { (seat.old.table_id ≡ board.now.shared.table_id) ×
        IsBoard board.now.shared.table_id }
    requires wakes { (n : ℕ) × IsSeat seat.old (Wakes ticket n) [] }
    requires rung { rung.word ≡ wake_word ticket }
    ensures table { seat.new.table_id ≡ seat.old.table_id }
    ensures woke { seat.new.me ≡ (map (goes woke) seat.old.me.0, []) }
{
    let _ = rung.word;
    board.shared.load::<Woken>(seat, SERVING);
}
