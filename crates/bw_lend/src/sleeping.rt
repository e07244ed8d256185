//! The wait of the owner of a place: what it reads, finds, takes back and sleeps on.
//!
//! No other file of the crate names `.park(`. A sleep, a read and a look are no steps of the table,
//! so they are asked by contract. The wait is proved of any [`PlaceWord`], which alone says where
//! the owner is: each call asks for the stage of the model `Crowd` in which the model makes it.
ghost use Rattle.std.specs.Prelude.{◌≡◌, ℕ, ◌+◌, ◌%◌, ◌^◌, ◌<◌, ◌≤◌, Option, Some, None, MatchBool};
ghost use Rattle.bw_lend.specs.declared.task.Task.TheVariants.{ToWait};
ghost use Rattle.bw_lend.specs.Waits.{IsPosted, MaySleep, MayTakeBack};

use crate::looking::{Chance, Found};
use crate::steps::Lost;
use crate::table::{POSTED, Shared, code_of};
use crate::visits::Visit;
use bw_machine::{Count, Machine};
use bw_ticket::TicketLock;
use std::sync::Wait;

/// The word of a place, on which the owner of the place sleeps while its seat is lent.
///
/// It counts the sleeps. It has the state that was read since the last sleep, and the ticket that
/// was found served since that read. Both say what the owner does next: `Waits.antt:stage_of`.
pub(crate) trait PlaceWord {
    ghost exists: { Self → Type 0 };

    // Its place, the state, the ticket that was found, and the numbers of sleeps and of reads.
    ghost place: { Self → ℕ };

    ghost state: { Self → Option ℕ };

    ghost found: { Self → Option ℕ };

    ghost sleeps: { Self → ℕ };

    ghost reads: { Self → ℕ };

    /// Reads the state of the place, once after each sleep. It gives the right to look afterwards.
    fn read(&mut self) -> (u64, Chance)
        requires exists { exists self.old }
        requires anew { state self.old ≡ None }
        ensures exists { exists self.new }
        ensures state { state self.new ≡ Some result.0 }
        ensures found { found self.new ≡ None }
        ensures sleeps { sleeps self.new ≡ sleeps self.old }
        ensures read { reads self.new ≡ reads self.old + 1 }
        ensures chance { result.1.nth.steps ≡ reads self.new };

    /// Notes what the look after the last read found. Nobody had claimed the seat.
    fn note(&mut self, sight: Found)
        requires exists { exists self.old }
        requires posted { IsPosted (state self.old) × (found self.old ≡ None) }
        requires own { sight.nth.steps ≡ reads self.old }
        ensures exists { exists self.new }
        ensures state { state self.new ≡ state self.old }
        ensures found { found self.new ≡ Some sight.served }
        ensures sleeps { sleeps self.new ≡ sleeps self.old }
        ensures reads { reads self.new ≡ reads self.old };

    /// Forgets what it has read: the state was another one when the place was to be taken back.
    fn retry(&mut self, lost: Lost)
        requires exists { exists self.old }
        ensures exists { exists self.new }
        ensures anew { state self.new ≡ None }
        ensures sleeps { sleeps self.new ≡ sleeps self.old }
        ensures reads { reads self.new ≡ reads self.old };

    /// Sleeps while the lower half of the word is the expected one, until a wake or for no reason.
    fn sleep<R: Wait, V: Visit>(&mut self, rt: &R, visit: &V, expected: u32)
        requires exists { exists self.old }
        requires task { (V.state visit.now).task ≡ ToWait }
        requires seen { MaySleep (state self.old) (found self.old) (V.state visit.now).ticket }
        requires expected { (n : ℕ) × (state self.old ≡ Some n) × (expected ≡ n % 2 ^ 32) }
        ensures exists { exists self.new }
        ensures anew { state self.new ≡ None }
        ensures made { sleeps self.new ≡ sleeps self.old + 1 }
        ensures reads { reads self.new ≡ reads self.old };
}

/// The word of a place of the table.
#[derive(Drop)]
pub(crate) struct TableWord<'a, M: Machine> {
    table: &'a Shared<M>,
    place: usize,
    // the last read and look: nothing reads them at run time
    state: Option<u64>,
    found: Option<u64>,
    sleeps: Count,
    reads: Count,
}

impl<'a, M: Machine> TableWord<'a, M> {
    pub(crate) fn of(table: &'a Shared<M>, place: usize) -> TableWord<'a, M>
        ensures table { result.table.now ≡ table.now }
        ensures place { result.place ≡ place }
        ensures anew { result.state ≡ None }
    {
        TableWord {
            table,
            place,
            state: None,
            found: None,
            sleeps: Count::none(),
            reads: Count::none(),
        }
    }
}

impl<'a, M: Machine> PlaceWord for TableWord<'a, M> {
    ghost use Rattle.bw_lend.specs.Parts.{IsTable};

    ghost exists = { λ w. IsTable w.table.now.table_id × (w.place < 64) };

    ghost place = { λ w. w.place };

    ghost state = { λ w. w.state };

    ghost found = { λ w. w.found };

    ghost sleeps = { λ w. w.sleeps.steps };

    ghost reads = { λ w. w.reads.steps };

    fn read(&mut self) -> (u64, Chance) {
        let state = self.table.peek(self.place);
        self.state = Some(state);
        self.found = None;
        self.reads = self.reads.one_more();
        (state, Chance::of(&self.reads))
    }

    fn note(&mut self, sight: Found) {
        self.found = Some(sight.end());
    }

    fn retry(&mut self, lost: Lost) {
        let _ = lost;
        self.state = None;
    }

    fn sleep<R: Wait, V: Visit>(&mut self, rt: &R, visit: &V, expected: u32) {
        let _ = visit;
        self.table.park(rt, self.place, expected);
        self.state = None;
        self.sleeps = self.sleeps.one_more();
    }
}

// Looks which ticket is served. The word has it as found after the state that was read last.
fn look<M: Machine, W: PlaceWord>(word: &mut W, lock: &TicketLock<M>, chance: Chance) -> u64
    requires exists { W.exists word.old }
    requires posted { IsPosted (W.state word.old) × (W.found word.old ≡ None) }
    requires own { chance.nth.steps ≡ W.reads word.old }
    ensures exists { W.exists word.new }
    ensures state { W.state word.new ≡ W.state word.old }
    ensures found { W.found word.new ≡ Some result }
{
    let sight = chance.look(lock);
    let served = sight.served();
    word.note(sight);
    served
}

/// Whether the owner may take its place back: a helper is done with it, or nobody has claimed it
/// and its ticket is served. Otherwise the owner may sleep.
pub(crate) fn may_take_back<M: Machine, W: PlaceWord, V: Visit>(
    word: &mut W,
    lock: &TicketLock<M>,
    state: u64,
    chance: Chance,
    visit: &V,
) -> bool
    requires exists { W.exists word.old }
    requires read { (W.state word.old ≡ Some state) × (W.found word.old ≡ None) }
    requires own { chance.nth.steps ≡ W.reads word.old }
    ensures exists { W.exists word.new }
    ensures may { MatchBool result
        (MayTakeBack (W.state word.new) (W.found word.new) (V.state visit.now).ticket)
        (MaySleep (W.state word.new) (W.found word.new) (V.state visit.now).ticket) }
    ensures state { W.state word.new ≡ Some state }
{
    let code = code_of(state);
    if code != POSTED {
        chance.end();
        return code > POSTED;
    }
    let ticket = visit.ticket();
    look(word, lock, chance) == ticket
}

/// Sleeps once on the word of the place while its lower half is the expected one, until a wake or
/// for no reason.
///
/// The expected half is that of the state that was read last. If nobody had claimed the seat then,
/// its owner has looked since, and found another ticket served. Premise: the system compares the
/// word and goes to sleep in one atomic step.
pub(crate) fn sleep_lent<R: Wait, W: PlaceWord, V: Visit>(
    rt: &R,
    word: &mut W,
    visit: &V,
    expected: u32,
)
    requires exists { W.exists word.old }
    requires task { (V.state visit.now).task ≡ ToWait }
    requires seen { MaySleep (W.state word.old) (W.found word.old) (V.state visit.now).ticket }
    requires expected { (state : ℕ) × (W.state word.old ≡ Some state) ×
        (expected ≡ state % 2 ^ 32) }
    ensures exists { W.exists word.new }
    ensures anew { W.state word.new ≡ None }
    ensures made { W.sleeps word.new ≡ W.sleeps word.old + 1 }
{
    word.sleep(rt, visit, expected);
}
