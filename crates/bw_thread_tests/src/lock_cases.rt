//! The ticket lock round a small machine, called from threads. A case with a failed allocation is
//! run once more, so each passes with any one allocation failing.
ghost use Rattle.std.specs.Prelude.{◌≡◌, ◌≤◌, ℕ, All, length, None, IfOk, IfSome, IsSome};

use crate::counter::{Add, Counter, Total};
use bw_machine::{Entry, Machine};
use bw_ticket::{CallsSpent, CloseFault, Closed, News, Seat, TicketLock, close, open};
use std::alloc::{AllocError, Global};
use std::process::Abort;
use std::rt::Clock;
use std::sync::Wait;
use std::sync::atomic::{AtomicBool, Ordering};
use std::thread;
use std::thread::{Threads, join};

// Number of looks of a thread that waits for another one.
const TURNS: u32 = 1_000_000;

// A lock with its seats. Any refusal becomes `AllocError`; bad numbers are refused the second time,
// too.
fn opened(
    alloc: Global,
    seats: u32,
    calls: u32,
) -> Result<(TicketLock<Counter>, Vec<Seat<Counter>>), AllocError>
    ensures { IfOk result (λ t. All (λ s. s.lock_id ≡ t.0.lock_id) t.1.items ×
        All (λ s. s.pending ≡ None) t.1.items) }
{
    match open(alloc, Counter::new(), seats, calls) {
        Ok(made) => Ok(made),
        Err(_) => Err(AllocError),
    }
}

// The last seat of a list.
pub(crate) fn pop_seat<M: Machine>(
    rt: &impl Abort,
    lock: &TicketLock<M>,
    seats: &mut Vec<Seat<M>>,
) -> Seat<M>
    requires { All (λ s. s.lock_id ≡ lock.now.lock_id) seats.old.items ×
        All (λ s. s.pending ≡ None) seats.old.items }
    ensures seat { (result.lock_id ≡ lock.now.lock_id) × (result.pending ≡ None) }
    ensures rest { All (λ s. s.lock_id ≡ lock.now.lock_id) seats.new.items ×
        All (λ s. s.pending ≡ None) seats.new.items }
{
    let Some(seat) = seats.pop() else {
        panic!(rt; "no seat")
    };
    seat
}

// A lock with two seats.
fn pair(
    rt: &impl Abort,
    alloc: Global,
    calls: u32,
) -> Result<(TicketLock<Counter>, Seat<Counter>, Seat<Counter>), AllocError>
    ensures lock { IfOk result (λ t. (t.1.lock_id ≡ t.0.lock_id) × (t.2.lock_id ≡ t.0.lock_id)) }
    ensures idle { IfOk result (λ t. (t.1.pending ≡ None) × (t.2.pending ≡ None)) }
{
    let (lock, mut seats) = opened(alloc, 2, calls)?;
    let second = pop_seat(rt, &lock, &mut seats);
    let first = pop_seat(rt, &lock, &mut seats);
    Ok((lock, first, second))
}

// Closes the lock with all its seats, and asserts the total and the number of calls. Returns the
// calls.
fn assert_closed(
    rt: &impl Abort,
    lock: TicketLock<Counter>,
    seats: Vec<Seat<Counter>>,
    total: u64,
    calls: usize,
) -> Vec<Entry<Add, Total>>
    requires { All (λ s. s.lock_id ≡ lock.lock_id) seats.items ×
        All (λ s. s.pending ≡ None) seats.items }
    ensures { length result.items ≡ calls }
{
    let Ok(Closed { machine, history }) = close(lock, seats) else {
        panic!(rt; "not closed")
    };
    assert!(rt; machine.total() == total);
    assert!(rt; history.len() == calls);
    history
}

// Closes the lock with two seats, and asserts the total and the number of calls.
fn assert_pair_closed(
    rt: &impl Abort,
    alloc: Global,
    lock: TicketLock<Counter>,
    seats: (Seat<Counter>, Seat<Counter>),
    total: u64,
    calls: usize,
) -> Result<Vec<Entry<Add, Total>>, AllocError>
    requires lock { (seats.0.lock_id ≡ lock.lock_id) × (seats.1.lock_id ≡ lock.lock_id) }
    requires idle { (seats.0.pending ≡ None) × (seats.1.pending ≡ None) }
    ensures { IfOk result (λ v. length v.items ≡ calls) }
{
    let seats = vec![in alloc; seats.0, seats.1]?;
    Ok(assert_closed(rt, lock, seats, total, calls))
}

// Adds 1 as often as said.
fn add<R: Wait + Clock>(
    rt: &R,
    lock: &TicketLock<Counter>,
    mut seat: Seat<Counter>,
    calls: u32,
) -> Seat<Counter>
    requires { (seat.lock_id ≡ lock.now.lock_id) × (seat.pending ≡ None) }
    ensures { (result.lock_id ≡ lock.now.lock_id) × (result.pending ≡ None) }
{
    for _ in 0..calls {
        let _ = seat.call(rt, lock, Add(1));
    }
    seat
}

// Adds 1 as often as said in two threads, with a seat in each.
fn add_in_both<R: Threads + Wait + Clock + Sync>(
    rt: &R,
    lock: &TicketLock<Counter>,
    seats: (Seat<Counter>, Seat<Counter>),
    calls: (u32, u32),
) -> (Seat<Counter>, Seat<Counter>)
    requires lock { (seats.0.lock_id ≡ lock.now.lock_id) × (seats.1.lock_id ≡ lock.now.lock_id) }
    requires idle { (seats.0.pending ≡ None) × (seats.1.pending ≡ None) }
    ensures lock { (result.0.lock_id ≡ lock.now.lock_id) × (result.1.lock_id ≡ lock.now.lock_id) }
    ensures idle { (result.0.pending ≡ None) × (result.1.pending ≡ None) }
{
    let (first, second) = seats;
    join(
        rt,
        || add(rt, lock, first, calls.0),
        || add(rt, lock, second, calls.1),
    )
}

// One call by each seat, in the order of the list.
fn add_in_turn<R: Wait + Clock>(rt: &R, lock: &TicketLock<Counter>, seats: &mut Vec<Seat<Counter>>)
    requires { All (λ s. s.lock_id ≡ lock.now.lock_id) seats.old.items ×
        All (λ s. s.pending ≡ None) seats.old.items }
    ensures { All (λ s. s.lock_id ≡ lock.now.lock_id) seats.new.items ×
        All (λ s. s.pending ≡ None) seats.new.items }
{
    for i in 0..seats.len() {
        let seat = &mut seats[i];
        let _ = seat.call(rt, lock, Add(1));
    }
}

// Three calls, each later than the one before.
fn add_three<R: Wait + Clock + Abort>(
    rt: &R,
    lock: &TicketLock<Counter>,
    mut seat: Seat<Counter>,
) -> Seat<Counter>
    requires { (seat.lock_id ≡ lock.now.lock_id) × (seat.pending ≡ None) }
    ensures { (result.lock_id ≡ lock.now.lock_id) × (result.pending ≡ None) }
{
    let mut before = None;
    for _ in 0..3u32 {
        let Ok(answer) = seat.call(rt, lock, Add(1)) else {
            panic!(rt; "a call is missing")
        };
        assert!(rt; before < Some(answer.at));
        before = Some(answer.at);
    }
    seat
}

fn add_three_each<R: Threads + Wait + Clock + Abort + Sync>(
    rt: &R,
    lock: &TicketLock<Counter>,
    seats: Vec<Seat<Counter>>,
) -> Result<Vec<Seat<Counter>>, AllocError>
    requires { All (λ s. s.lock_id ≡ lock.now.lock_id) seats.items ×
        All (λ s. s.pending ≡ None) seats.items }
    ensures { IfOk result (λ v. All (λ s. s.lock_id ≡ lock.now.lock_id) v.items ×
        All (λ s. s.pending ≡ None) v.items) }
{
    thread::map_vec(rt, seats, &|seat| add_three(rt, lock, seat))
}

fn calls_of(history: &[Entry<Add, Total>], seat: u32) -> usize {
    history.iter().filter(|entry| entry.seat == seat).count()
}

// Keeps a seat until another thread could not close the lock.
fn keep(refused: &AtomicBool, seat: Seat<Counter>) -> Seat<Counter>
    ensures { result ≡ seat }
{
    for _ in 0..TURNS {
        if refused.load(Ordering::SeqCst) {
            return seat;
        }
        thread::yield_now();
    }
    seat
}

// Without one seat nothing is closed: the lock and the seats are handed back.
fn assert_seats_missing(
    rt: &impl Abort,
    lock: TicketLock<Counter>,
    seats: Vec<Seat<Counter>>,
) -> (TicketLock<Counter>, Vec<Seat<Counter>>)
    requires { All (λ s. s.lock_id ≡ lock.lock_id) seats.items ×
        All (λ s. s.pending ≡ None) seats.items }
    ensures { (result.0 ≡ lock) × (result.1.items ≡ seats.items) }
{
    let Err(fault) = close(lock, seats) else {
        panic!(rt; "closed with a seat missing")
    };
    assert!(rt; fault.number() == 63);
    assert!(rt; fault.name() == "SeatsMissing");
    let CloseFault::SeatsMissing(lock, seats) = fault;
    (lock, seats)
}

fn close_too_early(
    rt: &impl Abort,
    lock: TicketLock<Counter>,
    seats: Vec<Seat<Counter>>,
    refused: &AtomicBool,
) -> (TicketLock<Counter>, Vec<Seat<Counter>>)
    requires { All (λ s. s.lock_id ≡ lock.lock_id) seats.items ×
        All (λ s. s.pending ≡ None) seats.items }
    ensures { (result.0 ≡ lock) × (result.1.items ≡ seats.items) }
{
    let (lock, seats) = assert_seats_missing(rt, lock, seats);
    refused.store(true, Ordering::SeqCst);
    (lock, seats)
}

// Draws a ticket, says so, and makes the call. Gives the ticket and the place.
fn take_and_finish<R: Wait + Clock + Abort>(
    rt: &R,
    lock: &TicketLock<Counter>,
    mut seat: Seat<Counter>,
    drawn: &AtomicBool,
) -> (Seat<Counter>, u64, u64)
    requires { (seat.lock_id ≡ lock.now.lock_id) × (seat.pending ≡ None) }
    ensures { (result.0.lock_id ≡ lock.now.lock_id) × (result.0.pending ≡ None) }
{
    let Ok(ticket) = seat.take(lock, Add(7)) else {
        panic!(rt; "no ticket")
    };
    drawn.store(true, Ordering::SeqCst);
    let answer = seat.finish(rt, lock);
    (seat, ticket, answer.at)
}

// Makes the pending call, at once or after another seat has asked for its own. Gives the place.
fn finish_after<R: Wait + Clock>(
    rt: &R,
    lock: &TicketLock<Counter>,
    mut seat: Seat<Counter>,
    drawn: &AtomicBool,
    at_once: bool,
) -> (Seat<Counter>, u64)
    requires { (seat.lock_id ≡ lock.now.lock_id) × IsSome seat.pending }
    ensures { (result.0.lock_id ≡ lock.now.lock_id) × (result.0.pending ≡ None) }
{
    for _ in 0..TURNS {
        if at_once || drawn.load(Ordering::SeqCst) {
            break;
        }
        thread::yield_now();
    }
    let answer = seat.finish(rt, lock);
    (seat, answer.at)
}

// Numbers of seats and of calls, and the number and the name of the refusal.
static BAD_NUMBERS: [(u32, u32, u8, &str); 4] = [
    (0, 1, 60, "BadSeats"),
    (65, 1, 60, "BadSeats"),
    (1, 0, 61, "BadCalls"),
    (64, 65537, 61, "BadCalls"),
];

#[test]
fn refuses_bad_numbers(rt: HostRuntime) {
    for (seats, calls, number, name) in &BAD_NUMBERS {
        let Err(fault) = open(rt.alloc(), Counter::new(), *seats, *calls) else {
            panic!(rt; "opened with bad numbers")
        };
        assert!(rt; fault.number() == *number);
        assert!(rt; fault.name() == *name);
    }
    assert!(rt; CallsSpent.number() == 62);
    assert!(rt; CallsSpent.name() == "CallsSpent");
}

// A seat has made all its calls.
fn assert_spent<R: Wait + Clock + Abort>(
    rt: &R,
    lock: &TicketLock<Counter>,
    seat: &mut Seat<Counter>,
)
    requires { (seat.old.lock_id ≡ lock.now.lock_id) × (seat.old.pending ≡ None) }
    ensures { (seat.new.lock_id ≡ lock.now.lock_id) × (seat.new.pending ≡ None) }
{
    assert!(rt; matches!(seat.call(rt, lock, Add(3)), Err(CallsSpent)));
    assert!(rt; seat.calls_left() == 0);
}

// A seat adds a number, at this place of the history and with this sum after it.
fn assert_call<R: Wait + Clock + Abort>(
    rt: &R,
    lock: &TicketLock<Counter>,
    seat: &mut Seat<Counter>,
    add: u16,
    at: u64,
    total: u64,
)
    requires { (seat.old.lock_id ≡ lock.now.lock_id) × (seat.old.pending ≡ None) }
    ensures { (seat.new.lock_id ≡ lock.now.lock_id) × (seat.new.pending ≡ None) }
{
    let Ok(answer) = seat.call(rt, lock, Add(add)) else {
        panic!(rt; "a call is missing")
    };
    assert!(rt; answer.at == at);
    assert!(rt; answer.reply.0 == total);
}

// Two seats of two calls in one thread.
fn spend<R: Wait + Clock + Abort>(rt: &R, alloc: Global) -> Result<(), AllocError> {
    let (lock, mut first, mut second) = pair(rt, alloc, 2)?;
    assert!(rt; first.number() == 0);
    assert!(rt; second.number() == 1);
    assert_call(rt, &lock, &mut first, 3, 0, 3);
    assert_call(rt, &lock, &mut first, 3, 1, 6);
    assert_spent(rt, &lock, &mut first);
    assert_call(rt, &lock, &mut second, 5, 2, 11);
    assert!(rt; second.calls_left() == 1);
    let seats = vec![in alloc; first]?;
    let (lock, mut seats) = assert_seats_missing(rt, lock, seats);
    seats.push(second)?;
    let history = assert_closed(rt, lock, seats, 11, 3);
    assert!(rt; calls_of(&history, 0) == 2);
    assert!(rt; calls_of(&history, 1) == 1);
    Ok(())
}

// A thread keeps one of two seats while the other one is handed in.
fn keep_one_back<R: Threads + Wait + Clock + Abort + Sync>(
    rt: &R,
    alloc: Global,
) -> Result<(), AllocError> {
    let (lock, first, second) = pair(rt, alloc, 1)?;
    let first = add(rt, &lock, first, 1);
    let seats = vec![in alloc; first]?;
    let refused = AtomicBool::new(false);
    let (second, (lock, mut seats)) = join(
        rt,
        || keep(&refused, second),
        || close_too_early(rt, lock, seats, &refused),
    );
    seats.push(second)?;
    let _ = assert_closed(rt, lock, seats, 1, 1);
    Ok(())
}

// Two threads with 1000 calls each.
fn add_in_two<R: Threads + Wait + Clock + Abort + Sync>(
    rt: &R,
    alloc: Global,
) -> Result<(), AllocError> {
    let (lock, first, second) = pair(rt, alloc, 1000)?;
    let seats = add_in_both(rt, &lock, (first, second), (1000, 1000));
    let history = assert_pair_closed(rt, alloc, lock, seats, 2000, 2000)?;
    for k in 0..history.len() {
        assert!(rt; history[k].reply.0 == k as u64 + 1);
    }
    Ok(())
}

// 64 seats of one call, in turn.
fn add_in_sixty_four<R: Wait + Clock + Abort>(rt: &R, alloc: Global) -> Result<(), AllocError> {
    let (lock, mut seats) = opened(alloc, 64, 1)?;
    add_in_turn(rt, &lock, &mut seats);
    let history = assert_closed(rt, lock, seats, 64, 64);
    for k in 0..history.len() {
        assert!(rt; history[k].seat as usize == k);
    }
    Ok(())
}

// Four threads with three calls each.
fn add_in_four<R: Threads + Wait + Clock + Abort + Sync>(
    rt: &R,
    alloc: Global,
) -> Result<(), AllocError> {
    let (lock, seats) = opened(alloc, 4, 3)?;
    let seats = add_three_each(rt, &lock, seats)?;
    let history = assert_closed(rt, lock, seats, 12, 12);
    for seat in 0..4u32 {
        assert!(rt; calls_of(&history, seat) == 3);
    }
    Ok(())
}

// Both seats see so many calls of all seats.
fn assert_fronts(
    rt: &impl Abort,
    lock: &TicketLock<Counter>,
    first: &mut Seat<Counter>,
    second: &mut Seat<Counter>,
    front: u64,
)
    requires lock { (first.old.lock_id ≡ lock.now.lock_id) ×
        (second.old.lock_id ≡ lock.now.lock_id) }
    requires idle { (first.old.pending ≡ None) × (second.old.pending ≡ None) }
    ensures lock { (first.new.lock_id ≡ lock.now.lock_id) ×
        (second.new.lock_id ≡ lock.now.lock_id) }
    ensures idle { (first.new.pending ≡ None) × (second.new.pending ≡ None) }
{
    assert!(rt; first.front(lock) == front);
    assert!(rt; second.front(lock) == front);
}

// `front` counts the calls of all seats.
fn see_fronts<R: Threads + Wait + Clock + Abort + Sync>(
    rt: &R,
    alloc: Global,
) -> Result<(), AllocError> {
    let (lock, mut first, mut second) = pair(rt, alloc, 3)?;
    assert_fronts(rt, &lock, &mut first, &mut second, 0);
    let (mut first, mut second) = add_in_both(rt, &lock, (first, second), (3, 1));
    assert_fronts(rt, &lock, &mut first, &mut second, 4);
    assert_spent(rt, &lock, &mut first);
    assert_fronts(rt, &lock, &mut first, &mut second, 4);
    let _ = assert_pair_closed(rt, alloc, lock, (first, second), 4, 4)?;
    Ok(())
}

// Draws the first ticket of a lock.
fn take_first(rt: &impl Abort, lock: &TicketLock<Counter>, seat: &mut Seat<Counter>)
    requires { (seat.old.lock_id ≡ lock.now.lock_id) × (seat.old.pending ≡ None) }
    ensures { (seat.new.lock_id ≡ lock.now.lock_id) × IsSome seat.new.pending }
{
    let Ok(ticket) = seat.take(lock, Add(5)) else {
        panic!(rt; "no ticket")
    };
    assert!(rt; ticket == 0);
    assert!(rt; matches!(seat.pending(), Some(0)));
    assert!(rt; seat.front(lock) == 0);
}

// Seat 1 draws the first ticket and seat 0 the second. The order of the tickets decides, not that
// of
// `finish`.
fn hold_tickets<R: Threads + Wait + Clock + Abort + Sync>(
    rt: &R,
    alloc: Global,
    at_once: bool,
) -> Result<(), AllocError> {
    let (lock, first, mut second) = pair(rt, alloc, 1)?;
    take_first(rt, &lock, &mut second);
    let drawn = AtomicBool::new(false);
    let ((first, ticket, place), (second, earlier)) = join(
        rt,
        || take_and_finish(rt, &lock, first, &drawn),
        || finish_after(rt, &lock, second, &drawn, at_once),
    );
    assert!(rt; ticket == 1);
    assert!(rt; place == 1);
    assert!(rt; earlier == 0);
    let history = assert_pair_closed(rt, alloc, lock, (first, second), 12, 2)?;
    assert!(rt; history[0].seat == 1);
    assert!(rt; history[1].seat == 0);
    Ok(())
}

// One call of the seat, and the news of it.
fn call_and_tell<R: Wait + Clock>(
    rt: &R,
    lock: &TicketLock<Counter>,
    mut seat: Seat<Counter>,
) -> (Seat<Counter>, News<Counter>)
    requires { (seat.lock_id ≡ lock.now.lock_id) × (seat.pending ≡ None) }
    ensures seat { (result.0.lock_id ≡ lock.now.lock_id) × (result.0.pending ≡ None) }
    ensures news { result.1.lock_id ≡ lock.now.lock_id }
{
    let _ = seat.call(rt, lock, Add(1));
    let news = seat.tell(lock);
    (seat, news)
}

// The ticket of a call after the news: none of the tickets that were told is as late.
fn call_after<R: Wait + Clock>(
    rt: &R,
    lock: &TicketLock<Counter>,
    seat: &mut Seat<Counter>,
    news: News<Counter>,
) -> Option<u64>
    requires lock { (seat.old.lock_id ≡ lock.now.lock_id) × (news.lock_id ≡ lock.now.lock_id) }
    requires idle { seat.old.pending ≡ None }
    ensures later { IfSome result (λ at. news.served ≤ at) }
    ensures seat { (seat.new.lock_id ≡ lock.now.lock_id) × (seat.new.pending ≡ None) }
{
    seat.hear(lock, news);
    match seat.call(rt, lock, Add(1)) {
        Ok(answer) => Some(answer.at),
        Err(_) => None,
    }
}

// One seat calls in a thread of its own, and the other one hears of it.
fn hear_news<R: Threads + Wait + Clock + Abort + Sync>(
    rt: &R,
    alloc: Global,
) -> Result<(), AllocError> {
    let (lock, first, mut second) = pair(rt, alloc, 1)?;
    let ((first, news), ()) = join(rt, || call_and_tell(rt, &lock, first), || ());
    assert!(rt; call_after(rt, &lock, &mut second, news) == Some(1));
    let _ = assert_pair_closed(rt, alloc, lock, (first, second), 2, 2)?;
    Ok(())
}

#[test]
fn one_thread(rt: HostRuntime) {
    let alloc = rt.alloc();
    assert!(rt; spend(&rt, alloc).is_ok() || spend(&rt, alloc).is_ok());
    assert!(rt; add_in_sixty_four(&rt, alloc).is_ok() || add_in_sixty_four(&rt, alloc).is_ok());
}

#[test]
fn several_threads(rt: HostRuntime) {
    let alloc = rt.alloc();
    assert!(rt; keep_one_back(&rt, alloc).is_ok() || keep_one_back(&rt, alloc).is_ok());
    assert!(rt; add_in_two(&rt, alloc).is_ok() || add_in_two(&rt, alloc).is_ok());
    assert!(rt; add_in_four(&rt, alloc).is_ok() || add_in_four(&rt, alloc).is_ok());
}

#[test]
fn fronts_and_tickets(rt: HostRuntime) {
    let alloc = rt.alloc();
    assert!(rt; see_fronts(&rt, alloc).is_ok() || see_fronts(&rt, alloc).is_ok());
    assert!(rt; hear_news(&rt, alloc).is_ok() || hear_news(&rt, alloc).is_ok());
    assert!(rt; hold_tickets(&rt, alloc, true).is_ok() || hold_tickets(&rt, alloc, true).is_ok());
    assert!(rt; hold_tickets(&rt, alloc, false).is_ok() || hold_tickets(&rt, alloc, false).is_ok());
}
