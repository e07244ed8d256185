//! Workers in threads of their own under gates, and the slice pool behind a lock. A case with a
//! failed allocation or thread spawn is run once more, so each passes with any one failing.
ghost use Rattle.std.specs.Prelude.{◌≡◌, ℕ, ◌==◌, not, true, All, None, IfOk};
ghost use Rattle.bw_model.specs.Plan.{IsPlan};

use crate::lock_cases::pop_seat;
use bw_machine::Entry;
use bw_model::{HostShape, Instance, Row};
use bw_plan::{Plan, plan};
use bw_pool::{PoolCall, PoolReply, Short, SlicePool};
use bw_ticket::{CallsSpent, Closed, Seat, TicketLock, close, open};
use bw_workers::{Gate, NoGate, ServeFault, Served, serve};
use crossbeam_utils::atomic::AtomicCell;
use std::alloc::{AllocError, Global};
use std::process::Abort;
use std::rt::Clock;
use std::sync::Wait;
use std::test::Fail;
use std::thread::{Threads, join};

// The greatest number of looks that a gate takes for another worker's coming to some point.
const TURNS: u32 = 100_000_000;

// The greatest number of periods until draws of two workers alternate. It is mostly the first.
const MOST_PERIODS: u32 = 1000;

// The parent, weight, limit and demand of a group.
type Group = (Option<u32>, u64, Option<u64>, u64);

const ROOT: Group = (None, 100, None, 0);

// A static table costs its readers no proof; each entry of a local one is a step of it.
static POD_AND_JOB: [Group; 5] = [
    ROOT,
    (Some(0), 100, Some(10), 0),
    (Some(1), 100, None, 20),
    (Some(1), 300, None, 20),
    (Some(0), 100, None, 20),
];

static TWO_GROUPS: [Group; 3] = [ROOT, (Some(0), 100, None, 20), (Some(0), 200, None, 20)];

static THOUSANDS: [Group; 3] = [ROOT, (Some(0), 100, None, 1000), (Some(0), 100, None, 1000)];

static LEAF_OF_THREE: [Group; 2] = [ROOT, (Some(0), 100, None, 3)];

// A host with 20 slices on each processor, these groups, and their plan.
fn planned(
    rt: &impl Abort,
    alloc: Global,
    processors: u64,
    groups: &[Group],
) -> Result<(Instance, Plan), AllocError>
    ensures { IfOk result (λ t. IsPlan t.0 t.1.amounts.items) }
{
    planned_for(rt, alloc, processors, 100_000, 5000, groups)
}

// A host with this period and these slices, in microseconds, these groups, and their plan.
fn planned_for(
    rt: &impl Abort,
    alloc: Global,
    processors: u64,
    period_us: u64,
    slice_us: u64,
    groups: &[Group],
) -> Result<(Instance, Plan), AllocError>
    ensures { IfOk result (λ t. IsPlan t.0 t.1.amounts.items) }
{
    let Ok(shape) = HostShape::new(processors, period_us, slice_us) else {
        panic!(rt; "no host")
    };
    let mut rows = Vec::new(alloc);
    for (parent, weight, limit, demand) in groups {
        rows.push(Row {
            parent: *parent,
            weight: *weight,
            limit: *limit,
            demand: *demand,
        })?;
    }
    let Ok(instance) = Instance::new(alloc, rows, shape) else {
        return Err(AllocError);
    };
    let plan = plan(alloc, &instance)?;
    Ok((instance, plan))
}

// On four processors pod, which has 10 slices, over x and y, and job.
pub(crate) fn pod_and_job(rt: &impl Abort, alloc: Global) -> Result<(Instance, Plan), AllocError>
    ensures { IfOk result (λ t. IsPlan t.0 t.1.amounts.items) }
{
    planned(rt, alloc, 4, &POD_AND_JOB)
}

// Serves the plan where memory and threads are there, and asserts what is drawn.
fn served<G: Gate, R: Threads + Wait + Clock + Abort + Sync>(
    rt: &R,
    alloc: Global,
    instance: &Instance,
    plan: &Plan,
    gate: &G,
    drawn: &[u64],
) -> Result<Served, AllocError>
    requires { IsPlan instance.now plan.now.amounts.items }
{
    match serve(rt, alloc, instance, plan, gate) {
        Ok(served) => {
            assert!(rt; served.drawn.as_slice() == drawn);
            Ok(served)
        }
        // A refused thread is no wrong answer.
        Err(ServeFault::OutOfMemory | ServeFault::NotStarted) => Err(AllocError),
    }
}

// Uses all leaves but one.
#[derive(Drop)]
pub(crate) struct Without(pub(crate) u32);

impl Gate for Without {
    ghost used = { λ gate leaf. not (leaf == gate.0) };

    fn before(&self, worker: u32, nth: u64) {
        let _ = (worker, nth);
    }

    fn after(&self, worker: u32, nth: u64) {
        let _ = (worker, nth);
    }

    fn uses(&self, leaf: u32) -> bool {
        leaf != self.0
    }
}

// Looks until another worker has come to some point, and says whether it did.
fn came(point: &AtomicCell<bool>) -> bool {
    for _ in 0..TURNS {
        if point.load() {
            return true;
        }
    }
    false
}

// Holds the first draw of one worker until a draw of another is answered, and that other worker
// until the held one's first draw is answered too.
#[derive(Drop)]
pub(crate) struct Holds {
    held: u32,
    other: u32,
    nth: u64,
    answered: AtomicCell<bool>,
    went_on: AtomicCell<bool>,
    // the number of times that one waited and the other came
    pub(crate) met: AtomicCell<u32>,
}

pub(crate) fn held_first(held: u32, other: u32, nth: u64) -> Holds {
    Holds {
        held,
        other,
        nth,
        answered: AtomicCell::new(false),
        went_on: AtomicCell::new(false),
        met: AtomicCell::new(0),
    }
}

impl Gate for Holds {
    ghost used = { λ gate leaf. true };

    fn before(&self, worker: u32, nth: u64) {
        if worker != self.held {
            return;
        }
        if nth == 0 && came(&self.answered) {
            self.met.fetch_add(1);
        }
        // its second draw, so that its first one is answered
        if nth == 1 {
            self.went_on.store(true);
        }
    }

    fn after(&self, worker: u32, nth: u64) {
        if worker == self.other && nth == self.nth {
            self.answered.store(true);
            if came(&self.went_on) {
                self.met.fetch_add(1);
            }
        }
    }

    fn uses(&self, leaf: u32) -> bool {
        let _ = leaf;
        true
    }
}

// Holds each worker's first draw until all four have begun theirs.
#[derive(Drop)]
pub(crate) struct Meet {
    begun: AtomicCell<u32>,
    pub(crate) met: AtomicCell<u32>,
}

pub(crate) fn meeting() -> Meet {
    Meet {
        begun: AtomicCell::new(0),
        met: AtomicCell::new(0),
    }
}

impl Gate for Meet {
    ghost used = { λ gate leaf. true };

    fn before(&self, worker: u32, nth: u64) {
        let _ = worker;
        if nth == 0 {
            self.begun.fetch_add(1);
            for _ in 0..TURNS {
                if self.begun.load() >= 4 {
                    self.met.fetch_add(1);
                    return;
                }
            }
        }
    }

    fn after(&self, worker: u32, nth: u64) {
        let _ = (worker, nth);
    }

    fn uses(&self, leaf: u32) -> bool {
        let _ = leaf;
        true
    }
}

// The seat of the first entry.
fn first_caller(history: &[Entry<PoolCall, PoolReply>]) -> Option<u32> {
    history.first().map(|entry| entry.seat)
}

fn serve_one_waits<R: Threads + Wait + Clock + Abort + Sync>(
    rt: &R,
    alloc: Global,
    held: u32,
    other: u32,
) -> Result<(), AllocError> {
    let (instance, plan) = planned(rt, alloc, 2, &TWO_GROUPS)?;
    let gate = held_first(held, other, 0);
    let served = served(rt, alloc, &instance, &plan, &gate, &[40, 20, 20])?;
    assert!(rt; gate.met.load() == 2);
    assert!(rt; first_caller(&served.history) == Some(other));
    Ok(())
}

// The worker that is held, and the one that it waits for.
static WAITS: [(u32, u32); 2] = [(0, 1), (1, 0)];

#[test]
fn one_waits(rt: HostRuntime) -> Result<(), Fail> {
    let alloc = rt.alloc();
    for (held, other) in &WAITS {
        if serve_one_waits(&rt, alloc, *held, *other).is_err() {
            serve_one_waits(&rt, alloc, *held, *other)?;
        }
    }
    Ok(())
}

// Counts the calls round the draws of worker 0, and sees whether each comes in its turn. Uses all
// rows but one.
#[derive(Drop)]
struct InTurn {
    unused: u32,
    calls: AtomicCell<u64>,
    astray: AtomicCell<bool>,
}

fn in_turn(unused: u32) -> InTurn {
    InTurn {
        unused,
        calls: AtomicCell::new(0),
        astray: AtomicCell::new(false),
    }
}

impl InTurn {
    // A call before the draw is the first of two, and one after it the second.
    fn called(&self, worker: u32, nth: u64, second: u64) {
        let calls = self.calls.fetch_add(1);
        if worker != 0 || calls / 2 != nth || calls % 2 != second {
            self.astray.store(true);
        }
    }
}

impl Gate for InTurn {
    ghost used = { λ gate leaf. not (leaf == gate.unused) };

    fn before(&self, worker: u32, nth: u64) {
        self.called(worker, nth, 0);
    }

    fn after(&self, worker: u32, nth: u64) {
        self.called(worker, nth, 1);
    }

    fn uses(&self, leaf: u32) -> bool {
        leaf != self.unused
    }
}

// The draws of one worker where leaf 1 has 7 slices and leaf 2 has 13: in row order, round and
// round. The eighth draw of leaf 1 is short, and the last one of it.
static ROUND_AND_ROUND: [u32; 21] = [
    1, 2, 1, 2, 1, 2, 1, 2, 1, 2, 1, 2, 1, 2, 1, 2, 2, 2, 2, 2, 2,
];

fn serve_in_row_order<R: Threads + Wait + Clock + Abort + Sync>(
    rt: &R,
    alloc: Global,
) -> Result<(), AllocError> {
    let (instance, plan) = planned(rt, alloc, 1, &TWO_GROUPS)?;
    // the root is no leaf, so each leaf is used
    let gate = in_turn(0);
    let served = served(rt, alloc, &instance, &plan, &gate, &[20, 7, 13])?;
    assert!(rt; served.history.len() == 21);
    for (entry, leaf) in served.history.iter().zip(&ROUND_AND_ROUND) {
        assert!(rt; matches!(entry.call, PoolCall::Draw { leaf: of, ask: 1 } if of == *leaf));
    }
    // one call of the gate before each draw, and one after it
    assert!(rt; gate.calls.load() == 42 && !gate.astray.load());
    Ok(())
}

#[test]
fn row_order(rt: HostRuntime) -> Result<(), Fail> {
    let alloc = rt.alloc();
    if serve_in_row_order(&rt, alloc).is_err() {
        serve_in_row_order(&rt, alloc)?;
    }
    Ok(())
}

// Leaf 2 does not use its slices: its first one goes back, and it is not asked again.
fn serve_with_a_give_back<R: Threads + Wait + Clock + Abort + Sync>(
    rt: &R,
    alloc: Global,
) -> Result<(), AllocError> {
    let (instance, plan) = planned(rt, alloc, 1, &TWO_GROUPS)?;
    let gate = in_turn(2);
    let served = served(rt, alloc, &instance, &plan, &gate, &[7, 7, 0])?;
    // of leaf 1 seven draws that are kept and one that is short; of leaf 2 a draw and a give-back
    assert!(rt; served.history.len() == 10);
    assert!(rt; matches!(served.history[2].call, PoolCall::GiveBack { leaf: 2, n: 1 }));
    // the gate is called round each of the nine draws, and not round the give-back
    assert!(rt; gate.calls.load() == 18 && !gate.astray.load());
    Ok(())
}

#[test]
fn give_backs_are_not_told(rt: HostRuntime) -> Result<(), Fail> {
    let alloc = rt.alloc();
    if serve_with_a_give_back(&rt, alloc).is_err() {
        serve_with_a_give_back(&rt, alloc)?;
    }
    Ok(())
}

// The number of entries that stand behind one of another seat.
fn changes_of_seat(history: &[Entry<PoolCall, PoolReply>]) -> u32 {
    let Some(mut last) = first_caller(history) else {
        return 0;
    };
    let mut changes = 0u32;
    for entry in history {
        if entry.seat != last {
            changes = changes.saturating_add(1);
        }
        last = entry.seat;
    }
    changes
}

// Some period in which draws of different workers alternate, under the gate of the program, which
// holds none. One after another, two workers change once.
fn serve_side_by_side<R: Threads + Wait + Clock + Abort + Sync>(
    rt: &R,
    alloc: Global,
) -> Result<(), AllocError> {
    let (instance, plan) = planned_for(rt, alloc, 2, 1_000_000, 1000, &THOUSANDS)?;
    for _period in 0..MOST_PERIODS {
        let served = served(rt, alloc, &instance, &plan, &NoGate, &[2000, 1000, 1000])?;
        if changes_of_seat(&served.history) > 1 {
            return Ok(());
        }
    }
    panic!(rt; "the workers never met")
}

#[test]
fn draws_alternate(rt: HostRuntime) -> Result<(), Fail> {
    let alloc = rt.alloc();
    if serve_side_by_side(&rt, alloc).is_err() {
        serve_side_by_side(&rt, alloc)?;
    }
    Ok(())
}

// A seat asks 2 of the leaf, and gives the reply with the seat.
fn ask_two<R: Wait + Clock + Abort>(
    rt: &R,
    lock: &TicketLock<SlicePool>,
    mut seat: Seat<SlicePool>,
) -> (Seat<SlicePool>, PoolReply)
    requires { (seat.lock_id ≡ lock.now.lock_id) × (seat.pending ≡ None) }
    ensures { (result.0.lock_id ≡ lock.now.lock_id) × (result.0.pending ≡ None) }
{
    let Ok(answer) = seat.call(rt, lock, PoolCall::Draw { leaf: 1, ask: 2 }) else {
        panic!(rt; "no call left")
    };
    (seat, answer.reply)
}

// A pool of the plan, one amount for each row.
pub(crate) fn pool_of<A: Abort>(
    rt: &A,
    alloc: Global,
    instance: &Instance,
    plan: &Plan,
) -> Result<SlicePool, AllocError> {
    let amounts = plan.amounts.as_slice();
    assert!(rt; amounts.len() == instance.rows().len());
    SlicePool::new(alloc, instance, amounts)
}

// The replies to the first and to the second call for 2 of a leaf that has 3.
static WHOLE: PoolReply = PoolReply::Granted {
    got: 2,
    short: None,
};

static REST: PoolReply = PoolReply::Granted {
    got: 1,
    short: Some(Short::Group(1)),
};

// One of two replies to a call for 2 of a leaf that had 3 is all of it, and the other the rest.
fn assert_two_and_one(rt: &impl Abort, one: PoolReply, other: PoolReply) {
    assert!(rt; one == WHOLE && other == REST || one == REST && other == WHOLE);
}

// A seat makes its last call, which has this reply, and the one after it is refused.
fn assert_last<R: Wait + Clock + Abort>(
    rt: &R,
    lock: &TicketLock<SlicePool>,
    mut seat: Seat<SlicePool>,
    call: PoolCall,
    reply: PoolReply,
) -> Seat<SlicePool>
    requires { (seat.lock_id ≡ lock.now.lock_id) × (seat.pending ≡ None) }
    ensures { (result.lock_id ≡ lock.now.lock_id) × (result.pending ≡ None) }
{
    assert!(rt; matches!(seat.call(rt, lock, call), Ok(answer) if answer.reply == reply));
    assert!(rt; matches!(seat.call(rt, lock, call), Err(CallsSpent)));
    seat
}

// Closes the lock, and asserts the slices drawn of each group and the number of calls.
fn assert_closed<A: Abort>(
    rt: &A,
    lock: TicketLock<SlicePool>,
    seats: Vec<Seat<SlicePool>>,
    drawn: &[u64],
    calls: usize,
)
    requires { All (λ s. s.lock_id ≡ lock.lock_id) seats.items ×
        All (λ s. s.pending ≡ None) seats.items }
{
    let Ok(Closed { machine, history }) = close(lock, seats) else {
        panic!(rt; "not closed")
    };
    assert!(rt; machine.all_drawn() == drawn);
    assert!(rt; history.len() == calls);
}

// A lock round the pool of a leaf with 3 slices, with seats of two calls.
fn leaf_of_three<A: Abort>(
    rt: &A,
    alloc: Global,
    processors: u64,
    seats: u32,
) -> Result<(TicketLock<SlicePool>, Vec<Seat<SlicePool>>), AllocError>
    ensures { IfOk result (λ t. All (λ s. s.lock_id ≡ t.0.lock_id) t.1.items ×
        All (λ s. s.pending ≡ None) t.1.items) }
{
    let (instance, plan) = planned(rt, alloc, processors, &LEAF_OF_THREE)?;
    let pool = pool_of(rt, alloc, &instance, &plan)?;
    match open(alloc, pool, seats, 2) {
        Ok(made) => Ok(made),
        Err(_) => Err(AllocError),
    }
}

// Two threads ask 2 of a leaf that has 3: one gets 2 and the other 1, in one order or the other.
fn draw_in_two<R: Threads + Wait + Clock + Abort + Sync>(
    rt: &R,
    alloc: Global,
) -> Result<(), AllocError> {
    let (lock, mut seats) = leaf_of_three(rt, alloc, 2, 2)?;
    let second = pop_seat(rt, &lock, &mut seats);
    let first = pop_seat(rt, &lock, &mut seats);
    let ((first, one), (second, other)) = join(
        rt,
        || ask_two(rt, &lock, first),
        || ask_two(rt, &lock, second),
    );
    assert_two_and_one(rt, one, other);
    let look = PoolCall::Look { group: 1 };
    let drawn = PoolReply::Drawn { n: 3, ceiling: 3 };
    let first = assert_last(rt, &lock, first, look, drawn);
    let seats = vec![in alloc; first, second]?;
    assert_closed(rt, lock, seats, &[3, 3], 3);
    Ok(())
}

// A seat draws 2 of a leaf that has 3 and gives back 3, which it does not hold. Its third call is
// refused.
fn give_back_too_many<R: Wait + Clock + Abort>(rt: &R, alloc: Global) -> Result<(), AllocError> {
    let (lock, mut seats) = leaf_of_three(rt, alloc, 1, 1)?;
    let seat = pop_seat(rt, &lock, &mut seats);
    let (seat, reply) = ask_two(rt, &lock, seat);
    assert!(rt; reply == WHOLE);
    let back = PoolCall::GiveBack { leaf: 1, n: 3 };
    let seat = assert_last(rt, &lock, seat, back, PoolReply::NotHeld { held: 2 });
    let seats = vec![in alloc; seat]?;
    assert_closed(rt, lock, seats, &[2, 2], 2);
    Ok(())
}

#[test]
fn pool_behind_a_lock(rt: HostRuntime) -> Result<(), Fail> {
    let alloc = rt.alloc();
    if draw_in_two(&rt, alloc).is_err() {
        draw_in_two(&rt, alloc)?;
    }
    if give_back_too_many(&rt, alloc).is_err() {
        give_back_too_many(&rt, alloc)?;
    }
    Ok(())
}
