//! Four seats of one pool at once, each with its own kind of calls.
//! A case with a failed allocation is run once more, so it passes with any one allocation failing.
ghost use Rattle.std.specs.Prelude.{◌≡◌, ℕ, All, None, IfOk};

use crate::workers_cases::{pod_and_job, pool_of};
use bw_machine::Entry;
use bw_pool::{PoolCall, PoolReply, SlicePool};
use bw_ticket::{Closed, Seat, TicketLock, close, open};
use crossbeam_utils::atomic::AtomicCell;
use std::alloc::{AllocError, Global};
use std::process::Abort;
use std::rt::Clock;
use std::sync::Wait;
use std::test::Fail;
use std::thread;
use std::thread::{Threads, map_vec};

// The greatest number of looks for an answered draw, of the seat that lowers.
const TURNS: u32 = 100_000_000;

// The rows of pod and of the leaf that draws.
const POD: u32 = 1;

const Y: u32 = 3;

// Draws one slice and gives it back, a hundred times.
fn draw_and_give_back<R: Wait + Clock>(
    rt: &R,
    lock: &TicketLock<SlicePool>,
    seat: &mut Seat<SlicePool>,
    answered: &AtomicCell<bool>,
)
    requires { (seat.old.lock_id ≡ lock.now.lock_id) × (seat.old.pending ≡ None) }
    ensures { (seat.new.lock_id ≡ lock.now.lock_id) × (seat.new.pending ≡ None) }
{
    for _ in 0..100u32 {
        let _ = seat.call(rt, lock, PoolCall::Draw { leaf: Y, ask: 1 });
        answered.store(true);
        let _ = seat.call(rt, lock, PoolCall::GiveBack { leaf: Y, n: 1 });
    }
}

// Lowers pod once another seat's first draw is answered.
fn lower<R: Wait + Clock>(
    rt: &R,
    lock: &TicketLock<SlicePool>,
    seat: &mut Seat<SlicePool>,
    answered: &AtomicCell<bool>,
)
    requires { (seat.old.lock_id ≡ lock.now.lock_id) × (seat.old.pending ≡ None) }
    ensures { (seat.new.lock_id ≡ lock.now.lock_id) × (seat.new.pending ≡ None) }
{
    for _ in 0..TURNS {
        if answered.load() {
            break;
        }
    }
    let _ = seat.call(rt, lock, PoolCall::Lower { group: POD, to: 4 });
}

fn look<R: Wait + Clock>(rt: &R, lock: &TicketLock<SlicePool>, seat: &mut Seat<SlicePool>)
    requires { (seat.old.lock_id ≡ lock.now.lock_id) × (seat.old.pending ≡ None) }
    ensures { (seat.new.lock_id ≡ lock.now.lock_id) × (seat.new.pending ≡ None) }
{
    for _ in 0..100u32 {
        let _ = seat.call(rt, lock, PoolCall::Look { group: POD });
    }
}

// Plays the part of a seat, by its number.
fn play<R: Wait + Clock>(
    rt: &R,
    lock: &TicketLock<SlicePool>,
    mut seat: Seat<SlicePool>,
    answered: &AtomicCell<bool>,
    other: &AtomicCell<bool>,
) -> Seat<SlicePool>
    requires { (seat.lock_id ≡ lock.now.lock_id) × (seat.pending ≡ None) }
    ensures { (result.lock_id ≡ lock.now.lock_id) × (result.pending ≡ None) }
{
    match seat.number() {
        0 => draw_and_give_back(rt, lock, &mut seat, answered),
        1 => draw_and_give_back(rt, lock, &mut seat, other),
        2 => lower(rt, lock, &mut seat, answered),
        _ => look(rt, lock, &mut seat),
    }
    seat
}

fn play_all<R: Threads + Wait + Clock + Sync>(
    rt: &R,
    lock: &TicketLock<SlicePool>,
    seats: Vec<Seat<SlicePool>>,
    answered: &AtomicCell<bool>,
) -> Result<Vec<Seat<SlicePool>>, AllocError>
    requires { All (λ s. s.lock_id ≡ lock.now.lock_id) seats.items ×
        All (λ s. s.pending ≡ None) seats.items }
    ensures { IfOk result (λ v. All (λ s. s.lock_id ≡ lock.now.lock_id) v.items ×
        All (λ s. s.pending ≡ None) v.items) }
{
    let other = AtomicCell::new(false);
    map_vec(
        rt,
        seats,
        &|seat: Seat<SlicePool>| -> Seat<SlicePool>
            requires { (seat.lock_id ≡ lock.now.lock_id) × (seat.pending ≡ None) }
            ensures { (result.lock_id ≡ lock.entry.now.lock_id) × (result.pending ≡ None) }
        { play(rt, lock, seat, answered, &other) },
    )
}

// Each entry is one of the storm, with the ceiling of pod before and after it is lowered.
fn assert_entries(rt: &impl Abort, history: &[Entry<PoolCall, PoolReply>]) {
    let mut ceiling = 10u64;
    for (at, entry) in history.iter().enumerate() {
        match entry.call {
            PoolCall::Draw { .. } => assert!(rt;
                matches!(
                    entry.reply,
                    PoolReply::Granted {
                        got: 1,
                        short: None
                    }
                ),
                "draw at {at}"
            ),
            PoolCall::GiveBack { .. } => assert!(rt;
                entry.reply == PoolReply::Returned,
                "give-back at {at}"
            ),
            PoolCall::Lower { .. } => {
                assert!(rt; entry.seat == 2 && entry.reply == PoolReply::Lowered { ceiling: 4 });
                assert!(rt; ceiling == 10 && at > 0);
                ceiling = 4;
            }
            PoolCall::Look { .. } => assert!(rt;
                matches!(entry.reply, PoolReply::Drawn { n, ceiling: c } if n <= 2 && c == ceiling),
                "look at {at}"
            ),
        }
    }
    assert!(rt; ceiling == 4);
}

fn storm_once<R: Threads + Wait + Clock + Abort + Sync>(
    rt: &R,
    alloc: Global,
) -> Result<(), AllocError> {
    let (instance, plan) = pod_and_job(rt, alloc)?;
    let pool = pool_of(rt, alloc, &instance, &plan)?;
    let Ok((lock, seats)) = open(alloc, pool, 4, 200) else {
        return Err(AllocError);
    };
    let answered = AtomicCell::new(false);
    let seats = play_all(rt, &lock, seats, &answered)?;
    assert!(rt; answered.load());
    let Ok(Closed { machine, history }) = close(lock, seats) else {
        panic!(rt; "not closed")
    };
    assert!(rt; history.len() == 501);
    assert_entries(rt, &history);
    // pod is row 1
    let drawn = machine.all_drawn();
    assert!(rt; drawn.len() == 5);
    assert!(rt; drawn[1] == 0);
    assert!(rt; machine.ceiling(1) == 4);
    Ok(())
}

#[test]
fn storm(rt: HostRuntime) -> Result<(), Fail> {
    let alloc = rt.alloc();
    if storm_once(&rt, alloc).is_err() {
        storm_once(&rt, alloc)?;
    }
    Ok(())
}
