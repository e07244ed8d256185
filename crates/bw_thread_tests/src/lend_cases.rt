//! Seats that lend themselves, called from more threads than a machine has processors.
//! A case with a failed allocation is run once more, so it passes with any one allocation failing.
ghost use Rattle.std.specs.Prelude.{◌≡◌, All, None, IfOk, length};

use crate::counter::{Add, Counter};
use bw_lend::{LendingSeat, lend, take_home};
use bw_ticket::{Answer, Closed, TicketLock, close, open};
use crossbeam_utils::atomic::AtomicCell;
use std::alloc::{AllocError, Global};
use std::process::Abort;
use std::rt::Clock;
use std::sync::Wait;
use std::test::Fail;
use std::thread::{Threads, map_vec};

const CALLERS: u32 = 16;

const CALLS: u32 = 200;

// Makes all calls of the seat. Each adds 1, so its reply is the number after its place.
fn call_all<R: Wait + Clock>(
    rt: &R,
    lock: &TicketLock<Counter>,
    mut seat: LendingSeat<Counter>,
    wrong: &AtomicCell<bool>,
) -> LendingSeat<Counter>
    requires { (seat.lock_id ≡ lock.now.lock_id) × (seat.pending ≡ None) }
    ensures { (result.lock_id ≡ lock.now.lock_id) × (result.pending ≡ None) }
{
    for _ in 0..CALLS {
        match seat.call(rt, lock, Add(1)) {
            Ok(Answer { reply, at }) => {
                if reply.0 != at.wrapping_add(1) {
                    wrong.store(true);
                }
            }
            Err(_) => wrong.store(true),
        }
    }
    seat
}

fn call_all_at_once<R: Threads + Wait + Clock + Sync>(
    rt: &R,
    lock: &TicketLock<Counter>,
    seats: Vec<LendingSeat<Counter>>,
    wrong: &AtomicCell<bool>,
) -> Result<Vec<LendingSeat<Counter>>, AllocError>
    requires { All (λ s. s.lock_id ≡ lock.now.lock_id) seats.items ×
        All (λ s. s.pending ≡ None) seats.items }
    ensures { IfOk result (λ v. (length v.items ≡ length seats.items) ×
        All (λ s. s.lock_id ≡ lock.now.lock_id) v.items ×
        All (λ s. s.pending ≡ None) v.items) }
{
    map_vec(
        rt,
        seats,
        &|seat: LendingSeat<Counter>| -> LendingSeat<Counter>
            requires { (seat.lock_id ≡ lock.now.lock_id) × (seat.pending ≡ None) }
            ensures { (result.lock_id ≡ lock.entry.now.lock_id) × (result.pending ≡ None) }
        { call_all(rt, lock, seat, wrong) },
    )
}

fn crowd_once<R: Threads + Wait + Clock + Abort + Sync>(
    rt: &R,
    alloc: Global,
) -> Result<(), AllocError> {
    let Ok((lock, seats)) = open(alloc, Counter::new(), CALLERS, CALLS) else {
        return Err(AllocError);
    };
    let seats = lend(alloc, &lock, seats)?;
    let wrong = AtomicCell::new(false);
    let seats = call_all_at_once(rt, &lock, seats, &wrong)?;
    let seats = take_home(alloc, &lock, seats)?;
    assert!(rt; !wrong.load());
    let Ok(Closed { machine, history }) = close(lock, seats) else {
        panic!(rt; "not closed")
    };
    assert!(rt; machine.total() == (CALLERS * CALLS) as u64);
    assert!(rt; history.len() == (CALLERS * CALLS) as usize);
    Ok(())
}

#[test]
fn crowd_of_lending_seats(rt: HostRuntime) -> Result<(), Fail> {
    let alloc = rt.alloc();
    if crowd_once(&rt, alloc).is_err() {
        crowd_once(&rt, alloc)?;
    }
    Ok(())
}
