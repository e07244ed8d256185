//! The workers of all seats, each in a thread of its own, all at once.
ghost use Rattle.std.specs.Prelude.{◌≡◌, ◌+◌, ◌*◌, ◌≤◌, length, IfOk};
ghost use Rattle.bw_model.specs.Host.{slices_per_processor};
ghost use Rattle.bw_workers.specs.Working.{IsLeaves, IsDrainedSeat};
ghost use Rattle.bw_workers.specs.Serving.{IsReady, AreReady, AreBack};

use crate::fault::ServeFault;
use crate::gate::Gate;
use crate::worker::work;
use bw_lend::{LendingSeat, take_home};
use bw_model::Instance;
use bw_model::limits::MAX_GROUPS;
use bw_pool::SlicePool;
use bw_ticket::{Seat, TicketLock};
use std::alloc::Global;
use std::rt::Clock;
use std::sync::Wait;
use std::thread;
use std::thread::{Promise, Threads, join_promised};

// The promise of a worker's thread: the seat that it returns is drained.
#[derive(Clone, Copy)]
struct WorkerPromise<'a, G: Gate> {
    lock: &'a TicketLock<SlicePool>,
    instance: &'a Instance,
    gate: &'a G,
    number: u32,
}

impl<'a, G: Gate> Promise<LendingSeat<SlicePool>> for WorkerPromise<'a, G> {
    ghost use Rattle.bw_model.specs.Host.{slices_per_processor};
    ghost use Rattle.bw_workers.specs.Working.{IsDrainedSeat};

    ghost kept_by = { λ p seat. IsDrainedSeat (G.used p.gate.now) p.instance.now.rows
        (slices_per_processor p.instance.now.shape) p.lock.now.lock_id p.number seat };
}

// The promise of the worker that is handed this seat.
fn promise_of<'a, G: Gate>(
    lock: &'a TicketLock<SlicePool>,
    instance: &'a Instance,
    gate: &'a G,
    seat: &LendingSeat<SlicePool>,
) -> WorkerPromise<'a, G>
    ensures lock { result.lock.now ≡ lock.now }
    ensures instance { result.instance.now ≡ instance.now }
    ensures gate { result.gate.now ≡ gate.now }
    ensures number { result.number ≡ seat.now.number }
{
    WorkerPromise {
        lock,
        instance,
        gate,
        number: seat.number(),
    }
}

// Spawns a worker for each seat, and returns the seats once all workers have ended.
fn at_once<G: Gate, R: Threads + Wait + Clock + Sync>(
    rt: &R,
    alloc: Global,
    lock: &TicketLock<SlicePool>,
    seats: Vec<LendingSeat<SlicePool>>,
    instance: &Instance,
    leaves: &[u32],
    gate: &G,
) -> Result<Vec<LendingSeat<SlicePool>>, ServeFault>
    requires ready { AreReady lock.now.lock_id
        (slices_per_processor instance.now.shape + 2 * length leaves.now) seats.items }
    requires leaves { IsLeaves instance.now.rows leaves.now }
    requires few { length leaves.now ≤ MAX_GROUPS }
    ensures { IfOk result (λ v. (length v.items ≡ length seats.items) ×
        AreBack (G.used gate.now) instance.now.rows (slices_per_processor instance.now.shape)
        lock.now.lock_id v.items) }
{
    thread::scope(
        thread::scope_env(),
        rt,
        |scope| -> Result<Vec<LendingSeat<SlicePool>>, ServeFault>
            requires ready { AreReady lock.now.lock_id
                (slices_per_processor instance.now.shape + 2 * length leaves.now) seats.items }
            requires leaves { IsLeaves instance.now.rows leaves.now }
            requires few { length leaves.now ≤ MAX_GROUPS }
            ensures { IfOk result (λ v. (length v.items ≡ length seats.items) ×
                AreBack (G.used gate.entry.now) instance.entry.now.rows
                (slices_per_processor instance.entry.now.shape) lock.entry.now.lock_id
                v.items) }
        {
            let count = seats.len();
            let mut children = Vec::with_capacity(alloc, count)?;
            for seat in seats {
                let mine = Vec::from_slice(alloc, leaves)?;
                let promise = promise_of(lock, instance, gate, &seat);
                let run = move || -> LendingSeat<SlicePool>
                    requires { IsReady lock.now.lock_id
                        (slices_per_processor instance.now.shape + 2 * length mine.items)
                        seat.number seat ×
                        IsLeaves instance.now.rows mine.items × (length mine.items ≤ MAX_GROUPS) }
                    ensures { IsDrainedSeat (G.used gate.entry.now) instance.entry.now.rows
                        (slices_per_processor instance.entry.now.shape)
                        lock.entry.now.lock_id seat.number result }
                { work(rt, lock, seat, instance, mine, gate) };
                let Ok(child) = scope.spawn_with(promise, run) else {
                    return Err(ServeFault::NotStarted);
                };
                children.push_reserved(child);
            }
            match join_promised(rt, children) {
                Ok(seats) => Ok(seats),
                Err(_) => Err(ServeFault::OutOfMemory),
            }
        },
    )
}

// Works a seat in the calling thread.
fn worked<G: Gate, R: Wait + Clock>(
    rt: &R,
    alloc: Global,
    lock: &TicketLock<SlicePool>,
    seat: LendingSeat<SlicePool>,
    instance: &Instance,
    leaves: &[u32],
    gate: &G,
) -> Result<LendingSeat<SlicePool>, ServeFault>
    requires ready { IsReady lock.now.lock_id
        (slices_per_processor instance.now.shape + 2 * length leaves.now) seat.number seat }
    requires leaves { IsLeaves instance.now.rows leaves.now }
    requires few { length leaves.now ≤ MAX_GROUPS }
    ensures { IfOk result (λ s. IsDrainedSeat (G.used gate.now) instance.now.rows
        (slices_per_processor instance.now.shape) lock.now.lock_id seat.number s) }
{
    let mine = Vec::from_slice(alloc, leaves)?;
    Ok(work(rt, lock, seat, instance, mine, gate))
}

// Works the seats one after another in the calling thread.
fn in_this_thread<G: Gate, R: Wait + Clock>(
    rt: &R,
    alloc: Global,
    lock: &TicketLock<SlicePool>,
    seats: Vec<LendingSeat<SlicePool>>,
    instance: &Instance,
    leaves: &[u32],
    gate: &G,
) -> Result<Vec<LendingSeat<SlicePool>>, ServeFault>
    requires ready { AreReady lock.now.lock_id
        (slices_per_processor instance.now.shape + 2 * length leaves.now) seats.items }
    requires leaves { IsLeaves instance.now.rows leaves.now }
    requires few { length leaves.now ≤ MAX_GROUPS }
    ensures { IfOk result (λ v. (length v.items ≡ length seats.items) ×
        AreBack (G.used gate.now) instance.now.rows (slices_per_processor instance.now.shape)
        lock.now.lock_id v.items) }
{
    let count = seats.len();
    let mut done = Vec::with_capacity(alloc, count)?;
    for seat in seats {
        let seat = worked(rt, alloc, lock, seat, instance, leaves, gate)?;
        done.push_reserved(seat);
    }
    Ok(done)
}

// Works all seats, each in a thread of its own. An only one is worked in the calling thread.
fn work_all<G: Gate, R: Threads + Wait + Clock + Sync>(
    rt: &R,
    alloc: Global,
    lock: &TicketLock<SlicePool>,
    seats: Vec<LendingSeat<SlicePool>>,
    instance: &Instance,
    leaves: &[u32],
    gate: &G,
) -> Result<Vec<LendingSeat<SlicePool>>, ServeFault>
    requires ready { AreReady lock.now.lock_id
        (slices_per_processor instance.now.shape + 2 * length leaves.now) seats.items }
    requires leaves { IsLeaves instance.now.rows leaves.now }
    requires few { length leaves.now ≤ MAX_GROUPS }
    ensures { IfOk result (λ v. (length v.items ≡ length seats.items) ×
        AreBack (G.used gate.now) instance.now.rows (slices_per_processor instance.now.shape)
        lock.now.lock_id v.items) }
{
    if seats.len() == 1 {
        in_this_thread(rt, alloc, lock, seats, instance, leaves, gate)
    } else {
        at_once(rt, alloc, lock, seats, instance, leaves, gate)
    }
}

/// Works all seats of the lock at once, each in a thread of its own, and returns them once all
/// workers have ended. An only one is worked in the calling thread.
pub(crate) fn run_workers<G: Gate, R: Threads + Wait + Clock + Sync>(
    rt: &R,
    alloc: Global,
    lock: &TicketLock<SlicePool>,
    seats: Vec<LendingSeat<SlicePool>>,
    instance: &Instance,
    leaves: &[u32],
    gate: &G,
) -> Result<Vec<Seat<SlicePool>>, ServeFault>
    requires ready { AreReady lock.now.lock_id
        (slices_per_processor instance.now.shape + 2 * length leaves.now) seats.items }
    requires all { length seats.items ≡ lock.now.seats }
    requires leaves { IsLeaves instance.now.rows leaves.now }
    requires few { length leaves.now ≤ MAX_GROUPS }
    ensures { IfOk result (λ v. (length v.items ≡ length seats.items) ×
        AreBack (G.used gate.now) instance.now.rows (slices_per_processor instance.now.shape)
        lock.now.lock_id v.items) }
{
    let worked = work_all(rt, alloc, lock, seats, instance, leaves, gate)?;
    Ok(take_home(alloc, lock, worked)?)
}
