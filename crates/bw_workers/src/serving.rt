//! The draws of one period: a lock round the pool, and a worker for each processor.
ghost use Rattle.std.specs.Prelude.{◌≡◌, ◌+◌, ◌*◌, ◌≤◌, length, IfOk};
ghost use Rattle.bw_machine.specs.History.{IsLegal, replay};
ghost use Rattle.bw_model.specs.Host.{slices_per_processor};
ghost use Rattle.bw_model.specs.Plan.{IsPlan};
ghost use Rattle.bw_pool.specs.Pool.{after, answer};
ghost use Rattle.bw_pool.specs.Drained.{opening, AreDrained, IsDrawnOut};
ghost use Rattle.bw_ticket.specs.declared.limits.TheConstants.{MAX_CALLS};
ghost use Rattle.bw_ticket.specs.Faults.{InRange};
ghost use Rattle.bw_workers.specs.Headline.{Headline};
ghost use Rattle.bw_workers.specs.Working.{IsLeaves};
ghost use Rattle.bw_workers.specs.Serving.{AreSeatsOf, AreInRounds, IsMadeBy, calls_by};

use crate::fault::ServeFault;
use crate::gate::Gate;
use crate::threads::run_workers;
use bw_lend::lend;
use bw_machine::Entry;
use bw_model::Instance;
use bw_model::limits::MAX_GROUPS;
use bw_plan::Plan;
use bw_pool::{PoolCall, PoolReply, SlicePool};
use bw_ticket::{Closed, OpenFault, Seat, TicketLock, close, open};
use std::alloc::{AllocError, Global};
use std::rt::Clock;
use std::snapshot::Snapshot;
use std::sync::Wait;
use std::thread::Threads;

/// The draws of one period.
#[derive(Drop)]
pub struct Served {
    /// The calls of all workers, in the order in which they were made.
    pub history: Vec<Entry<PoolCall, PoolReply>>,
    /// The slices drawn by each group in the end, one number for each row.
    pub drawn: Vec<u64>,
    /// The seats as the workers handed them back, one for each processor. Ghost state: only
    /// contracts read it, and it takes no memory.
    pub seats: Snapshot<Vec<Seat<SlicePool>>>,
    /// The lock that made the history, which the seats are of. Ghost state, as they are.
    pub lock: Snapshot<TicketLock<SlicePool>>,
}

// The leaves, in row order.
fn leaves_of(alloc: Global, instance: &Instance) -> Result<Vec<u32>, AllocError>
    ensures leaves { IfOk result (λ v. IsLeaves instance.now.rows v.items) }
    ensures few { IfOk result (λ v. length v.items ≤ MAX_GROUPS) }
{
    let rows = instance.rows().len() as u32;
    let mut leaves = Vec::with_capacity(alloc, rows as usize)?;
    for row in 0..rows {
        if instance.is_leaf(row) {
            leaves.push_reserved(row);
        }
    }
    Ok(leaves)
}

// Greatest number of calls of one worker: one draw for each slice that it keeps, and for each leaf
// one draw that is short or given back, and the give-back.
fn calls_each(instance: &Instance, leaves: &[u32]) -> u32
    requires { length leaves.now ≤ MAX_GROUPS }
    ensures value { result ≡ slices_per_processor instance.now.shape + 2 * length leaves.now }
    ensures range { InRange result MAX_CALLS }
{
    // its contract says that the host is in range
    let _rows = instance.rows();
    let shape = instance.shape();
    shape.per_processor() as u32 + 2 * leaves.len() as u32
}

/// Serves one period: opens a lock round a pool of the plan, with one seat for each processor, and
/// runs a worker for each seat.
///
/// Each worker has a thread of its own, and all run at once. The only one of a host runs in the
/// calling thread. A worker that waits for its ticket lends its seat to those that leave the lock.
///
/// A worker draws 1 slice from each leaf in row order, round and round. It gives back at once a
/// slice of a leaf that the gate does not use. It does not ask again a leaf that answered short or
/// whose slice it gave back. It ends with all slices of its processor, or with no leaf left.
///
/// In every schedule, what is drawn in the end is the plan at the leaves that are used. `cpu.max`
/// hands slices to processors as they run (sched-bwc.rst); the plan decides how many.
///
/// # Errors
///
/// - [`ServeFault::NotStarted`]: a thread could not be spawned.
/// - [`ServeFault::OutOfMemory`]: an allocation failed.
pub fn serve<G: Gate, R: Threads + Wait + Clock + Sync>(
    rt: &R,
    alloc: Global,
    instance: &Instance,
    plan: &Plan,
    gate: &G,
) -> Result<Served, ServeFault>
    requires { IsPlan instance.now plan.now.amounts.items }
    ensures headline { IfOk result (λ s.
        Headline (G.used gate.now) instance.now plan.now.amounts.items
        (calls_by s.seats.value.items) s.history.items s.drawn.items) }
    ensures seats { IfOk result (λ s.
        AreSeatsOf instance.now.shape.processors s.seats.value.items) }
    ensures lock { IfOk result (λ s. IsMadeBy instance.now plan.now.amounts.items s.lock.value
        s.seats.value.items s.history.items) }
    ensures rounds { IfOk result (λ s.
        AreInRounds (G.used gate.now) instance.now.rows s.seats.value.items) }
    ensures legal { IfOk result (λ s.
        IsLegal after answer (opening instance.now plan.now.amounts.items) s.history.items) }
    ensures drained { IfOk result (λ s.
        AreDrained (G.used gate.now) instance.now.shape.processors
        (slices_per_processor instance.now.shape) instance.now.rows s.history.items) }
    ensures replayed { IfOk result (λ s. s.drawn.items ≡
        (replay after (opening instance.now plan.now.amounts.items) s.history.items).drawn) }
    ensures drawn { IfOk result (λ s.
        IsDrawnOut (G.used gate.now) instance.now.rows plan.now.amounts.items s.drawn.items) }
{
    // its contract says that the groups are an instance
    let _rows = instance.rows();
    let shape = instance.shape();
    let pool = SlicePool::new(alloc, instance, plan.amounts.as_slice())?;
    let leaves = leaves_of(alloc, instance)?;
    let calls = calls_each(instance, &leaves);
    let (lock, seats) = match open(alloc, pool, shape.processors() as u32, calls) {
        Ok(made) => made,
        Err(OpenFault::OutOfMemory) => return Err(ServeFault::OutOfMemory),
        Err(_) => unreachable!(),
    };
    let lending = lend(alloc, &lock, seats)?;
    let seats = run_workers(rt, alloc, &lock, lending, instance, &leaves, gate)?;
    let handed_back = Snapshot::of(&seats);
    let used = Snapshot::of(&lock);
    let Ok(Closed { machine, history }) = close(lock, seats) else {
        unreachable!()
    };
    let drawn = machine.into_drawn();
    Ok(Served {
        history,
        drawn,
        seats: handed_back,
        lock: used,
    })
}
