//! The draws of one worker.
ghost use Rattle.std.specs.Prelude.{◌≡◌, ◌+◌, ◌*◌, ◌^◌, ◌<◌, ◌≤◌, [], ◌∷◌, ◌++◌, length, None};
ghost use Rattle.std.specs.Prelude.{MatchBool};
ghost use Rattle.std.specs.VecDeque.{deque_len, deque_capacity};
ghost use Rattle.bw_model.specs.Host.{slices_per_processor};
ghost use Rattle.bw_pool.specs.Drained.{got_one};
ghost use Rattle.bw_workers.specs.Rounds.{draws_in};
ghost use Rattle.bw_workers.specs.Working.{IsLeaves, Keeps, DropsLeaf, IsDrainedSeat, calls_of};

use crate::draws::Draws;
use crate::gate::Gate;
use bw_lend::LendingSeat;
use bw_model::Instance;
use bw_model::limits::MAX_GROUPS;
use bw_pool::{PoolReply, SlicePool};
use bw_ticket::TicketLock;
use std::collections::VecDeque;
use std::rt::Clock;
use std::sync::Wait;

// Whether a draw got its one slice.
fn got_one(reply: PoolReply) -> bool
    ensures { result ≡ got_one reply }
{
    match reply {
        PoolReply::Granted { got, .. } => got == 1,
        _ => false,
    }
}

// Draws one slice of the leaf and returns whether it is kept. A slice that the leaf does not use is
// given back at once.
fn take_turn<G: Gate, R: Wait + Clock>(
    rt: &R,
    lock: &TicketLock<SlicePool>,
    draws: &mut Draws<'_, G>,
    leaf: u32,
) -> bool
    requires lock { draws.old.seat.lock_id ≡ lock.now.lock_id }
    requires idle { draws.old.seat.pending ≡ None }
    requires left { 2 ≤ draws.old.seat.calls_left }
    requires counted { draws.old.nth ≡ draws_in (calls_of draws.old.seat) }
    requires small { draws.old.nth + 1 < 2 ^ 64 }
    ensures turn { MatchBool result
        (Keeps (G.used draws.old.gate.now) leaf draws.old.seat draws.new.seat)
        (DropsLeaf (G.used draws.old.gate.now) leaf draws.old.seat draws.new.seat) }
    ensures gate { draws.new.gate.now ≡ draws.old.gate.now }
    ensures nth { draws.new.nth ≡ draws.old.nth + 1 }
    ensures counted { draws.new.nth ≡ draws_in (calls_of draws.new.seat) }
{
    let reply = draws.draw(rt, lock, leaf);
    if !got_one(reply) {
        return false;
    }
    if draws.uses(leaf) {
        return true;
    }
    draws.give_back(rt, lock, leaf);
    false
}

// Puts a leaf behind the others that are still asked. The list has room for it.
fn put_last(leaves: &mut VecDeque<u32>, leaf: u32)
    requires { deque_len leaves.old < deque_capacity leaves.old }
    ensures items { leaves.new.items ≡ leaves.old.items ++ leaf ∷ [] }
    ensures capacity { deque_capacity leaves.new ≡ deque_capacity leaves.old }
{
    leaves.push_back_reserved(leaf);
}

/// Draws one slice of each leaf in the order of the list, round and round, until the processor is
/// spent or no leaf is left. A leaf that had none, or whose slice was given back, is not asked
/// again.
pub(crate) fn work<G: Gate, R: Wait + Clock>(
    rt: &R,
    lock: &TicketLock<SlicePool>,
    seat: LendingSeat<SlicePool>,
    instance: &Instance,
    leaves: Vec<u32>,
    gate: &G,
) -> LendingSeat<SlicePool>
    requires lock { seat.lock_id ≡ lock.now.lock_id }
    requires idle { seat.pending ≡ None }
    requires fresh { seat.own ≡ [] }
    requires leaves { IsLeaves instance.now.rows leaves.items }
    requires few { length leaves.items ≤ MAX_GROUPS }
    requires room { slices_per_processor instance.now.shape + 2 * length leaves.items ≤
        seat.calls_left }
    ensures drained { IsDrainedSeat (G.used gate.now) instance.now.rows
        (slices_per_processor instance.now.shape) lock.now.lock_id seat.number result }
    ensures few_calls { seat.calls_left ≤
        result.calls_left + slices_per_processor instance.now.shape + 2 * length leaves.items }
{
    let shape = instance.shape();
    let slices = shape.per_processor();
    // the next leaf to be asked is first
    let mut leaves = VecDeque::from_vec(leaves);
    let mut draws = Draws::new(seat, gate);
    let mut kept = 0;
    while kept < slices && !leaves.is_empty() {
        let Some(leaf) = leaves.pop_front() else {
            unreachable!()
        };
        if take_turn(rt, lock, &mut draws, leaf) {
            kept += 1;
            put_last(&mut leaves, leaf);
        }
    }
    draws.into_seat()
}
