//! The draws of one worker: its seat, and the gate that is told of each draw.
ghost use Rattle.std.specs.Prelude.{◌≡◌, ◌+◌, ◌<◌, ◌^◌, [], None};
ghost use Rattle.bw_pool.specs.declared.calls.PoolCall.TheVariants.{Draw, GiveBack};
ghost use Rattle.bw_workers.specs.Rounds.{draws_in};
ghost use Rattle.bw_workers.specs.Working.{Asks, calls_of};

use crate::gate::Gate;
use bw_lend::LendingSeat;
use bw_pool::{PoolCall, PoolReply, SlicePool};
use bw_ticket::TicketLock;
use std::rt::Clock;
use std::sync::Wait;

// A draw that the gate was told of, and that is not answered yet. It is not `Drop`: `tell_after`
// takes it, and nothing else can.
struct Begun {
    worker: u32,
    nth: u64,
}

// Tells the gate that the seat's next draw comes. `nth` is the number of its draws so far.
fn tell_before<G: Gate>(gate: &G, seat: &LendingSeat<SlicePool>, nth: u64) -> Begun
    requires nth { nth ≡ draws_in (calls_of seat.now) }
    ensures worker { result.worker ≡ seat.now.number }
    ensures nth { result.nth ≡ nth }
{
    let worker = seat.number();
    gate.before(worker, nth);
    Begun { worker, nth }
}

// Tells the gate that this draw is answered: the seat made one draw since `tell_before`.
fn tell_after<G: Gate>(gate: &G, seat: &LendingSeat<SlicePool>, begun: Begun)
    requires worker { begun.worker ≡ seat.now.number }
    requires drawn { draws_in (calls_of seat.now) ≡ begun.nth + 1 }
{
    let Begun { worker, nth } = begun;
    gate.after(worker, nth);
}

// One call of a seat that has calls left.
fn ask<R: Wait + Clock>(
    rt: &R,
    lock: &TicketLock<SlicePool>,
    seat: &mut LendingSeat<SlicePool>,
    call: PoolCall,
) -> PoolReply
    requires lock { seat.old.lock_id ≡ lock.now.lock_id }
    requires idle { seat.old.pending ≡ None }
    requires left { 0 < seat.old.calls_left }
    ensures { Asks seat.old call result seat.new }
{
    let Ok(answer) = seat.call(rt, lock, call) else {
        unreachable!()
    };
    answer.reply
}

/// A worker's seat and its gate. The gate is told of each draw, and of no other call.
pub(crate) struct Draws<'a, G: Gate> {
    seat: LendingSeat<SlicePool>,
    gate: &'a G,
    // number of draws of the seat so far
    nth: u64,
}

impl<'a, G: Gate> Draws<'a, G> {
    /// The seat has made no call yet.
    pub(crate) fn new(seat: LendingSeat<SlicePool>, gate: &'a G) -> Draws<'a, G>
        requires fresh { seat.own ≡ [] }
        ensures seat { result.seat ≡ seat }
        ensures gate { result.gate.now ≡ gate.now }
        ensures none { result.nth ≡ 0 }
        ensures counted { result.nth ≡ draws_in (calls_of result.seat) }
    {
        Draws { seat, gate, nth: 0 }
    }

    /// Draws one slice of the leaf. The gate is told before and after, with the number of the
    /// seat's draws before this one.
    pub(crate) fn draw<R: Wait + Clock>(
        &mut self,
        rt: &R,
        lock: &TicketLock<SlicePool>,
        leaf: u32,
    ) -> PoolReply
        requires lock { self.old.seat.lock_id ≡ lock.now.lock_id }
        requires idle { self.old.seat.pending ≡ None }
        requires left { 0 < self.old.seat.calls_left }
        requires counted { self.old.nth ≡ draws_in (calls_of self.old.seat) }
        requires small { self.old.nth + 1 < 2 ^ 64 }
        ensures asks { Asks self.old.seat (Draw leaf 1) result self.new.seat }
        ensures gate { self.new.gate.now ≡ self.old.gate.now }
        ensures nth { self.new.nth ≡ self.old.nth + 1 }
        ensures counted { self.new.nth ≡ draws_in (calls_of self.new.seat) }
    {
        let begun = tell_before(self.gate, &self.seat, self.nth);
        let call = PoolCall::Draw { leaf, ask: 1 };
        let reply = ask(rt, lock, &mut self.seat, call);
        tell_after(self.gate, &self.seat, begun);
        self.nth += 1;
        reply
    }

    /// Gives one slice of the leaf back. The gate is not told.
    pub(crate) fn give_back<R: Wait + Clock>(
        &mut self,
        rt: &R,
        lock: &TicketLock<SlicePool>,
        leaf: u32,
    ) -> PoolReply
        requires lock { self.old.seat.lock_id ≡ lock.now.lock_id }
        requires idle { self.old.seat.pending ≡ None }
        requires left { 0 < self.old.seat.calls_left }
        requires counted { self.old.nth ≡ draws_in (calls_of self.old.seat) }
        ensures asks { Asks self.old.seat (GiveBack leaf 1) result self.new.seat }
        ensures gate { self.new.gate.now ≡ self.old.gate.now }
        ensures nth { self.new.nth ≡ self.old.nth }
        ensures counted { self.new.nth ≡ draws_in (calls_of self.new.seat) }
    {
        let call = PoolCall::GiveBack { leaf, n: 1 };
        ask(rt, lock, &mut self.seat, call)
    }

    /// Whether the leaf uses its slices.
    pub(crate) fn uses(&self, leaf: u32) -> bool
        ensures { result ≡ G.used self.now.gate.now leaf }
    {
        self.gate.uses(leaf)
    }

    /// The seat, with all its calls.
    pub(crate) fn into_seat(self) -> LendingSeat<SlicePool>
        ensures { result ≡ self.entry.seat }
    {
        let Draws {
            seat,
            gate: _,
            nth: _,
        } = self;
        seat
    }
}
