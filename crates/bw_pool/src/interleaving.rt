//! The interleaving core of a slice pool: plays the atomic actions of its seats in any order.
ghost use Rattle.std.specs.Prelude.{◌≡◌, ◌≤◌, ◌<◌, length, slice_get, IfOk, OnErr, OnOk};
ghost use Rattle.bw_machine.specs.Seats.{start, is_possible, happens, run, takes};
ghost use Rattle.bw_pool.specs.Pool.{after, answer, IsWithinCeilings};
ghost use Rattle.bw_machine.specs.Schedules.{IsOneThread};

use crate::calls::{PoolCall, PoolReply};
use crate::limits::MAX_SEATS;
use crate::pool::SlicePool;
use bw_machine::{CoreEvent, Entry, Machine, Phase};
use std::alloc::{AllocError, Global};
use std::marker::Model;

/// The phase of each seat, the pool, and the history of the calls that were made.
#[derive(Drop)]
pub struct Core {
    next: u64,
    serving: u64,
    phases: Vec<Phase<PoolCall>>,
    pool: SlicePool,
    history: Vec<Entry<PoolCall, PoolReply>>,
}

impl Model for Core {
    ghost use Rattle.bw_machine.specs.Seats.{CoreState};
    ghost use Rattle.bw_pool.specs.Pool.{PoolState};
    ghost use Rattle.bw_pool.specs.declared.calls.PoolCall.{PoolCall};
    ghost use Rattle.bw_pool.specs.declared.calls.PoolReply.{PoolReply};

    ghost Value = { CoreState PoolState PoolCall PoolReply };

    ghost use Rattle.bw_pool.specs.Cores.{core_of, IsCounted};

    ghost view = { core_of };

    ghost invariant = { IsCounted };
}

impl Core {
    /// The ticket of the next `Take`: the number of tickets drawn.
    pub fn next(&self) -> u64
        ensures { result ≡ self.now.next }
    {
        self.next
    }

    /// The ticket that is served: the number of seats that have left.
    pub fn serving(&self) -> u64
        ensures { result ≡ self.now.serving }
    {
        self.serving
    }

    /// The pool, as the calls of the history left it.
    pub fn pool(&self) -> &SlicePool
        ensures { result.now ≡ self.now.machine }
    {
        &self.pool
    }

    /// The calls that were made with their replies: entry k was made under ticket k.
    pub fn history(&self) -> &[Entry<PoolCall, PoolReply>]
        ensures { result.now ≡ self.now.history }
    {
        self.history.as_slice()
    }

    fn phase(&self, seat: u32) -> Option<Phase<PoolCall>>
        ensures { result ≡ slice_get self.now.phases seat }
    {
        if (seat as usize) < self.phases.len() {
            Some(self.phases[seat as usize])
        } else {
            None
        }
    }

    fn take(&mut self, seat: u32, call: PoolCall) -> bool
        ensures possible { result ≡ is_possible self.old (CoreEvent.Take seat call) }
        ensures state { self.new ≡ happens after answer self.old (CoreEvent.Take seat call) }
    {
        let Some(Phase::Idle) = self.phase(seat) else {
            return false;
        };
        let number = self.next;
        self.next += 1;
        self.phases[seat as usize] = Phase::Waiting { number, call };
        true
    }

    fn enter(&mut self, seat: u32) -> bool
        ensures possible { result ≡ is_possible self.old (CoreEvent.Enter seat) }
        ensures state { self.new ≡ happens after answer self.old (CoreEvent.Enter seat) }
    {
        let Some(Phase::Waiting { number, call }) = self.phase(seat) else {
            return false;
        };
        if number != self.serving {
            return false;
        }
        self.phases[seat as usize] = Phase::Inside { call };
        true
    }

    fn leave(&mut self, seat: u32) -> bool
        ensures possible { result ≡ is_possible self.old (CoreEvent.Leave seat) }
        ensures state { self.new ≡ happens after answer self.old (CoreEvent.Leave seat) }
    {
        let Some(Phase::Done) = self.phase(seat) else {
            return false;
        };
        self.serving += 1;
        self.phases[seat as usize] = Phase::Idle;
        true
    }

    fn apply(&mut self, seat: u32) -> Result<bool, AllocError>
        ensures possible { IfOk result (λ b. b ≡ is_possible self.old (CoreEvent.Apply seat)) }
        ensures state { OnOk result
            (self.new ≡ happens after answer self.old (CoreEvent.Apply seat)) }
        ensures err { OnErr result (self.new ≡ self.old) }
    {
        let Some(Phase::Inside { call }) = self.phase(seat) else {
            return Ok(false);
        };
        self.history.reserve(1)?;
        let reply = self.pool.step(seat, &call);
        let _ = self.history.push(Entry { seat, call, reply });
        self.phases[seat as usize] = Phase::Done;
        Ok(true)
    }

    /// Plays one event. Returns false, and changes nothing, if it is not possible: also for an
    /// unknown seat.
    ///
    /// # Errors
    ///
    /// - `AllocError`: an allocation failed. Nothing is changed.
    pub fn event(&mut self, event: CoreEvent<PoolCall>) -> Result<bool, AllocError>
        ensures possible { IfOk result (λ b. b ≡ is_possible self.old event) }
        ensures state { OnOk result (self.new ≡ happens after answer self.old event) }
        ensures err { OnErr result (self.new ≡ self.old) }
    {
        match event {
            CoreEvent::Take { seat, call } => Ok(self.take(seat, call)),
            CoreEvent::Enter { seat } => Ok(self.enter(seat)),
            CoreEvent::Apply { seat } => self.apply(seat),
            CoreEvent::Leave { seat } => Ok(self.leave(seat)),
        }
    }

    /// A core of 1 to 64 idle seats over the pool.
    ///
    /// # Errors
    ///
    /// - `AllocError`: an allocation failed. The pool is dropped.
    pub fn new(alloc: Global, pool: SlicePool, seats: u32) -> Result<Core, AllocError>
        requires some { 1 ≤ seats }
        requires few { seats ≤ MAX_SEATS }
        ensures { IfOk result (λ core. core ≡ start seats pool) }
    {
        let phases = vec![in alloc; Phase::Idle; seats as usize]?;
        Ok(Core {
            next: 0,
            serving: 0,
            phases,
            pool,
            history: Vec::new(alloc),
        })
    }

    /// A core of 1 to 64 seats that has played a whole schedule, event by event.
    ///
    /// Every schedule is the work of one thread: at most one seat is inside or done, the history is
    /// legal and in ticket order, the pool is its replay, and each seat's calls are those for which
    /// it drew a ticket. No group is past the ceiling that it opened with.
    ///
    /// # Errors
    ///
    /// - `AllocError`: an allocation failed. The pool is dropped.
    pub fn play(
        alloc: Global,
        pool: SlicePool,
        seats: u32,
        events: &[CoreEvent<PoolCall>],
    ) -> Result<Core, AllocError>
        requires some { 1 ≤ seats }
        requires few { seats ≤ MAX_SEATS }
        ensures state { IfOk result (λ core.
            core ≡ run after answer (start seats pool) events.now) }
        ensures one_thread { IfOk result (λ core.
            IsOneThread after answer pool (takes after answer (start seats pool) events.now) core) }
        ensures within { IfOk result (λ core. IsWithinCeilings pool core.machine) }
    {
        // its contract says that the pool is sound
        let _drawn = pool.all_drawn();
        let mut core = Core::new(alloc, pool, seats)?;
        for event in events {
            core.event(*event)?;
        }
        Ok(core)
    }
}
