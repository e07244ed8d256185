//! Laws of the pool over every history: each is the contract of a function that does nothing.
ghost use Rattle.std.specs.Prelude.{◌≡◌, ℕ, List, Bool};
ghost use Rattle.bw_model.specs.declared.row.Row.{Row};
ghost use Rattle.bw_model.specs.Groups.{AreTreeRows};
ghost use Rattle.bw_pool.specs.Pool.{NeverPastThePlan, StaysSound, CutsNothing};
ghost use Rattle.bw_pool.specs.Drained.{IsDrawnOut, DrainedWorkersDrawTheAmounts};
ghost use Rattle.bw_pool.specs.Drained.{DrainedWorkersDrawThePlan};

use crate::limits::MAX_SEATS;

/// In every schedule, drained workers leave the amounts at the leaves that are used, and nothing at
/// the others. It holds of any amounts that are each the sum of the children's, so of a plan's.
pub fn drained_workers()
    ensures amounts { DrainedWorkersDrawTheAmounts }
    ensures plan { DrainedWorkersDrawThePlan }
{}

/// There is one list of drawn amounts: what drained workers leave is the same in every schedule.
pub fn one_drawn_list()
    ensures { (uses : ℕ → Bool) (rows : List Row) (amounts one other : List ℕ) →
        AreTreeRows rows → IsDrawnOut uses rows amounts one →
        IsDrawnOut uses rows amounts other → one ≡ other }
{}

/// No group has drawn more than its ceiling, and no ceiling is above the one that it opened with.
pub fn never_past_the_plan()
    ensures { NeverPastThePlan }
{}

/// After every history, the holdings of the seats add up to what is drawn, by leaf, by processor
/// and by group. So no give-back takes more than was drawn from any of these.
pub fn holdings_add_up()
    ensures stays { StaysSound }
    ensures cuts { CutsNothing }
{}

/// The limit of a pool: 64 seats, one for each processor. The definitions read it from the code.
pub fn pool_numbers()
    ensures { MAX_SEATS ≡ 64 }
{}
