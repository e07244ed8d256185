//! Periods of the same demands, of which those that come again are counted at once.
ghost use Rattle.std.specs.Prelude.{◌≡◌, ◌<◌, ◌≤◌, ℕ, List, length, IfOk};
ghost use Rattle.bw_model.specs.Host.{Shape};
ghost use Rattle.bw_model.specs.declared.row.Row.{Row};
ghost use Rattle.bw_columns.specs.Periods.{IsSample};
ghost use Rattle.bw_columns.specs.Walks.{IsUnderWay};

use crate::one_period::period_of;
use crate::tally::{Tally, added_up, no_tallies};
use bw_model::Instance;
use std::alloc::{AllocError, Global};

// Periods of a sample that are done, and a mark among them at which the carries are looked for
// again. After twice as many periods as before the mark is moved, so that no other list is kept.
#[derive(Drop)]
struct Walk {
    // slices of each limit that the last period left
    carries: Vec<u64>,
    // numbers of all periods that are done
    sums: Vec<Tally>,
    // periods that are not
    left: u64,
    // carries at the mark
    mark: Vec<u64>,
    // numbers of the periods since the mark
    turn: Vec<Tally>,
    // periods that were not done at the mark
    mark_left: u64,
    // most periods to the next mark
    span: u64,
}

/// The numbers of each group in a sample, and the slices that each leaves of its limit.
#[derive(Drop)]
pub(crate) struct Sample {
    pub tallies: Vec<Tally>,
    pub carries: Vec<u64>,
}

pub(crate) fn copied(alloc: Global, numbers: &[u64]) -> Result<Vec<u64>, AllocError>
    ensures { IfOk result (λ v. v.items ≡ numbers.now) }
{
    numbers.iter().copied().collect(alloc)
}

// No period of so many.
fn begun(alloc: Global, count: usize, times: u64, carries: Vec<u64>) -> Result<Walk, AllocError>
    requires { length carries.items ≡ count }
    ensures { IfOk result (λ walk. (shape : Shape) (slice_us : ℕ) (asked : List Row)
        (mosts : List ℕ) → length asked ≡ count
        → IsUnderWay shape slice_us asked mosts times carries.items walk) }
{
    let mark = copied(alloc, carries.as_slice())?;
    Ok(Walk {
        carries,
        sums: no_tallies(alloc, count)?,
        left: times,
        mark,
        turn: no_tallies(alloc, count)?,
        mark_left: times,
        span: 1,
    })
}

// One more period.
fn walked(
    alloc: Global,
    asked: &Instance,
    slice_us: u64,
    mosts: &[u64],
    walk: Walk,
) -> Result<Walk, AllocError>
    requires left { 0 < walk.left }
    requires mosts { length mosts.now ≡ length asked.now.rows }
    requires carries { length walk.carries.items ≡ length asked.now.rows }
    requires sums { length walk.sums.items ≡ length asked.now.rows }
    requires turn { length walk.turn.items ≡ length asked.now.rows }
    ensures way { IfOk result (λ next. (times : ℕ) (begin : List ℕ)
        → IsUnderWay asked.now.shape slice_us asked.now.rows mosts.now times begin walk
        → IsUnderWay asked.now.shape slice_us asked.now.rows mosts.now times begin next) }
    ensures fewer { IfOk result (λ next. next.left < walk.left) }
    ensures mark { IfOk result (λ next. next.mark_left ≡ walk.mark_left) }
{
    let period = period_of(alloc, asked, slice_us, mosts, walk.carries.as_slice())?;
    let tallies = period.tallies.as_slice();
    let sums = added_up(alloc, walk.sums.as_slice(), tallies, 1)?;
    let turn = added_up(alloc, walk.turn.as_slice(), tallies, 1)?;
    Ok(Walk {
        carries: period.carries,
        sums,
        left: walk.left - 1,
        turn,
        ..walk
    })
}

// The mark is where the walk is.
fn marked(alloc: Global, count: usize, walk: Walk) -> Result<Walk, AllocError>
    ensures way { IfOk result (λ next. (shape : Shape) (slice_us : ℕ) (asked : List Row)
        (mosts : List ℕ) (times : ℕ) (begin : List ℕ) → length asked ≡ count
        → IsUnderWay shape slice_us asked mosts times begin walk
        → IsUnderWay shape slice_us asked mosts times begin next) }
    ensures left { IfOk result (λ next. next.left ≡ walk.left) }
{
    Ok(Walk {
        mark: copied(alloc, walk.carries.as_slice())?,
        turn: no_tallies(alloc, count)?,
        mark_left: walk.left,
        span: walk.span.saturating_mul(2),
        ..walk
    })
}

// The periods since the mark, at the end of which the carries are those of the mark, come again
// as often as the rest has room for them.
fn repeated(alloc: Global, walk: Walk) -> Result<Walk, AllocError>
    requires marked { walk.left < walk.mark_left }
    requires same { walk.carries.items ≡ walk.mark.items }
    requires turn { length walk.turn.items ≡ length walk.sums.items }
    ensures way { IfOk result (λ next. (shape : Shape) (slice_us : ℕ) (asked : List Row)
        (mosts : List ℕ) (times : ℕ) (begin : List ℕ)
        → IsUnderWay shape slice_us asked mosts times begin walk
        → IsUnderWay shape slice_us asked mosts times begin next) }
    ensures fewer { IfOk result (λ next. next.left ≤ walk.left) }
{
    let steps = walk.mark_left - walk.left;
    let times = walk.left / steps;
    let left = walk.left % steps;
    Ok(Walk {
        sums: added_up(alloc, walk.sums.as_slice(), walk.turn.as_slice(), times)?,
        left,
        mark_left: steps + left,
        ..walk
    })
}

// Where the carries are those of the mark, the periods since then come again. Else the mark is
// moved after enough of them.
fn looked_back(alloc: Global, count: usize, walk: Walk) -> Result<Walk, AllocError>
    requires marked { walk.left < walk.mark_left }
    requires turn { length walk.turn.items ≡ length walk.sums.items }
    ensures way { IfOk result (λ next. (shape : Shape) (slice_us : ℕ) (asked : List Row)
        (mosts : List ℕ) (times : ℕ) (begin : List ℕ) → length asked ≡ count
        → IsUnderWay shape slice_us asked mosts times begin walk
        → IsUnderWay shape slice_us asked mosts times begin next) }
    ensures fewer { IfOk result (λ next. next.left ≤ walk.left) }
{
    if walk.carries.as_slice() == walk.mark.as_slice() {
        return repeated(alloc, walk);
    }
    if walk.mark_left - walk.left >= walk.span {
        return marked(alloc, count, walk);
    }
    Ok(walk)
}

/// A sample of groups whose rows have their quotas as limits: `times` periods.
pub(crate) fn sample_of(
    alloc: Global,
    asked: &Instance,
    slice_us: u64,
    mosts: &[u64],
    times: u64,
    carries: Vec<u64>,
) -> Result<Sample, AllocError>
    requires mosts { length mosts.now ≡ length asked.now.rows }
    requires carries { length carries.items ≡ length asked.now.rows }
    ensures sample { IfOk result (λ s. IsSample asked.now.shape slice_us asked.now.rows mosts.now
        times carries.items s.tallies.items s.carries.items) }
    ensures tallies { IfOk result (λ s. length s.tallies.items ≡ length asked.now.rows) }
    ensures carries { IfOk result (λ s. length s.carries.items ≡ length asked.now.rows) }
{
    let count = asked.rows().len();
    let mut walk = begun(alloc, count, times, carries)?;
    while walk.left > 0 {
        let longer = walked(alloc, asked, slice_us, mosts, walk)?;
        walk = looked_back(alloc, count, longer)?;
    }
    Ok(Sample {
        tallies: walk.sums,
        carries: walk.carries,
    })
}
