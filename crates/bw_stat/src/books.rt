//! Counters of groups over the booked periods.
ghost use Rattle.std.specs.Prelude.{◌≡◌, ◌+◌, ◌*◌, ◌<◌, ◌≤◌, [], ◌∷◌, ℕ, List, length, position};
ghost use Rattle.std.specs.Prelude.{OnOk, OnErr, IfOk, nat_eq, nat_lt, true, Some};
ghost use Rattle.std.specs.Option.{option_copied};
ghost use Rattle.std.specs.List.{IsDistinct, starts_with};
ghost use Rattle.std.specs.Map.{keys_of};
ghost use Rattle.indexmap.specs.IndexMap.{spare};
ghost use Rattle.bw_stat.specs.Books.{burst, cut, periods_if, added, share_of};
ghost use Rattle.bw_stat.specs.Books.{shares_of, stat_at, or_zeros, with_share, booked, forgotten};

use bw_demand::{Gathered, withheld_slices};
use bw_model::{Instance, Row, Stat};
use indexmap::IndexMap;
use std::alloc::{AllocError, Global};
use std::marker::Model;

/// Counters of each group that was booked and not forgotten, by its id.
#[derive(Debug, Drop)]
pub struct Books {
    stats: IndexMap<u64, Stat>,
}

impl Model for Books {
    ghost use Rattle.std.specs.Prelude.{List, ℕ};
    ghost use Rattle.bw_model.specs.declared.stat.Stat.{Stat};

    ghost Value = { List (ℕ × Stat) };

    ghost view = { λ b. b.stats.entries };
}

impl Books {
    /// Makes books without a group.
    pub fn new(alloc: Global) -> Books
        ensures { result ≡ [] }
    {
        Books {
            stats: IndexMap::new(alloc),
        }
    }

    /// Counters of a group, in microseconds and periods; `None` if it has none.
    pub fn of(&self, id: u64) -> Option<Stat>
        ensures { result ≡ stat_at self.now id }
    {
        self.stats.get(&id).copied()
    }

    /// Counters of a group, all 0 if it has none, as `cpu.stat` and the report show them.
    pub fn counters(&self, id: u64) -> Stat
        ensures { result ≡ or_zeros (stat_at self.now id) }
    {
        or_zeros(self.of(id))
    }

    /// Counters of a group, as [`Books::counters`] gives them.
    ///
    /// They are found at once if they are at `likely`. They are there if every booked instance had
    /// all groups in order of creation, and `likely` is the number of the group's row.
    pub fn counters_near(&self, likely: usize, id: u64) -> Stat
        ensures { result ≡ or_zeros (stat_at self.now id) }
    {
        if is_at(&self.stats, likely, id) {
            return self.stats[likely];
        }
        self.counters(id)
    }

    /// Counts one period for each group of an instance.
    ///
    /// `ids`, `base`, `gathered.want` and `drawn` have an entry for each row of the instance:
    /// its id, and its quota, its want and its draw in slices.
    ///
    /// A group other than the root counts as throttled if its want is above its limit. It counts
    /// a burst if it drew more than its quota (sched-bwc.rst, "Statistics").
    ///
    /// # Errors
    ///
    /// `AllocError` if an allocation fails. The books are then unchanged.
    pub fn book(
        &mut self,
        instance: &Instance,
        ids: &[u64],
        base: &[Option<u64>],
        gathered: &Gathered,
        drawn: &[u64],
    ) -> Result<(), AllocError>
        requires ids { length ids.now ≡ length instance.now.rows }
        requires base { length base.now ≡ length instance.now.rows }
        requires wants { length gathered.now.want.items ≡ length instance.now.rows }
        requires drawn { length drawn.now ≡ length instance.now.rows }
        requires distinct { IsDistinct nat_eq ids.now }
        ensures booked { OnOk result
            (self.new ≡ booked self.old
            (shares_of instance.now.shape.slice_us instance.now.rows ids.now base.now
            gathered.now.want.items drawn.now)) }
        ensures err { OnErr result (self.new ≡ self.old) }
    {
        let slice_us = instance.shape().slice_us();
        let rows = instance.rows();
        let wants = gathered.want.as_slice();
        if are_in_place(&self.stats, ids) {
            add_rows(&mut self.stats, slice_us, rows, base, wants, drawn);
        } else {
            self.stats.reserve(rows.len())?;
            book_rows(&mut self.stats, slice_us, rows, ids, base, wants, drawn);
        }
        Ok(())
    }

    /// Removes a group's counters. Allocates nothing.
    pub fn forget(&mut self, id: u64)
        ensures { self.new ≡ forgotten self.old id }
    {
        let _removed = self.stats.shift_remove(&id);
    }
}

// Whether the counters of each row are at its number. They are if every booked instance had all
// groups in order of creation, and each removed group was forgotten.
fn are_in_place(stats: &IndexMap<u64, Stat>, ids: &[u64]) -> bool
    ensures in_place { result ≡ starts_with nat_eq (keys_of stats.now.entries) ids.now }
    ensures distinct { IsDistinct nat_eq (keys_of stats.now.entries) }
{
    stats.keys().as_slice().starts_with(ids)
}

// Counts a period for each row, whose counters are at its number.
fn add_rows(
    stats: &mut IndexMap<u64, Stat>,
    slice_us: u64,
    rows: &[Row],
    base: &[Option<u64>],
    wants: &[u64],
    drawn: &[u64],
)
    requires distinct { IsDistinct nat_eq (keys_of stats.old.entries) }
    requires stats { length rows.now ≤ length stats.old.entries }
    requires base { length base.now ≡ length rows.now }
    requires wants { length wants.now ≡ length rows.now }
    requires drawn { length drawn.now ≡ length rows.now }
    ensures { stats.new.entries ≡ booked stats.old.entries
        (shares_of slice_us rows.now (keys_of stats.old.entries) base.now wants.now drawn.now) }
{
    for i in 0..rows.len() {
        let stat = &mut stats[i];
        add_period(stat, slice_us, &rows[i], base[i], wants[i], drawn[i]);
    }
}

// Counts a period for each row. The caller has reserved room for new groups.
fn book_rows(
    stats: &mut IndexMap<u64, Stat>,
    slice_us: u64,
    rows: &[Row],
    ids: &[u64],
    base: &[Option<u64>],
    wants: &[u64],
    drawn: &[u64],
)
    requires room { length rows.now ≤ spare stats.old }
    requires ids { length ids.now ≡ length rows.now }
    requires base { length base.now ≡ length rows.now }
    requires wants { length wants.now ≡ length rows.now }
    requires drawn { length drawn.now ≡ length rows.now }
    ensures { stats.new.entries ≡ booked stats.old.entries
        (shares_of slice_us rows.now ids.now base.now wants.now drawn.now) }
{
    for i in 0..rows.len() {
        book_row(
            stats, i, ids[i], slice_us, &rows[i], base[i], wants[i], drawn[i],
        );
    }
}

// Counts a period for one group. Its counters are mostly at `likely`, the number of its row, since
// a new group is the last.
fn book_row(
    stats: &mut IndexMap<u64, Stat>,
    likely: usize,
    id: u64,
    slice_us: u64,
    row: &Row,
    quota: Option<u64>,
    want: u64,
    drawn: u64,
)
    requires { 0 < spare stats.old }
    ensures entries { stats.new.entries
        ≡ with_share stats.old.entries id (share_of slice_us row.now quota want drawn) }
    ensures room { spare stats.old ≤ spare stats.new + 1 }
{
    if is_at(stats, likely, id) {
        let stat = &mut stats[likely];
        add_period(stat, slice_us, row, quota, want, drawn);
    } else {
        book_by_id(stats, id, slice_us, row, quota, want, drawn);
    }
}

// Counts a period for a group whose counters are looked up. Out of line, to keep the loop small.
#[inline(never)]
fn book_by_id(
    stats: &mut IndexMap<u64, Stat>,
    id: u64,
    slice_us: u64,
    row: &Row,
    quota: Option<u64>,
    want: u64,
    drawn: u64,
)
    requires { 0 < spare stats.old }
    ensures entries { stats.new.entries
        ≡ with_share stats.old.entries id (share_of slice_us row.now quota want drawn) }
    ensures room { spare stats.old ≤ spare stats.new + 1 }
{
    let stat = stats.entry(id).unwrap().or_insert(or_zeros(None));
    add_period(stat, slice_us, row, quota, want, drawn);
}

// Whether the counters at a place belong to this group.
fn is_at(stats: &IndexMap<u64, Stat>, place: usize, id: u64) -> bool
    ensures { result ≡ true → position (nat_eq id) (keys_of stats.now.entries) ≡ Some place }
{
    match stats.as_slice().get_index(place) {
        None => false,
        Some((key, _stat)) => *key == id,
    }
}

fn or_zeros(stat: Option<Stat>) -> Stat
    ensures { result ≡ or_zeros stat }
{
    match stat {
        None => Stat {
            usage_usec: 0,
            nr_periods: 0,
            nr_throttled: 0,
            throttled_usec: 0,
            nr_bursts: 0,
            burst_usec: 0,
        },
        Some(stat) => stat,
    }
}

// Slices that a group drew above its quota, 0 for the root (sched-bwc.rst, "Statistics").
fn burst(row: &Row, quota: Option<u64>, drawn: u64) -> u64
    ensures { result ≡ burst row.now.parent quota drawn }
{
    match (row.parent, quota) {
        (Some(_), Some(quota)) => drawn.saturating_sub(quota),
        _ => 0,
    }
}

// Counts a throttled period if any slices were withheld. Counters saturate.
fn add_withheld(stat: &mut Stat, slices: u64, slice_us: u64)
    ensures { stat.new ≡ record stat.old {
      nr_throttled = cut (stat.old.nr_throttled + periods_if (nat_lt 0 slices));
      throttled_usec = cut (stat.old.throttled_usec + slices * slice_us);
    } }
{
    let Stat {
        nr_throttled,
        throttled_usec,
        ..
    } = *stat;
    if slices > 0 {
        stat.nr_throttled = nr_throttled.saturating_add(1);
        stat.throttled_usec = throttled_usec.saturating_add(slices.saturating_mul(slice_us));
    }
}

// Adds the slices that a group drew, and counts a burst if any were above its quota. A group that
// drew nothing keeps its usage and its bursts. Counters saturate.
fn add_drawn(stat: &mut Stat, slice_us: u64, row: &Row, quota: Option<u64>, drawn: u64)
    ensures { stat.new ≡ record stat.old {
      usage_usec = cut (stat.old.usage_usec + drawn * slice_us);
      nr_bursts =
          cut (stat.old.nr_bursts + periods_if (nat_lt 0 (burst row.now.parent quota drawn)));
      burst_usec = cut (stat.old.burst_usec + burst row.now.parent quota drawn * slice_us);
    } }
{
    let Stat {
        usage_usec,
        nr_bursts,
        burst_usec,
        ..
    } = *stat;
    if drawn > 0 {
        stat.usage_usec = usage_usec.saturating_add(drawn.saturating_mul(slice_us));
        let above = burst(row, quota, drawn);
        if above > 0 {
            stat.nr_bursts = nr_bursts.saturating_add(1);
            stat.burst_usec = burst_usec.saturating_add(above.saturating_mul(slice_us));
        }
    }
}

/// Adds one period to the counters of a group, whose want and draw are in slices.
///
/// `quota` is in slices, without what the group carried in.
pub fn add_period(
    stat: &mut Stat,
    slice_us: u64,
    row: &Row,
    quota: Option<u64>,
    want: u64,
    drawn: u64,
)
    ensures { stat.new ≡ added stat.old (share_of slice_us row.now quota want drawn) }
{
    let withheld = withheld_slices(row, want);
    stat.nr_periods = stat.nr_periods.saturating_add(1);
    add_withheld(stat, withheld, slice_us);
    add_drawn(stat, slice_us, row, quota, drawn);
}
