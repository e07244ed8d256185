//! The marks of a child against its parent's level.
ghost use Rattle.std.specs.Prelude.{◌≡◌, ◌*◌, ◌<◌, ◌≤◌, ◌↔◌, IsTrue, length, slice_index};
ghost use Rattle.bw_model.specs.Groups.{AreTreeRows, weight_of};
ghost use Rattle.bw_model.specs.Certificate.{certified_of};
ghost use Rattle.bw_model.specs.Marks.{price_of, IsBelow, IsAtMost};
ghost use Rattle.bw_check.specs.Counts.{ArePlaces};
ghost use Rattle.bw_check.specs.Levels.{level_above};
ghost use Rattle.bw_check.specs.Verdict.{AreOnePerRow, IsLastMarkKept, IsNextMarkKept};

use crate::readers::{parent, weight};
use bw_model::limits::MAX_CAPACITY;
use bw_model::{Certificate, Mark, Row, last_mark, next_mark};

// Whether a mark costs less than another, which puts it below whatever the places are.
fn costs_less(mark: Mark, other: Mark) -> bool
    ensures { IsTrue result ↔ mark.num * other.den < other.num * mark.den }
{
    u128::from(mark.num) * u128::from(other.den) < u128::from(other.num) * u128::from(mark.den)
}

// Whether a mark is below another. Mostly the costs tell.
fn is_below(mark: Mark, other: Mark) -> bool
    ensures { IsTrue result ↔ IsBelow (price_of mark) (price_of other) }
{
    costs_less(mark, other) || mark < other
}

// Whether a mark is at most another. Mostly the costs tell.
fn is_at_most(mark: Mark, other: Mark) -> bool
    ensures { IsTrue result ↔ IsAtMost (price_of mark) (price_of other) }
{
    costs_less(mark, other) || mark <= other
}

// The level of a child's parent, or None if the parent has no level or nothing to share out.
fn level_above(rows: &[Row], amounts: &[u64], certificate: &Certificate, c: u32) -> Option<Mark>
    requires tree { AreTreeRows rows.now }
    requires one_per_row { AreOnePerRow rows.now amounts.now (certified_of certificate.now) }
    requires within { c < length rows.now }
    ensures { result ≡ level_above rows.now amounts.now (certified_of certificate.now) c }
{
    match parent(rows, c) {
        None => None,
        Some(parent) => {
            if amounts[parent as usize] == 0 {
                None
            } else {
                certificate.levels[parent as usize]
            }
        }
    }
}

/// Whether the last mark of a child is at most its parent's level.
pub fn is_last_mark_kept(
    rows: &[Row],
    amounts: &[u64],
    certificate: &Certificate,
    places: &[u32],
    c: u32,
) -> bool
    requires tree { AreTreeRows rows.now }
    requires one_per_row { AreOnePerRow rows.now amounts.now (certified_of certificate.now) }
    requires places { ArePlaces rows.now (length rows.now) places.now }
    requires small { slice_index amounts.now c ≤ MAX_CAPACITY }
    requires within { c < length rows.now }
    requires weighed { 0 < weight_of rows.now c }
    ensures { IsTrue result ↔ IsLastMarkKept rows.now amounts.now (certified_of certificate.now) c }
{
    let amount = amounts[c as usize];
    match level_above(rows, amounts, certificate, c) {
        None => true,
        Some(level) => {
            let weight = weight(rows, c);
            let place = places[c as usize];
            amount == 0 || is_at_most(last_mark(amount, weight, place), level)
        }
    }
}

/// Whether the next mark of a child below its bound is above its parent's level.
pub fn is_next_mark_kept(
    rows: &[Row],
    amounts: &[u64],
    certificate: &Certificate,
    places: &[u32],
    bound: u128,
    c: u32,
) -> bool
    requires tree { AreTreeRows rows.now }
    requires one_per_row { AreOnePerRow rows.now amounts.now (certified_of certificate.now) }
    requires places { ArePlaces rows.now (length rows.now) places.now }
    requires small { slice_index amounts.now c ≤ MAX_CAPACITY }
    requires within { c < length rows.now }
    requires weighed { 0 < weight_of rows.now c }
    ensures { IsTrue result
        ↔ IsNextMarkKept rows.now amounts.now (certified_of certificate.now) bound c }
{
    let amount = amounts[c as usize];
    match level_above(rows, amounts, certificate, c) {
        None => true,
        Some(level) => {
            let weight = weight(rows, c);
            let place = places[c as usize];
            bound <= u128::from(amount) || is_below(level, next_mark(amount, weight, place))
        }
    }
}
