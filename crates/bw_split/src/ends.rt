//! Distances of the two ends of a search from the amount, for its next guess.
ghost use Rattle.std.specs.Prelude.{◌≤◌};

use crate::limits::GREATEST_LEVEL;
use bw_model::limits::MAX_CAPACITY;

/// Distances of the two ends of a search from the amount, in slices.
///
/// A guess by both ends is the false position. If an end stays twice, its distance counts less in
/// the next guess, so that it moves too: the Pegasus form.
#[derive(Clone, Copy)]
pub(crate) struct Ends {
    // The slices of the amount above what the children take at the lower end.
    rest: u64,
    // The slices above the amount that they take at the upper end: an estimate until it was tested.
    over: u64,
    // Both distances as they count in the next guess.
    rest_counts: u64,
    over_counts: u64,
    upper_tested: bool,
    lower_moved_last: bool,
    // The tests in a row, up to the last one, that found a total that an end had already.
    repeats: u64,
}

// The distance of an end that stayed, in the next guess: less, by the ratio at which the other
// end's distance fell.
fn weakened(distance: u64, before: u64, now: u64) -> u64 {
    distance.saturating_mul(before) / before.saturating_add(now).max(1)
}

// The number of repeats in a row, after one more or none.
fn counted_on(repeats: u64, again: bool) -> u64 {
    if again { repeats.saturating_add(1) } else { 0 }
}

// The slices that the children take over a distance in steps, if they take them half as fast as
// before.
fn half_as_fast(distance: u64, steps: u64, gained: u64) -> u64 {
    distance / (steps.saturating_mul(2) / gained.max(1)).max(1)
}

impl Ends {
    /// The ends before the first test: level 0, and an upper end with an estimate.
    pub(crate) fn new(amount: u64, over: u64) -> Ends {
        Ends {
            rest: amount,
            over,
            rest_counts: amount,
            over_counts: over,
            upper_tested: false,
            lower_moved_last: false,
            repeats: 0,
        }
    }

    /// Number of tests in a row, up to the last one, that told nothing new.
    pub(crate) fn repeats(&self) -> u64 {
        self.repeats
    }

    /// The level at which the amount lies if the total grows evenly between two levels.
    pub(crate) fn even_guess(&self, level: u64, above: u64) -> u64
        requires apart { level ≤ above }
        requires in_range { above ≤ GREATEST_LEVEL }
        ensures { result ≤ above }
    {
        let rest = self.rest_counts.min(MAX_CAPACITY);
        let share = rest.saturating_add(self.over_counts).max(1);
        (level + (above - level) * rest / share).min(above)
    }

    /// The upper end is now at a level at which the children take so many slices above the amount.
    pub(crate) fn after_lowering(&self, over: u64) -> Ends {
        let rest_counts = if self.upper_tested && !self.lower_moved_last {
            weakened(self.rest_counts, self.over_counts, over)
        } else {
            self.rest_counts
        };
        Ends {
            rest: self.rest,
            over,
            rest_counts,
            over_counts: over,
            upper_tested: true,
            lower_moved_last: false,
            repeats: counted_on(self.repeats, self.upper_tested && over == self.over),
        }
    }

    /// The lower end has moved up by a number of steps, to a distance below the upper end, and so
    /// many slices of the amount are left there.
    ///
    /// An upper end that was not tested gets a new estimate, from the slices that were gained.
    /// Children that reach their maxima take no more, so it reckons with half as many.
    pub(crate) fn after_raising(&self, rest: u64, steps: u64, distance: u64) -> Ends {
        let over_counts = if !self.upper_tested {
            half_as_fast(distance, steps, self.rest.saturating_sub(rest))
        } else if self.lower_moved_last {
            weakened(self.over_counts, self.rest_counts, rest)
        } else {
            self.over_counts
        };
        Ends {
            rest,
            over: self.over,
            rest_counts: rest,
            over_counts,
            upper_tested: self.upper_tested,
            lower_moved_last: true,
            repeats: counted_on(self.repeats, rest == self.rest),
        }
    }
}
