//! Rows whose weights follow one number that an owner sets.
ghost use Rattle.std.specs.Prelude.{◌≡◌, ◌<◌, ◌≤◌, length, slice_index, IfSome, IfNone};
ghost use Rattle.bw_model.specs.declared.limits.TheConstants.{MIN_WEIGHT, MAX_WEIGHT};
ghost use Rattle.bw_settings.specs.Following.{follows_of, number_at, IsWeightBy, IsUntold};

use bw_owned::{WeightFormula, owned_weight};

/// Ways in which weights of rows follow one number that an owner sets, by column: one entry in
/// each for each row.
#[derive(Clone, Copy)]
pub struct Following<'a> {
    /// The number of the formula that makes the row's weight. The weight stays where no formula has
    /// the number.
    pub formulas: &'a [u32],
    /// The least number that the row has.
    pub floors: &'a [u64],
    /// The part of the row's number beside the owner's.
    pub bases: &'a [u64],
}

impl<'a> Following<'a> {
    // The number of a row: the owner's and what is beside it, and no less than its floor.
    fn number_at(&self, h: usize, number: u64) -> u64
        requires floors { h < length self.now.floors.now }
        requires bases { h < length self.now.bases.now }
        ensures { result ≡ number_at (follows_of self.now) number h }
    {
        self.bases[h].saturating_add(number).max(self.floors[h])
    }

    /// The weight of a row for an owner's number. None: logarithms do not tell it.
    pub(crate) fn weight_at(&self, h: usize, standing: u64, number: u64) -> Option<u64>
        requires formulas { h < length self.now.formulas.now }
        requires floors { h < length self.now.floors.now }
        requires bases { h < length self.now.bases.now }
        requires in_range { (MIN_WEIGHT ≤ standing) × (standing ≤ MAX_WEIGHT) }
        ensures some { IfSome result (IsWeightBy standing (slice_index self.now.formulas.now h)
            (number_at (follows_of self.now) number h)) }
        ensures none { IfNone result IsUntold }
        ensures range { IfSome result (λ weight. (MIN_WEIGHT ≤ weight) × (weight ≤ MAX_WEIGHT)) }
    {
        match WeightFormula::of_number(self.formulas[h]) {
            Some(formula) => owned_weight(formula, self.number_at(h, number)),
            None => Some(standing),
        }
    }
}
