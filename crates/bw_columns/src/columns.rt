//! The rows of a tree that a caller gives, by column.
ghost use Rattle.std.specs.Prelude.{◌≡◌, ◌<◌, length, IfOk, true};
ghost use Rattle.bw_columns.specs.Asked.{table_of, parent_in, limit_in, row_in, rows_in, are_even};
ghost use Rattle.bw_columns.specs.Asked.{limit_number};

use bw_model::Row;
use std::alloc::{AllocError, Global};

/// The number for no parent.
pub const NO_PARENT: u32 = 4_294_967_295;

/// The number for no limit.
pub const NO_LIMIT: u64 = 18_446_744_073_709_551_615;

/// Columns of the rows of a tree, one entry in each for each row.
#[derive(Clone, Copy)]
pub struct Columns<'a> {
    /// The row of each parent, [`NO_PARENT`] for none.
    pub parents: &'a [u32],
    /// Weights of 1 to 10,000.
    pub weights: &'a [u64],
    /// Limits in slices of one period, [`NO_LIMIT`] for none.
    pub limits: &'a [u64],
    /// Demands in slices of one period.
    pub demands: &'a [u64],
}

pub(crate) fn parent_of(number: u32) -> Option<u32>
    ensures { result ≡ parent_in number }
{
    if number == NO_PARENT {
        None
    } else {
        Some(number)
    }
}

/// The limit that a number gives: none if it is [`NO_LIMIT`].
pub(crate) fn limit_of(number: u64) -> Option<u64>
    ensures { result ≡ limit_in number }
{
    if number == NO_LIMIT {
        None
    } else {
        Some(number)
    }
}

/// The number of a limit, [`NO_LIMIT`] for none.
pub fn limit_number(limit: Option<u64>) -> u64
    ensures { result ≡ limit_number limit }
{
    limit.unwrap_or(NO_LIMIT)
}

impl<'a> Columns<'a> {
    /// The columns that follow a call's host.
    pub fn new(
        parents: &'a [u32],
        weights: &'a [u64],
        limits: &'a [u64],
        demands: &'a [u64],
    ) -> Columns<'a>
        ensures { result ≡ record {
          parents = parents.entry;
          weights = weights.entry;
          limits = limits.entry;
          demands = demands.entry;
        } }
    {
        Columns {
            parents,
            weights,
            limits,
            demands,
        }
    }

    /// Whether the columns are of one length.
    pub fn are_even(&self) -> bool
        ensures { result ≡ are_even (table_of self.now) }
    {
        let count = self.parents.len();
        self.weights.len() == count && self.limits.len() == count && self.demands.len() == count
    }

    /// The number of entries of the first column.
    pub fn len(&self) -> usize
        ensures { result ≡ length self.now.parents.now }
    {
        self.parents.len()
    }

    /// Row g of the columns.
    pub fn row(&self, g: usize) -> Row
        requires even { are_even (table_of self.now) ≡ true }
        requires within { g < length self.now.parents.now }
        ensures { result ≡ row_in (table_of self.now) g }
    {
        Row {
            parent: parent_of(self.parents[g]),
            weight: self.weights[g],
            limit: limit_of(self.limits[g]),
            demand: self.demands[g],
        }
    }

    /// The rows of columns of one length.
    ///
    /// # Errors
    /// `AllocError` if an allocation failed.
    pub fn rows(&self, alloc: Global) -> Result<Vec<Row>, AllocError>
        requires { are_even (table_of self.now) ≡ true }
        ensures { IfOk result (λ rows. rows.items ≡ rows_in (table_of self.now)) }
    {
        let mut rows = Vec::with_capacity(alloc, self.parents.len())?;
        for g in 0..self.parents.len() {
            rows.push(self.row(g))?;
        }
        Ok(rows)
    }
}
