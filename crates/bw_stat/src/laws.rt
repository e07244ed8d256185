//! Laws about the counters after any list of calls: contracts of functions with an empty body.
ghost use Rattle.std.specs.Prelude.{ℕ, List, Option, nat_eq};
ghost use Rattle.std.specs.List.{IsDistinct};
ghost use Rattle.bw_model.specs.declared.row.Row.{Row};
ghost use Rattle.bw_stat.specs.Books.{shares_of};
ghost use Rattle.bw_stat.specs.Counters.{Call, CountersAreSums, HasOneEach};

/// Law: any list of calls from new books leaves the saturating sums over the booked periods.
///
/// Each sum is cut to the greatest number of 64 bits. A group that was forgotten has no counters.
pub fn counters_are_sums()
    ensures { (calls : List Call) → CountersAreSums calls }
{}

/// Law: one call of `book` counts one share for each group, the premise of `counters_are_sums`.
pub fn has_one_each()
    ensures { (slice_us : ℕ) (rows : List Row) (ids : List ℕ) (base : List (Option ℕ))
        (wants drawn : List ℕ) → IsDistinct nat_eq ids
        → HasOneEach (shares_of slice_us rows ids base wants drawn) }
{}
