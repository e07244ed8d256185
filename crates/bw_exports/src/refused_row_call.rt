//! `arbiter_refused_row`: the row that a refusal of rows speaks of, called from C.
ghost use Rattle.std.specs.Prelude.{◌≡◌, ◌⊎◌, ◌<◌, length, true, Some};
ghost use Rattle.bw_model.specs.declared.instance_fault.InstanceFault.{InstanceFault};
ghost use Rattle.bw_model.specs.Refusal.{refusal};
ghost use Rattle.bw_columns.specs.Asked.{asked_table, rows_in, are_even};
ghost use Rattle.bw_columns.specs.RefusedRow.{IsRefusedRow};
ghost use Rattle.bw_exports.specs.RefusedRow.{rows_number};

use bw_columns::{Columns, Refusal, refused_row};
use bw_model::InstanceFault;

/// The number with which every call refuses these rows, and the row that the number speaks of.
///
/// The answer is 0 if the rows are refused by none of 4 to 10. Otherwise `row` is the first row
/// with the fault:
///
/// - 4: row 16384, the first that is too many.
/// - 5: the first row with a parent where it may have none, or with none before it.
/// - 6, 7, 9: the first row whose weight, depth or demand is out of range.
/// - 8: the parent of the first row whose parent has a demand.
/// - 10: row 0.
///
/// `row` is unchanged if the answer is 0 or 50, or if there are no rows. Allocates nothing.
///
/// # Errors
/// The answer is 50 if the columns differ in length.
#[unsafe(no_mangle)]
pub extern "C" fn arbiter_refused_row(
    parents: &[u32],
    weights: &[u64],
    limits: &[u64],
    demands: &[u64],
    row: &mut u32,
) -> u32
    ensures number { result ≡
        rows_number (asked_table parents.now weights.now limits.now demands.now) }
    ensures row { (fault : InstanceFault)
        → are_even (asked_table parents.now weights.now limits.now demands.now) ≡ true
        → refusal (rows_in (asked_table parents.now weights.now limits.now demands.now))
        ≡ Some fault
        → 0 < length parents.now
        → IsRefusedRow (rows_in (asked_table parents.now weights.now limits.now demands.now)) fault
        row.new }
    ensures kept { ((result ≡ 0) ⊎ ((result ≡ 50) ⊎ (length parents.now ≡ 0)))
        → row.new ≡ row.old }
{
    let columns = Columns::new(parents, weights, limits, demands);
    if !columns.are_even() {
        return Refusal::WrongLength.number();
    }
    if columns.len() == 0 {
        return Refusal::Instance(InstanceFault::BadParent).number();
    }
    match refused_row(&columns) {
        Some((fault, g)) => {
            *row = g;
            Refusal::Instance(fault).number()
        }
        None => 0,
    }
}
