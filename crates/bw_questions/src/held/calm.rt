//! Whether a round is calm: nobody lacks anything.
ghost use Rattle.std.specs.Prelude.{◌≡◌, ◌↔◌, ◌≤◌, length, IsTrue};
ghost use Rattle.bw_questions.specs.HeldRule.{IsCalm, asked_within};

use bw_model::{Instance, Row};

// Whether a row is given all that it asks for, or its own limit.
fn is_given(row: &Row, amount: u64) -> bool
    ensures { IsTrue result ↔ (asked_within row.now ≤ amount) }
{
    let asked = match row.limit {
        None => row.demand,
        Some(own) => row.demand.min(own),
    };
    asked <= amount
}

/// Whether the plan of a round gives each leaf all that it asks for, or its own limit.
pub(crate) fn is_calm(round: &Instance, amounts: &[u64]) -> bool
    requires { length amounts.now ≡ length round.now.rows }
    ensures { IsTrue result ↔ IsCalm round.now amounts.now }
{
    for g in 0..round.rows().len() {
        if round.is_leaf(g as u32) && !is_given(&round.row(g as u32), amounts[g]) {
            return false;
        }
    }
    true
}
