//! Laws about certificates of an instance's amounts, each the contract of a function that does
//! nothing.
ghost use Rattle.std.specs.Prelude.{◌≡◌, ◌↔◌, ℕ, List};
ghost use Rattle.bw_model.specs.Certificate.{certified_of, AreBounds, IsAccepted, IsCertified};
ghost use Rattle.bw_model.specs.Plan.{IsPlan};
ghost use Rattle.bw_check.specs.Verdict.{AreFree};

use bw_model::{Certificate, Instance};

/// Amounts with an accepted certificate are the plan, and no other amounts are.
pub fn one_plan(instance: &Instance, amounts: &[u64], certificate: &Certificate, others: &[u64])
    requires certified { IsAccepted instance.now amounts.now (certified_of certificate.now) }
    requires plan { IsPlan instance.now others.now }
    ensures same { amounts.now ≡ others.now }
{
    let _rows = instance.rows();
}

/// Amounts are certified if and only if no group has a fault, under the bounds that the flags give.
pub fn free_is_accepted(instance: &Instance, amounts: &[u64], certificate: &Certificate)
    ensures { (bounds : List ℕ) → AreBounds instance.now (certified_of certificate.now) bounds →
        AreFree instance.now amounts.now (certified_of certificate.now) bounds
        ↔ IsCertified instance.now amounts.now (certified_of certificate.now) bounds }
{
    let _rows = instance.rows();
}
