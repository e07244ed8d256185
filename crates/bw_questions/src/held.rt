//! Limits that hold the plan on a host, round by round, from what its groups used.
//!
//! A round reads what each leaf used and whether it would have used more. It plans these demands
//! and gives each leaf a limit, unless nobody lacks anything. Nothing is kept between rounds.
ghost use Rattle.std.specs.Prelude.{◌≡◌, length, IfOk};
ghost use Rattle.bw_model.specs.Plan.{IsPlan};
ghost use Rattle.bw_model.specs.Certificate.{certified_of, IsAccepted};
ghost use Rattle.bw_cert.specs.Levels.{AreTightFlags, AreLevels};
ghost use Rattle.bw_questions.specs.HeldRule.{IsRound, everyone, round_of};

mod asking;
mod calm;
mod laws;
mod leaf;
mod limits;
mod reading;
mod served;
mod tasks;
mod written;

pub(crate) use asking::everyone;
use asking::{demands_of, round_of};
use bw_cert::certify_gathered;
use bw_demand::gather_rows;
use bw_model::{Certificate, Instance};
use bw_plan::{plan, plan_rows};
use calm::is_calm;
pub use laws::{
    asked_is_admitted_as_planned, calm_holds_nobody, exact_readings_are_true,
    guarantee_is_admitted, limits_admit_the_plan, none_above_its_limit, none_below_its_guarantee,
    none_served_above_a_limit, none_served_below_its_guarantee, nothing_else_stays,
    plan_is_reached, plan_stays, wants_give_the_plan,
};
pub use leaf::{LeafTimes, leaf_reading};
use limits::limits_of;
pub use reading::{Reading, RoundTimes, reading_of};
pub use served::{Served, serve};
use std::alloc::{AllocError, Global};
pub use written::{can_be_written, weight_of_limit, written_quota};

/// The limits of a round, with the demands and the certified plan that they come from.
#[derive(Debug, Drop)]
pub struct Held {
    /// One limit per row, in slices: a leaf's limit for the next round, another group's own limit.
    pub limits: Vec<Option<u64>>,
    /// One demand per row, in slices: 0 to 1000000.
    pub demands: Vec<u64>,
    /// The plan of the demands: one amount per row, in slices.
    pub amounts: Vec<u64>,
    /// The certificate of the amounts.
    pub certificate: Certificate,
}

// The floors: what each group gets if each leaf asks for everything.
fn floors(alloc: Global, reading: &Instance) -> Result<Vec<u64>, AllocError>
    ensures plan { IfOk result (λ floors. IsPlan (everyone reading.now) floors.items) }
    ensures each { IfOk result
        (λ floors. length floors.items ≡ length reading.now.rows) }
{
    // its contract says that the reading is valid
    let _rows = reading.rows();
    let busy = everyone(alloc, reading)?;
    let planned = plan(alloc, &busy)?;
    Ok(planned.amounts)
}

/// The limits of the next round, from what each leaf used in the last one.
///
/// The demands of `reading` are what the leaves used, in slices rounded up. A flag tells for each
/// row whether it would have used more; those of groups with children are not read. If the plan
/// gives each leaf what it asks for or its own limit, each keeps its own limit or none. The time
/// grows with the number of rows.
///
/// # Errors
/// `AllocError` if memory was refused.
pub fn hold(alloc: Global, reading: &Instance, hungry: &[bool]) -> Result<Held, AllocError>
    requires { length hungry.now ≡ length reading.now.rows }
    ensures round { IfOk result (λ h. IsRound reading.now hungry.now h.demands.items h.amounts.items
        h.limits.items) }
    ensures certified { IfOk result (λ h. IsAccepted (round_of reading.now hungry.now)
        h.amounts.items (certified_of h.certificate)) }
    ensures flags { IfOk result
        (λ h. AreTightFlags (round_of reading.now hungry.now) (certified_of h.certificate)) }
    ensures levels { IfOk result
        (λ h. AreLevels (round_of reading.now hungry.now) h.amounts.items
        (certified_of h.certificate)) }
{
    let round = round_of(alloc, reading, hungry)?;
    let gathered = gather_rows(alloc, &round)?;
    let planned = plan_rows(alloc, &round, &gathered)?;
    let certificate = certify_gathered(alloc, &round, gathered, &planned)?;
    let amounts = planned.amounts;
    let calm = is_calm(&round, amounts.as_slice());
    let floors = floors(alloc, reading)?;
    let limits = limits_of(
        alloc,
        reading,
        calm,
        hungry,
        floors.as_slice(),
        amounts.as_slice(),
    )?;
    let demands = demands_of(alloc, &round)?;
    Ok(Held {
        limits,
        demands,
        amounts,
        certificate,
    })
}
