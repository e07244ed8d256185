//! Harm of limits: rounds under them serve less of the plan than rounds without.
ghost use Rattle.std.specs.Prelude.{◌≡◌, ◌≤◌};
ghost use Rattle.bw_owned.specs.Harm.{served_part, whole_plan, IsLost};

/// Greatest sum of slices of rounds.
pub const MOST_SLICES: u64 = 1_152_921_504_606_846_976;

/// Parts of a plan, of which rounds under limits may serve one less.
pub const PARTS: u64 = 20;

/// Slices of some rounds, each sum up to [`MOST_SLICES`].
#[derive(Clone, Copy, Debug, PartialEq, Eq)]
pub struct ServedSlices {
    /// Slices that groups used.
    pub used: u64,
    /// Slices that groups were planned.
    pub planned: u64,
}

// The slices of the plan that were served, and 1 of a plan of nothing.
fn served_part(slices: ServedSlices) -> u64
    ensures { result ≡ served_part slices }
{
    if slices.planned == 0 {
        1
    } else {
        slices.used.min(slices.planned)
    }
}

// The slices of the plan, and 1 of a plan of nothing.
fn whole_plan(slices: ServedSlices) -> u64
    ensures { result ≡ whole_plan slices }
{
    slices.planned.max(1)
}

/// Slices that rounds under limits served too little: 0 where limits did no harm.
///
/// Limits do harm where a part of the plan is served that is more than a twentieth of the plan
/// below the part of the rounds without limits. With so many slices more they would do none.
pub fn lost_slices(free: ServedSlices, held: ServedSlices) -> u64
    requires free { (free.used ≤ MOST_SLICES) × (free.planned ≤ MOST_SLICES) }
    requires held { (held.used ≤ MOST_SLICES) × (held.planned ≤ MOST_SLICES) }
    ensures lost { IsLost free held result }
    ensures range { result ≤ MOST_SLICES }
{
    if held.planned == 0 {
        return 0;
    }
    let parts = u128::from(PARTS);
    let (part, whole) = (u128::from(served_part(free)), u128::from(whole_plan(free)));
    let planned = u128::from(held.planned);
    let least = (parts * part * planned).saturating_sub(whole * planned);
    let needed = least.div_ceil(parts * whole);
    needed.saturating_sub(u128::from(held.used)) as u64
}
