//! Shares of the rest of a host beside a plan, by weights.
ghost use Rattle.std.specs.Prelude.{◌≡◌, ◌+◌, ◌*◌, ◌^◌, ◌<◌, ◌≤◌, length, slice_index, min};
ghost use Rattle.bw_owned.specs.Rest.{root_weight, weight_beside, beside, IsRestShare};

/// Greatest number of slices that a scheduler is told.
pub const MOST_TOLD: u64 = 1_000_000_000;

/// Weight of the tasks of a host's root, which are one group beside the others.
pub const ROOT_WEIGHT: u64 = 100;

/// The share of the rest of a host beside a plan, in slices.
#[derive(Clone, Copy, Debug, PartialEq, Eq)]
pub struct RestShare {
    /// Its amount, beside those of the leaves of the plan.
    pub amount: u64,
    /// Its guarantee, beside the slices of the planned groups.
    pub guarantee: u64,
}

// The weight of a root's tasks beside the last level.
fn root_weight(k: usize, levels: usize) -> u64
    requires { k < levels }
    ensures value { result ≡ root_weight k levels }
    ensures range { result ≤ ROOT_WEIGHT }
{
    if k + 1 == levels { ROOT_WEIGHT } else { 0 }
}

// The weights of all others at a level.
fn weight_beside(others: &[u64], k: usize) -> u128
    requires { k < length others.now }
    ensures value { result ≡ weight_beside others.now k }
    ensures range { result < 2 ^ 65 }
{
    u128::from(others[k]) + u128::from(root_weight(k, others.len()))
}

// The slices that others have by weights beside a group that has so many, rounded up.
fn beside(own: u64, others: u128, slices: u64) -> u128
    requires own { 0 < own }
    requires range { (others < 2 ^ 65) × (slices ≤ MOST_TOLD) }
    ensures value { result ≡ beside own others slices }
    ensures range { result < 2 ^ 96 }
{
    (others * u128::from(slices)).div_ceil(u128::from(own))
}

// The slices of the group above one that has so many, at most [`MOST_TOLD`].
fn above(own: u64, others: u128, slices: u64) -> u64
    requires own { 0 < own }
    requires range { (others < 2 ^ 65) × (slices ≤ MOST_TOLD) }
    ensures value { result ≡ min (slices + beside own others slices) MOST_TOLD }
    ensures range { (slices ≤ result) × (result ≤ MOST_TOLD) }
{
    let all = u128::from(slices) + beside(own, others, slices);
    all.min(u128::from(MOST_TOLD)) as u64
}

/// The share of the rest of a host beside a plan of so many slices, from weights up the tree.
///
/// `own` has the weight of the planned groups' top, then of each group above it but the root, and
/// `others` those of the groups beside each. 0 in `own` is an idle group, and counts as 1. Tasks of
/// the root are one group more beside the last ones. At each level others have their part by
/// weights of what the group has, rounded up, at most [`MOST_TOLD`] slices together. The amount is
/// what `planned` leaves of the slices, if that is more.
pub fn rest_share(slices: u64, planned: u64, own: &[u64], others: &[u64]) -> RestShare
    requires slices { slices ≤ MOST_TOLD }
    requires levels { length others.now ≡ length own.now }
    ensures { IsRestShare slices planned own.now others.now result }
{
    let mut whole = slices;
    for k in 0..own.len() {
        whole = above(own[k].max(1), weight_beside(others, k), whole);
    }
    let guarantee = whole - slices;
    RestShare {
        amount: guarantee.max(slices.saturating_sub(planned)),
        guarantee,
    }
}
