//! A group with a limit: what it has left of it.
ghost use Rattle.std.specs.Prelude.{◌≡◌};
ghost use Rattle.dispatch.specs.Groups.{balanced, refilled, fitted};

/// A group with a limit, in nanoseconds.
#[derive(Clone, Copy, Debug, PartialEq)]
pub struct Group {
    /// Time of its leaves in a period at most, 0 if there is no such group.
    pub limit: u64,
    /// Part of that which it may keep for later periods.
    pub burst: u64,
    /// Time that it has left.
    pub left: u64,
    /// Time that was taken beyond what it had.
    pub debt: u64,
}

// The group with so much left and so much debt, if both have 64 bits.
fn fitted(group: Group, left: u128, debt: u128) -> Option<Group>
    ensures { result ≡ fitted (record group { left = left; debt = debt }) }
{
    if left < 1 << 64 && debt < 1 << 64 {
        Some(Group {
            left: left as u64,
            debt: debt as u64,
            ..group
        })
    } else {
        None
    }
}

/// The group as it is.
pub fn kept(group: Group) -> Option<Group>
    ensures { result ≡ fitted group }
{
    fitted(group, u128::from(group.left), u128::from(group.debt))
}

/// The group after so many nanoseconds are taken, and so many given back.
pub fn balanced(group: Group, taken: u64, back: u64) -> Option<Group>
    ensures { result ≡ fitted (balanced group taken back) }
{
    let has = u128::from(group.left) + u128::from(back);
    let lacks = u128::from(group.debt) + u128::from(taken);
    fitted(group, has.saturating_sub(lacks), lacks.saturating_sub(has))
}

/// The group in a new period: it has a limit more, but no more than a limit and the burst.
pub fn refilled(group: Group) -> Option<Group>
    ensures { result ≡ fitted (refilled group) }
{
    let has = u128::from(group.left) + u128::from(group.limit);
    let lacks = u128::from(group.debt);
    let most = u128::from(group.limit) + u128::from(group.burst);
    fitted(
        group,
        has.saturating_sub(lacks).min(most),
        lacks.saturating_sub(has),
    )
}
