//! Amounts of pods: the most that their containers take at once.
ghost use Rattle.std.specs.Prelude.{◌≡◌, ◌<◌, length, slice_index, slice_set, IfSome, IfNone};
ghost use Rattle.bw_owned.specs.Pods.{of_sidecar, of_init, of_lasting, IsPodAmount};
ghost use Rattle.bw_owned.specs.Pods.{IsGreatestPart, HasNoRoom};

/// The number of the kind of an init container, which ends before the next part starts.
pub const INIT_CONTAINER: u8 = 1;

/// The number of the kind of a sidecar, which starts in turn and runs on.
pub const SIDECAR: u8 = 2;

// The amount of a sidecar, and 0 of a part of another kind.
fn of_sidecar(kind: u8, amount: u64) -> u64
    ensures { result ≡ of_sidecar kind amount }
{
    if kind == SIDECAR { amount } else { 0 }
}

// The amount of an init container, and 0 of a part of another kind.
fn of_init(kind: u8, amount: u64) -> u64
    ensures { result ≡ of_init kind amount }
{
    if kind == INIT_CONTAINER { amount } else { 0 }
}

// The amount of a sidecar or container, which lasts, and 0 of an init container.
fn of_lasting(kind: u8, amount: u64) -> u64
    ensures { result ≡ of_lasting kind amount }
{
    if kind == INIT_CONTAINER { 0 } else { amount }
}

// The amount of a part, and for one part another amount.
fn amount_at(amounts: &[u64], part: usize, own: u64, k: usize) -> u64
    requires { k < length amounts.now }
    ensures { result ≡ slice_index (slice_set amounts.now part own) k }
{
    if k == part { own } else { amounts[k] }
}

// The amount of a pod in which one part has another amount.
fn amount_with(kinds: &[u8], amounts: &[u64], part: usize, own: u64) -> u128
    requires one_each { length kinds.now ≡ length amounts.now }
    ensures amount { IsPodAmount kinds.now (slice_set amounts.now part own) result }
{
    let (mut sidecars, mut most, mut lasting) = (0u128, 0u128, 0u128);
    for k in 0..amounts.len() {
        let amount = amount_at(amounts, part, own, k);
        let starting = sidecars + u128::from(of_init(kinds[k], amount));
        most = most.max(starting);
        lasting += u128::from(of_lasting(kinds[k], amount));
        sidecars += u128::from(of_sidecar(kinds[k], amount));
    }
    most.max(lasting)
}

/// The amount of a pod: the most that it takes at any time, of a request, a limit or a resource.
///
/// `kinds` and `amounts` are those of its parts in the order in which they start: 1 for an init
/// container, 2 for a sidecar, and any other number for a container. Amounts are of any one unit.
pub fn pod_amount(kinds: &[u8], amounts: &[u64]) -> u128
    requires one_each { length kinds.now ≡ length amounts.now }
    ensures amount { IsPodAmount kinds.now amounts.now result }
{
    amount_with(kinds, amounts, amounts.len(), 0)
}

/// The greatest amount of one part with which a pod takes no more than some room.
///
/// Kinds and amounts are those of [`pod_amount`]. None says that the other parts alone take more.
/// 64 amounts are tried.
pub fn greatest_part(kinds: &[u8], amounts: &[u64], part: usize, room: u64) -> Option<u64>
    requires one_each { length kinds.now ≡ length amounts.now }
    requires part { part < length amounts.now }
    ensures some { IfSome result (IsGreatestPart kinds.now amounts.now part room) }
    ensures none { IfNone result (HasNoRoom kinds.now amounts.now part room) }
{
    let most = u128::from(room);
    if amount_with(kinds, amounts, part, 0) > most {
        return None;
    }
    let (mut low, mut high) = (0u64, u64::MAX);
    while low < high {
        let middle = high - (high - low) / 2;
        if amount_with(kinds, amounts, part, middle) > most {
            high = middle - 1;
        } else {
            low = middle;
        }
    }
    Some(low)
}
