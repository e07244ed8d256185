//! The leaves of the plan, and their clocks.
ghost use Rattle.std.specs.Prelude.{◌≡◌, ◌<◌, ◌+◌, ◌*◌, ◌/◌, IfOk, if◌then◌else◌};
ghost use Rattle.std.specs.List.{All};
ghost use Rattle.dispatch.specs.Rule.{new_leaf, has_tasks, is_behind, waits_behind, level, at_most};
ghost use Rattle.dispatch.specs.Rule.{settled, greatest, number, lifted, leaf_ended};
ghost use Rattle.dispatch.specs.Reservation.{leaves_of};

use crate::events::Refusal;
use crate::reservation::Account;

/// A leaf of the plan: its amount, and what it has and had. Its clock is `charged` over `amount`.
#[derive(Clone, Copy, Debug, PartialEq)]
pub struct Leaf {
    /// Planned amount, above 0, in any unit that all leaves share.
    pub amount: u64,
    /// Time charged, in nanoseconds: a slice at each pick, less what the task did not use of it.
    pub charged: u64,
    /// Time used by runs that have ended, in nanoseconds.
    pub used: u64,
    /// Number of tasks that wait for a processor.
    pub waiting: u64,
    /// Number of tasks that run.
    pub running: u64,
}

impl Leaf {
    /// A leaf of this amount, before its first task.
    pub fn new(amount: u64) -> Leaf
        ensures { result ≡ new_leaf amount }
    {
        Leaf {
            amount,
            charged: 0,
            used: 0,
            waiting: 0,
            running: 0,
        }
    }

    /// Whether a task of the leaf waits or runs.
    pub fn has_tasks(&self) -> bool
        ensures { result ≡ has_tasks self.now }
    {
        self.waiting > 0 || self.running > 0
    }

    /// The charge, without a slice for each task that still runs.
    pub fn settled(&self, slice: u64) -> u64
        ensures { result ≡ settled slice self.now }
    {
        let in_advance = u128::from(slice) * u128::from(self.running);
        u128::from(self.charged).saturating_sub(in_advance) as u64
    }

    // Whether the other leaf has the lesser clock. No product is above 128 bits.
    fn is_behind(&self, other: &Leaf) -> bool
        ensures { result ≡ is_behind self.now other.now }
    {
        let theirs = u128::from(other.charged) * u128::from(self.amount);
        let mine = u128::from(self.charged) * u128::from(other.amount);
        theirs < mine
    }

    /// Whether the other leaf has a waiting task, and the lesser clock.
    pub fn waits_behind(&self, other: &Leaf) -> bool
        ensures { result ≡ waits_behind self.now other.now }
    {
        other.waiting > 0 && self.is_behind(other)
    }
}

// The lesser of a charge and another, if there is another.
fn at_most(known: Option<u128>, charge: u128) -> u128
    ensures { result ≡ at_most known charge }
{
    match known {
        Some(other) => other.min(charge),
        None => charge,
    }
}

// The clock of all, as a charge to a leaf of this amount: the least clock of the leaves that have
// tasks. Slices that are charged in advance do not count.
fn level(slice: u64, accounts: &[Account], amount: u64) -> Option<u128>
    requires { All (λ a. 0 < a.share.amount) accounts.now }
    ensures { result ≡ level slice amount (leaves_of accounts.now) }
{
    let mut least = None;
    for account in accounts {
        let leaf = account.seen_leaf();
        if leaf.has_tasks() {
            let settled = u128::from(leaf.settled(slice));
            let charge = u128::from(amount) * settled / u128::from(leaf.amount);
            least = Some(at_most(least, charge));
        }
    }
    least
}

// The clock of a leaf, as a charge to one of this amount.
fn charge_of(amount: u64, leaf: Leaf) -> u128
    requires { 0 < leaf.amount }
    ensures { result ≡ amount * leaf.charged / leaf.amount }
{
    u128::from(amount) * u128::from(leaf.charged) / u128::from(leaf.amount)
}

// The greatest clock of all leaves, as a charge to a leaf of this amount.
fn greatest(accounts: &[Account], amount: u64) -> u128
    requires { All (λ a. 0 < a.share.amount) accounts.now }
    ensures { result ≡ greatest amount (leaves_of accounts.now) }
{
    let mut greatest = 0u128;
    for account in accounts {
        greatest = greatest.max(charge_of(amount, account.seen_leaf()));
    }
    greatest
}

/// A number of 64 bits.
pub fn number(n: u128) -> Result<u64, Refusal>
    ensures value { result ≡ number n }
    ensures same { IfOk result (λ m. m ≡ n) }
{
    if n < 1 << 64 {
        Ok(n as u64)
    } else {
        Err(Refusal::TooGreat)
    }
}

/// The sum of two numbers, if it has 64 bits.
pub fn sum(one: u64, other: u64) -> Result<u64, Refusal>
    ensures value { result ≡ number (one + other) }
    ensures same { IfOk result (λ m. m ≡ one + other) }
{
    number(u128::from(one) + u128::from(other))
}

// The charge of a leaf whose first task wakes.
fn lifted(charged: u64, level: Option<u128>, greatest: u128) -> u128
    ensures { result ≡ lifted charged level greatest }
{
    match level {
        Some(level) => u128::from(charged).max(level),
        None => u128::from(charged).max(greatest),
    }
}

/// The charge of a leaf after tasks of it wake.
pub fn charge_at_wake(slice: u64, accounts: &[Account], leaf: Leaf) -> u128
    requires { All (λ a. 0 < a.share.amount) accounts.now }
    ensures { result ≡ (if has_tasks leaf then leaf.charged
        else lifted leaf.charged (level slice leaf.amount (leaves_of accounts.now))
        (greatest leaf.amount (leaves_of accounts.now))) }
{
    if leaf.has_tasks() {
        u128::from(leaf.charged)
    } else {
        let level = level(slice, accounts, leaf.amount);
        lifted(leaf.charged, level, greatest(accounts, leaf.amount))
    }
}

/// The leaf after a task of it ends its run: what it did not use of the slice is given back.
///
/// # Errors
///
/// - [`Refusal::UnknownLeaf`] if there is no leaf.
/// - [`Refusal::TooGreat`] if a number would be above `u64::MAX`.
pub fn leaf_ended(slice: u64, used: u64, remains: bool, leaf: Option<Leaf>) -> Result<Leaf, Refusal>
    ensures { result ≡ leaf_ended slice used remains leaf }
{
    let leaf = leaf.ok_or(Refusal::UnknownLeaf)?;
    let spent = u128::from(leaf.charged) + u128::from(used);
    let charged = number(spent.saturating_sub(u128::from(slice)))?;
    let used = sum(leaf.used, used)?;
    let waiting = sum(leaf.waiting, u64::from(remains))?;
    Ok(Leaf {
        charged,
        used,
        waiting,
        running: leaf.running.saturating_sub(1),
        ..leaf
    })
}
