//! The events of a leaf with a guarantee.
ghost use Rattle.std.specs.Prelude.{◌≡◌, ◌<◌, ◌^◌, true, map};
ghost use Rattle.std.specs.List.{list_any, list_all, All};
ghost use Rattle.dispatch.specs.Rule.{number, waits_behind};
ghost use Rattle.dispatch.specs.Reservation.{quantum_in, tasks_of, rate_of, credit_in, most_in};
ghost use Rattle.dispatch.specs.Reservation.{passed_owed, passed_in, capped_owed, cut_in};
ghost use Rattle.dispatch.specs.Reservation.{cut_if_less, leaves_of, paid_in, settled_owed, moved};
ghost use Rattle.dispatch.specs.Reservation.{ready_in, seen_leaf, stopped_in};
ghost use Rattle.dispatch.specs.Steps.{new_account, is_due, ahead, back, is_earlier};
ghost use Rattle.dispatch.specs.Steps.{is_passed_over, owed_fits, account_woken, account_picked};
ghost use Rattle.dispatch.specs.Steps.{paid_at, account_ended, account_given, account_left};
ghost use Rattle.dispatch.specs.Steps.{account_cut, account_stopped};

use crate::events::Refusal;
use crate::leaves::{Leaf, charge_at_wake, leaf_ended, number, sum};
use crate::reservation::{Account, Run, Terms};

// A whole processor, as a guarantee.
const WHOLE: u64 = 1_048_576;

// The quantum, in 2^-20 ns.
fn quantum(terms: Terms) -> u64
    ensures { result ≡ quantum_in terms }
{
    WHOLE * u64::from(terms.quantum)
}

/// Number of tasks that wait or run.
pub fn tasks(account: Account) -> u128
    ensures { result ≡ tasks_of account }
{
    u128::from(account.share.waiting) + u128::from(account.share.running)
}

// Amount that the leaf is owed in each nanosecond.
fn rate(account: Account) -> u64
    ensures { result ≡ rate_of account }
{
    (tasks(account) * u128::from(WHOLE)).min(u128::from(account.guarantee)) as u64
}

/// Part of a guarantee that is kept while nobody wants it.
pub fn credit(terms: Terms, account: Account) -> u128
    ensures { result ≡ credit_in terms account }
{
    u128::from(quantum(terms)) + u128::from(account.guarantee) * u128::from(terms.credit)
}

/// The most that a leaf is owed.
pub fn most(terms: Terms, account: Account) -> u128
    ensures { result ≡ most_in terms account }
{
    let quanta = 2 * u128::from(terms.processors) * u128::from(quantum(terms));
    quanta + u128::from(account.guarantee) * u128::from(terms.credit)
}

/// A leaf of this amount and guarantee, without tasks.
pub fn new_account(terms: Terms, amount: u64, guarantee: u64, is_inside: bool) -> Account
    ensures { result ≡ new_account terms amount guarantee is_inside }
{
    Account {
        share: Leaf::new(amount),
        guarantee,
        owed: quantum(terms),
        is_stopped: false,
        is_inside,
    }
}

/// Amount that the leaf is owed after so many nanoseconds.
pub fn passed_owed(terms: Terms, ns: u64, account: Account) -> u128
    ensures { result ≡ passed_owed terms ns account }
{
    let owed = u128::from(account.owed);
    if tasks(account) == 0 || account.is_stopped {
        let gained = owed + u128::from(account.guarantee) * u128::from(ns);
        owed.max(gained.min(credit(terms, account)))
    } else {
        owed + u128::from(rate(account)) * u128::from(ns)
    }
}

// Whether what the leaf is owed then has 64 bits.
fn owed_fits(terms: Terms, ns: u64, account: Account) -> bool
    ensures { result ≡ owed_fits terms ns account }
{
    passed_owed(terms, ns, account) < 1 << 64
}

// The leaf after so many nanoseconds.
fn passed(terms: Terms, ns: u64, account: Account) -> Account
    requires { owed_fits terms ns account ≡ true }
    ensures { result ≡ passed_in terms ns account }
{
    let owed = passed_owed(terms, ns, account) as u64;
    Account { owed, ..account }
}

/// Whether what each leaf is owed after so many nanoseconds has 64 bits.
pub fn all_owed_fit(terms: Terms, ns: u64, accounts: &[Account]) -> bool
    ensures { result ≡ list_all (owed_fits terms ns) accounts.now }
{
    accounts
        .iter()
        .all(|account| owed_fits(terms, ns, *account))
}

/// Lets so many nanoseconds pass for each leaf.
pub fn pass_all(terms: Terms, ns: u64, accounts: &mut [Account])
    requires { list_all (owed_fits terms ns) accounts.old ≡ true }
    ensures { accounts.new ≡ map (passed_in terms ns) accounts.old }
{
    for account in accounts.iter_mut() {
        *account = passed(terms, ns, *account);
    }
}

// Amount that the leaf is owed, no more than the most.
fn capped_owed(terms: Terms, account: Account) -> u64
    ensures { result ≡ capped_owed terms account }
{
    u128::from(account.owed).min(most(terms, account)) as u64
}

// The leaf with no more than its credit.
fn cut(terms: Terms, account: Account) -> Account
    ensures { result ≡ cut_in terms account }
{
    let owed = u128::from(account.owed).min(credit(terms, account)) as u64;
    Account { owed, ..account }
}

// The leaf with what is beyond its credit cut, if its tasks can take less than before.
fn cut_if_less(terms: Terms, before: Account, account: Account) -> Account
    ensures { result ≡ cut_if_less terms before account }
{
    if rate(account) < rate(before) {
        cut(terms, account)
    } else {
        account
    }
}

// Whether the leaf is behind its guarantee by the slack.
fn is_due(terms: Terms, account: Account) -> bool
    ensures { result ≡ is_due terms account }
{
    let rate = rate(account);
    let slack = u128::from(rate) * u128::from(terms.slack);
    rate > 0 && !(u128::from(account.owed) < u128::from(quantum(terms)) + slack)
}

// The nanoseconds until a quantum more is owed, rounded up.
fn ahead(terms: Terms, account: Account) -> u128
    ensures { result ≡ ahead terms account }
{
    let rate = u128::from(rate(account).max(1));
    let lacks = (2 * u128::from(quantum(terms))).saturating_sub(u128::from(account.owed));
    (lacks + (rate - 1)) / rate
}

// The nanoseconds since it was owed, rounded down.
fn back(terms: Terms, account: Account) -> u128
    ensures { result ≡ back terms account }
{
    let rate = u128::from(rate(account).max(1));
    u128::from(account.owed).saturating_sub(2 * u128::from(quantum(terms))) / rate
}

// Whether the deadline of the other leaf is before that of this one.
fn is_earlier(terms: Terms, account: Account, other: Account) -> bool
    ensures { result ≡ is_earlier terms account other }
{
    let theirs = ahead(terms, other) + back(terms, account);
    theirs < ahead(terms, account) + back(terms, other)
}

// Whether the other leaf waits, is due, and goes before this one.
fn is_passed_over(terms: Terms, account: Account, other: Account) -> bool
    ensures { result ≡ is_passed_over terms account other }
{
    other.ready() > 0
        && (is_due(terms, other) && (!is_due(terms, account) || is_earlier(terms, account, other)))
}

// Whether a leaf that waits and is due goes before this one.
fn has_earlier(terms: Terms, accounts: &[Account], account: Account) -> bool
    ensures { result ≡ list_any (is_passed_over terms account) accounts.now }
{
    accounts
        .iter()
        .any(|other| is_passed_over(terms, account, *other))
}

// Whether a leaf that waits has a lesser clock than this one.
fn has_lesser(accounts: &[Account], account: Account) -> bool
    ensures { result ≡ list_any (λ b. waits_behind account.share (seen_leaf b)) accounts.now }
{
    accounts
        .iter()
        .any(|other| account.share.waits_behind(&other.seen_leaf()))
}

/// The leaf after tasks of it wake. If it had none, its clock is lifted as that of its share.
///
/// # Errors
///
/// - [`Refusal::UnknownLeaf`] if there is no leaf.
/// - [`Refusal::TooGreat`] if a number would be above `u64::MAX`.
pub fn account_woken(
    terms: Terms,
    accounts: &[Account],
    tasks: u64,
    account: Option<Account>,
) -> Result<Account, Refusal>
    requires { All (λ a. 0 < a.share.amount) accounts.now }
    ensures { result ≡ account_woken terms accounts.now tasks account }
{
    let account = account.ok_or(Refusal::UnknownLeaf)?;
    let leaf = account.share;
    let charged = number(charge_at_wake(terms.slice, accounts, leaf))?;
    let waiting = sum(leaf.waiting, tasks)?;
    Ok(Account {
        share: Leaf {
            charged,
            waiting,
            ..leaf
        },
        owed: capped_owed(terms, account),
        ..account
    })
}

// Payment of a pick in advance: a quantum, unless less is there.
fn paid(terms: Terms, account: Account) -> u64
    ensures { result ≡ paid_in terms account }
{
    capped_owed(terms, account).min(quantum(terms))
}

/// Payment of a pick in advance, and nothing if there is no leaf.
pub fn paid_at(terms: Terms, account: Option<Account>) -> u64
    ensures { result ≡ paid_at terms account }
{
    match account {
        None => 0,
        Some(account) => paid(terms, account),
    }
}

/// The leaf after a task of it is picked: a slice is charged, and a quantum paid.
///
/// # Errors
///
/// The first that applies:
/// - [`Refusal::UnknownLeaf`] if there is no leaf.
/// - [`Refusal::NothingWaits`] if no task of it waits, or a limit stops it.
/// - [`Refusal::NotEarliest`] if a leaf that waits and is due goes before it.
/// - [`Refusal::NotLeast`] if it is not due, and a leaf that waits has a lesser clock.
/// - [`Refusal::TooGreat`] if a number would be above `u64::MAX`.
pub fn account_picked(
    terms: Terms,
    accounts: &[Account],
    account: Option<Account>,
) -> Result<Account, Refusal>
    ensures { result ≡ account_picked terms accounts.now account }
{
    let account = account.ok_or(Refusal::UnknownLeaf)?;
    let leaf = account.share;
    if account.ready() == 0 {
        return Err(Refusal::NothingWaits);
    }
    if has_earlier(terms, accounts, account) {
        return Err(Refusal::NotEarliest);
    }
    if !is_due(terms, account) && has_lesser(accounts, account) {
        return Err(Refusal::NotLeast);
    }
    let charged = sum(leaf.charged, terms.slice)?;
    let running = sum(leaf.running, 1)?;
    Ok(Account {
        share: Leaf {
            charged,
            waiting: leaf.waiting - 1,
            running,
            ..leaf
        },
        owed: capped_owed(terms, account) - paid(terms, account),
        ..account
    })
}

// Amount owed after a run of this time, for which so much was paid.
fn settled_owed(quantum: u64, paid: u64, time: u128, owed: u64) -> u128
    requires { time < 2 ^ 84 }
    ensures { result ≡ settled_owed quantum paid time owed }
{
    let quantum = u128::from(quantum);
    let returned = quantum.saturating_sub(time).min(u128::from(paid));
    (u128::from(owed) + returned).saturating_sub(time.saturating_sub(quantum))
}

/// The leaf after a run of a task of it. What was not used of the quantum comes back, and what was
/// not used of the slice is not charged.
///
/// # Errors
///
/// - [`Refusal::UnknownLeaf`] if there is no leaf.
/// - [`Refusal::TooGreat`] if a number would be above `u64::MAX`.
pub fn account_ended(
    terms: Terms,
    run: Run,
    used: u64,
    remains: bool,
    account: Option<Account>,
) -> Result<Account, Refusal>
    ensures { result ≡ account_ended terms run used remains account }
{
    let account = account.ok_or(Refusal::UnknownLeaf)?;
    let share = leaf_ended(terms.slice, used, remains, Some(account.share))?;
    let time = u128::from(WHOLE) * u128::from(run.age);
    let capped = capped_owed(terms, account);
    let owed = number(settled_owed(quantum(terms), run.paid, time, capped))?;
    let settled = Account {
        share,
        owed,
        ..account
    };
    Ok(cut_if_less(terms, account, settled))
}

// The charge that stands as far before the level of the new amount as the old one did before the
// level of the old, but by no more than 32 slices.
fn moved(slice: u64, level: (u64, u64), charged: u64, old: u64, new: u64) -> u128
    ensures { result ≡ moved slice level charged old new }
{
    let charge = u128::from(level.0);
    let amount = u128::from(level.1.max(1));
    let before = charge * u128::from(old) / amount;
    let lead = u128::from(charged).saturating_sub(before);
    charge * u128::from(new) / amount + lead.min(32 * u128::from(slice))
}

/// The leaf after a new plan gives it this amount and this guarantee. Its lead over the level
/// stays, and so does what it is owed.
///
/// # Errors
///
/// - [`Refusal::UnknownLeaf`] if there is no leaf.
/// - [`Refusal::TooGreat`] if the amount is 0, or a number would be above `u64::MAX`.
pub fn account_given(
    terms: Terms,
    level: (u64, u64),
    amount: u64,
    guarantee: u64,
    account: Option<Account>,
) -> Result<Account, Refusal>
    ensures { result ≡ account_given terms level amount guarantee account }
{
    let account = account.ok_or(Refusal::UnknownLeaf)?;
    if amount == 0 {
        return Err(Refusal::TooGreat);
    }
    let leaf = account.share;
    let charged = number(moved(terms.slice, level, leaf.charged, leaf.amount, amount))?;
    Ok(Account {
        share: Leaf {
            charged,
            amount,
            ..leaf
        },
        guarantee,
        owed: capped_owed(terms, account),
        ..account
    })
}

/// The leaf after a task of it that waits has gone.
///
/// # Errors
///
/// - [`Refusal::UnknownLeaf`] if there is no leaf.
/// - [`Refusal::NothingWaits`] if no task of it waits.
pub fn account_left(terms: Terms, account: Option<Account>) -> Result<Account, Refusal>
    ensures { result ≡ account_left terms account }
{
    let account = account.ok_or(Refusal::UnknownLeaf)?;
    let leaf = account.share;
    if leaf.waiting == 0 {
        return Err(Refusal::NothingWaits);
    }
    let left = Account {
        share: Leaf {
            waiting: leaf.waiting - 1,
            ..leaf
        },
        owed: capped_owed(terms, account),
        ..account
    };
    Ok(cut_if_less(terms, account, left))
}

/// The leaf after what it is owed beyond its credit is cut.
///
/// # Errors
///
/// [`Refusal::UnknownLeaf`] if there is no leaf.
pub fn account_cut(terms: Terms, account: Option<Account>) -> Result<Account, Refusal>
    ensures { result ≡ account_cut terms account }
{
    let account = account.ok_or(Refusal::UnknownLeaf)?;
    Ok(cut(terms, account))
}

// The leaf after a limit stops it, or stops it no longer.
fn stopped(terms: Terms, stops: bool, account: Account) -> Account
    ensures { result ≡ stopped_in terms stops account }
{
    if stops {
        Account {
            is_stopped: true,
            ..cut(terms, account)
        }
    } else {
        Account {
            is_stopped: false,
            ..account
        }
    }
}

/// The leaf after a limit stops it, which cuts what it is owed to its credit, or after the limit
/// stops it no longer.
///
/// # Errors
///
/// [`Refusal::UnknownLeaf`] if there is no leaf.
pub fn account_stopped(
    terms: Terms,
    stops: bool,
    account: Option<Account>,
) -> Result<Account, Refusal>
    ensures { result ≡ account_stopped terms stops account }
{
    let account = account.ok_or(Refusal::UnknownLeaf)?;
    Ok(stopped(terms, stops, account))
}
