//! Where the premises of the law of windows fail in a trace.
ghost use Rattle.std.specs.Prelude.{◌≡◌, ◌++◌, IfOk, OnOk, nat_lt};
ghost use Rattle.std.specs.Prelude.{if◌then◌else◌};
ghost use Rattle.std.specs.List.{list_all};
ghost use Rattle.dispatch.specs.Premises.{waits_beyond, has_tasks_for, is_still, is_busy};
ghost use Rattle.dispatch.specs.Premises.{is_within, has_guarantee, fit_in, one_more, told};
ghost use Rattle.dispatch.specs.Premises.{premises_of, premises_text, told_event};
ghost use Rattle.dispatch.specs.Premises.{unmet_text, events_text, first_text};
ghost use Rattle.dispatch.specs.Premises.{is_whole, told_step, passed_limit, told_limit};
ghost use Rattle.dispatch.specs.Premises.{passed_text, limit_text};

use crate::accounts::{credit, most, tasks};
use crate::budget::Group;
use crate::input::Input;
use crate::replay::follow;
use crate::reservation::{Account, Run, Step, Terms};
use crate::scheduler::Scheduler;
use bw_streams::put_number;
use bw_text::split_line;
use std::alloc::{AllocError, Global};

// A whole processor, as a guarantee.
const WHOLE: u64 = 1_048_576;

/// Numbers of a trace's events, and of those at which a premise fails.
#[derive(Clone, Copy, Debug, PartialEq)]
pub struct Premises {
    /// Whether the trace has terms: else it has no guarantees and no time.
    pub has_terms: bool,
    /// Number of events.
    pub events: u64,
    /// Number of events at which a premise fails.
    pub unmet: u64,
    /// Line of the first of them, from 1, or 0 if there is none.
    pub first: u64,
    /// Processors' time that was lost since no leaf waited, in nanoseconds.
    pub lost: u64,
    /// The group with a limit, if it has one.
    pub group: Group,
    /// Number of events at which the limit is passed.
    pub over: u64,
    /// Line of the first of them, from 1, or 0 if there is none.
    pub first_over: u64,
}

fn waits_beyond(terms: Terms, account: Account) -> bool
    ensures { result ≡ waits_beyond terms account }
{
    !(credit(terms, account) < u128::from(account.owed)) || account.ready() > 0
}

/// Whether each leaf that is owed more than its credit has a task that waits.
pub fn all_wait_beyond(terms: Terms, accounts: &[Account]) -> bool
    ensures { result ≡ list_all (waits_beyond terms) accounts.now }
{
    accounts.iter().all(|account| waits_beyond(terms, *account))
}

fn has_tasks_for(account: Account) -> bool
    ensures { result ≡ has_tasks_for account }
{
    !(account.ready() > 0) || !(tasks(account) * u128::from(WHOLE) < u128::from(account.guarantee))
}

/// Whether each leaf that waits has as many tasks as its guarantee has processors.
pub fn all_have_tasks(accounts: &[Account]) -> bool
    ensures { result ≡ list_all has_tasks_for accounts.now }
{
    accounts.iter().all(|account| has_tasks_for(*account))
}

fn is_still(account: Account) -> bool
    ensures { result ≡ is_still account }
{
    !(account.ready() > 0)
}

/// Whether no leaf has a task that waits.
pub fn all_still(accounts: &[Account]) -> bool
    ensures { result ≡ list_all is_still accounts.now }
{
    accounts.iter().all(|account| is_still(*account))
}

fn is_busy(run: Option<Run>) -> bool
    ensures { result ≡ is_busy run }
{
    match run {
        None => false,
        Some(_) => true,
    }
}

/// Whether each processor runs a task.
pub fn all_busy(processors: &[Option<Run>]) -> bool
    ensures { result ≡ list_all is_busy processors.now }
{
    processors.iter().all(|run| is_busy(*run))
}

fn is_within(quantum: u32, ns: u64, run: Option<Run>) -> bool
    ensures { result ≡ is_within quantum ns run }
{
    match run {
        None => true,
        Some(run) => !(u128::from(quantum) < u128::from(run.age) + u128::from(ns)),
    }
}

/// Whether each run takes no more than the quantum, also if this much time passes.
pub fn all_within(quantum: u32, ns: u64, processors: &[Option<Run>]) -> bool
    ensures { result ≡ list_all (is_within quantum ns) processors.now }
{
    processors.iter().all(|run| is_within(quantum, ns, *run))
}

/// Whether the leaf has this guarantee.
pub fn has_guarantee(guarantee: u64, account: Option<Account>) -> bool
    ensures { result ≡ has_guarantee guarantee account }
{
    match account {
        None => guarantee == 0,
        Some(account) => guarantee == account.guarantee,
    }
}

/// Whether the guarantees add up to this at most.
pub fn fit_in(room: u128, accounts: &[Account]) -> bool
    ensures { result ≡ fit_in room accounts.now }
{
    let mut room = room;
    for account in accounts {
        let guarantee = u128::from(account.guarantee);
        if room < guarantee {
            return false;
        }
        room -= guarantee;
    }
    true
}

fn one_more(n: u64) -> u64
    ensures { result ≡ one_more n }
{
    (u128::from(n) + 1).min(u128::from(u64::MAX)) as u64
}

/// Whether what the leaf is owed is not above the most.
pub fn is_whole(terms: Terms, account: Option<Account>) -> bool
    ensures { result ≡ is_whole terms account }
{
    match account {
        None => true,
        Some(account) => !(most(terms, account) < u128::from(account.owed)),
    }
}

// The premises so far, and those at an event.
fn told_event(premises: Premises, line: u64, holds: bool, lost: u64) -> Premises
    ensures { result ≡ told_event premises line holds lost }
{
    let events = one_more(premises.events);
    if holds {
        Premises {
            events,
            lost,
            ..premises
        }
    } else {
        Premises {
            events,
            unmet: one_more(premises.unmet),
            first: if premises.unmet == 0 {
                line
            } else {
                premises.first
            },
            lost,
            ..premises
        }
    }
}

// The time that is lost, or 0 if it is more than a quantum.
fn kept_lost(quantum: u32, lost: u128) -> u64
    ensures { result ≡ (if nat_lt quantum lost then 0 else lost) }
{
    if u128::from(quantum) < lost {
        0
    } else {
        lost as u64
    }
}

// The premises so far, and those at an event by which so much time is lost.
fn told_step(
    scheduler: &Scheduler,
    line: u64,
    premises: Premises,
    step: Step,
    lost: u128,
) -> Premises
    ensures { result ≡ told_step scheduler.now line premises step lost }
{
    let quantum = scheduler.quantum();
    let holds = scheduler.fits_host() && (scheduler.is_fair(step) && !(u128::from(quantum) < lost));
    told_event(premises, line, holds, kept_lost(quantum, lost))
}

// The group after an event that passes its limit.
fn passed_limit(premises: Premises, line: u64, group: Group) -> Premises
    ensures { result ≡ passed_limit premises line group }
{
    Premises {
        group,
        over: one_more(premises.over),
        first_over: if premises.over == 0 {
            line
        } else {
            premises.first_over
        },
        ..premises
    }
}

// The group after an event that keeps its limit or not. One whose numbers have no 64 bits has
// nothing from there on.
fn told_limit(premises: Premises, line: u64, keeps: bool, group: Option<Group>) -> Premises
    ensures { result ≡ told_limit premises line keeps group }
{
    match group {
        None => {
            let emptied = Group {
                left: 0,
                debt: 0,
                ..premises.group
            };
            passed_limit(premises, line, emptied)
        }
        Some(group) => {
            if keeps {
                Premises { group, ..premises }
            } else {
                passed_limit(premises, line, group)
            }
        }
    }
}

// The premises so far, and those at the input of a line.
fn told(scheduler: &Scheduler, line: u64, premises: Premises, input: Input) -> Premises
    ensures { result ≡ told scheduler.now line premises input }
{
    match input {
        Input::Event(step) => {
            let lost = scheduler.lost_after(premises.lost, step);
            let keeps = scheduler.keeps_limit(premises.group, step);
            let group = scheduler.group_after(premises.group, step);
            told_limit(
                told_step(scheduler, line, premises, step, lost),
                line,
                keeps,
                group,
            )
        }
        Input::Group { limit, burst } => Premises {
            group: Group {
                limit,
                burst,
                left: limit,
                debt: 0,
            },
            ..premises
        },
        Input::Terms { .. } => Premises {
            has_terms: true,
            ..premises
        },
        _ => premises,
    }
}

/// The premises at the events of a text, up to the first line that is refused.
///
/// # Errors
///
/// `AllocError` if an allocation failed.
#[tactic(auto, unfolding(crate::specs::Premises::premises_from))]
pub fn tell_premises(alloc: Global, text: &[u8]) -> Result<Premises, AllocError>
    ensures { IfOk result (λ p. p ≡ premises_of text.now) }
{
    let mut scheduler = Scheduler::new(alloc);
    let mut found = Premises {
        has_terms: false,
        events: 0,
        unmet: 0,
        first: 0,
        lost: 0,
        group: Group {
            limit: 0,
            burst: 0,
            left: 0,
            debt: 0,
        },
        over: 0,
        first_over: 0,
    };
    let mut line: u64 = 1;
    let mut rest = text;
    while let Some((words, next)) = split_line(rest) {
        let Ok(input) = Input::of_line(words) else {
            return Ok(found);
        };
        let after = told(&scheduler, line, found, input);
        if let Some(_) = follow(alloc, &mut scheduler, input)? {
            return Ok(found);
        }
        found = after;
        line += 1;
        rest = next;
    }
    Ok(found)
}

// Appends where the premises fail first, and at how many events.
fn put_first(premises: Premises, answer: &mut Vec<u8>) -> Result<(), AllocError>
    ensures { OnOk result (answer.new.items ≡ answer.old.items ++ first_text premises) }
{
    put_number(b"premises: fail first at line ", premises.first, answer)?;
    put_number(b", in all at ", premises.unmet, answer)
}

// Appends where the premises fail.
fn put_unmet(premises: Premises, answer: &mut Vec<u8>) -> Result<(), AllocError>
    ensures { OnOk result (answer.new.items ≡ answer.old.items ++ unmet_text premises) }
{
    put_first(premises, answer)?;
    put_events(b" of ", premises, answer)
}

// Appends the number of events.
fn put_events(words: &[u8], premises: Premises, answer: &mut Vec<u8>) -> Result<(), AllocError>
    ensures { OnOk result (answer.new.items ≡ answer.old.items ++ events_text words.now premises) }
{
    put_number(words, premises.events, answer)?;
    answer.extend_from_slice(b" events\n")?;
    Ok(())
}

/// Appends the line on the premises.
///
/// # Errors
///
/// `AllocError` if an allocation failed.
pub fn put_premises(premises: Premises, answer: &mut Vec<u8>) -> Result<(), AllocError>
    ensures { OnOk result (answer.new.items ≡ answer.old.items ++ premises_text premises) }
{
    if premises.unmet == 0 {
        put_events(b"premises: hold at each of ", premises, answer)
    } else {
        put_unmet(premises, answer)
    }
}

// Appends where the limit is passed first, and at how many events.
fn put_passed(premises: Premises, answer: &mut Vec<u8>) -> Result<(), AllocError>
    ensures { OnOk result (answer.new.items ≡ answer.old.items ++ passed_text premises) }
{
    put_number(b"limit: passed first at line ", premises.first_over, answer)?;
    put_number(b", in all at ", premises.over, answer)
}

/// Appends the line on the limit.
///
/// # Errors
///
/// `AllocError` if an allocation failed.
pub fn put_limit(premises: Premises, answer: &mut Vec<u8>) -> Result<(), AllocError>
    ensures { OnOk result (answer.new.items ≡ answer.old.items ++ limit_text premises) }
{
    if premises.over == 0 {
        put_events(b"limit: kept at each of ", premises, answer)
    } else {
        put_passed(premises, answer)?;
        put_events(b" of ", premises, answer)
    }
}
