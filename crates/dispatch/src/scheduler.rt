//! The scheduler that is replayed: its state, and the events that the rule allows.
ghost use Rattle.std.specs.Prelude.{◌≡◌, ◌<◌, [], ◌++◌, ◌∷◌, OnOk, slice_get, Some, None, length};
ghost use Rattle.std.specs.Prelude.{replicate, map, true, if◌then◌else◌};
ghost use Rattle.std.specs.List.{list_all};
ghost use Rattle.dispatch.specs.Reservation.{terms_of, aged, least_clock, greatest_clock};
ghost use Rattle.dispatch.specs.Reservation.{level_now, lesser_clock, greater_clock, least_known};
ghost use Rattle.dispatch.specs.Steps.{allowed, happens, free_processor, run_of, new_account};
ghost use Rattle.dispatch.specs.Steps.{age_fits};
ghost use Rattle.dispatch.specs.Premises.{fits_host, is_fair, is_whole_at, lost_after};
ghost use Rattle.dispatch.specs.Groups.{inside_of, fitted, balanced, group_ended, group_after};
ghost use Rattle.dispatch.specs.Groups.{keeps_limit};

use crate::accounts::{
    account_cut, account_ended, account_given, account_left, account_picked, account_stopped,
    account_woken, all_owed_fit, new_account, paid_at, pass_all,
};
use crate::budget::{Group, balanced, kept, refilled};
use crate::events::Refusal;
use crate::premises::{
    all_busy, all_have_tasks, all_still, all_wait_beyond, all_within, fit_in, has_guarantee,
    is_whole,
};
use crate::reservation::{Account, Run, Step, Terms};
use std::alloc::{AllocError, Global};
use std::marker::Model;

/// The state of a scheduler that serves a plan: its terms, leaves, and what each processor runs.
#[derive(Drop)]
pub struct Scheduler {
    slice: u64,
    quantum: u32,
    slack: u32,
    credit: u32,
    level_charge: u64,
    level_amount: u64,
    accounts: Vec<Account>,
    processors: Vec<Option<Run>>,
}

impl Model for Scheduler {
    ghost use Rattle.dispatch.specs.Reservation.{Reservations};

    ghost Value = { Reservations };

    ghost use Rattle.dispatch.specs.Steps.{state_of, HasAmounts};

    ghost view = { state_of };

    ghost invariant = { HasAmounts };
}

// Whether the age of each run after so many nanoseconds has 64 bits.
fn all_ages_fit(ns: u64, processors: &[Option<Run>]) -> bool
    ensures { result ≡ list_all (age_fits ns) processors.now }
{
    processors.iter().all(|run| age_fits(ns, *run))
}

fn age_fits(ns: u64, run: Option<Run>) -> bool
    ensures { result ≡ age_fits ns run }
{
    match run {
        None => true,
        Some(run) => u128::from(run.age) + u128::from(ns) < 1 << 64,
    }
}

// The run after so many nanoseconds.
fn aged(ns: u64, run: Option<Run>) -> Option<Run>
    requires { age_fits ns run ≡ true }
    ensures { result ≡ aged ns run }
{
    match run {
        None => None,
        Some(run) => Some(Run {
            age: run.age + ns,
            ..run
        }),
    }
}

// Lets so many nanoseconds pass for each processor.
fn age_all(ns: u64, processors: &mut [Option<Run>])
    requires { list_all (age_fits ns) processors.old ≡ true }
    ensures { processors.new ≡ map (aged ns) processors.old }
{
    for run in processors.iter_mut() {
        *run = aged(ns, *run);
    }
}

// The lesser of two clocks, each a charge and an amount.
fn lesser_clock(one: (u64, u64), other: (u64, u64)) -> (u64, u64)
    ensures { result ≡ lesser_clock one other }
{
    let theirs = u128::from(other.0) * u128::from(one.1);
    let mine = u128::from(one.0) * u128::from(other.1);
    if theirs < mine { other } else { one }
}

fn greater_clock(one: (u64, u64), other: (u64, u64)) -> (u64, u64)
    ensures { result ≡ greater_clock one other }
{
    let mine = u128::from(one.0) * u128::from(other.1);
    let theirs = u128::from(other.0) * u128::from(one.1);
    if mine < theirs { other } else { one }
}

fn least_known(known: Option<(u64, u64)>, clock: (u64, u64)) -> (u64, u64)
    ensures { result ≡ least_known known clock }
{
    match known {
        None => clock,
        Some(known) => lesser_clock(known, clock),
    }
}

// The least settled clock of the leaves that have tasks.
fn least_clock(slice: u64, accounts: &[Account]) -> Option<(u64, u64)>
    ensures { result ≡ least_clock None slice accounts.now }
{
    let mut least = None;
    for account in accounts {
        let leaf = account.seen_leaf();
        if leaf.has_tasks() {
            least = Some(least_known(least, (leaf.settled(slice), leaf.amount)));
        }
    }
    least
}

// The greatest clock of all leaves.
fn greatest_clock(accounts: &[Account]) -> (u64, u64)
    ensures { result ≡ greatest_clock (0, 1) accounts.now }
{
    let mut greatest = (0, 1);
    for account in accounts {
        greatest = greater_clock(greatest, (account.share.charged, account.share.amount));
    }
    greatest
}

// The clock of all.
fn level_now(slice: u64, accounts: &[Account]) -> (u64, u64)
    ensures { result ≡ level_now slice accounts.now }
{
    match least_clock(slice, accounts) {
        Some(clock) => clock,
        None => greatest_clock(accounts),
    }
}

impl Scheduler {
    /// A scheduler without slice, terms, leaves and processors.
    pub fn new(alloc: Global) -> Scheduler
        ensures { result ≡ record {
          slice = 0;
          quantum = 0;
          slack = 0;
          credit = 0;
          level = (0, 1);
          accounts = [];
          processors = [];
        } }
    {
        Scheduler {
            slice: 0,
            quantum: 0,
            slack: 0,
            credit: 0,
            level_charge: 0,
            level_amount: 1,
            accounts: Vec::new(alloc),
            processors: Vec::new(alloc),
        }
    }

    /// The slice in nanoseconds, 0 before it is set.
    pub fn slice(&self) -> u64
        ensures { result ≡ self.now.slice }
    {
        self.slice
    }

    /// The quantum in nanoseconds, 0 before the terms are set.
    pub fn quantum(&self) -> u32
        ensures { result ≡ self.now.quantum }
    {
        self.quantum
    }

    /// Number of leaves.
    pub fn leaf_count(&self) -> u64
        ensures { result ≡ length self.now.accounts }
    {
        self.accounts.len() as u64
    }

    /// Number of processors.
    pub fn processor_count(&self) -> u64
        ensures { result ≡ length self.now.processors }
    {
        self.processors.len() as u64
    }

    // The numbers that the rule goes by.
    fn terms(&self) -> Terms
        ensures { result ≡ terms_of self.now }
    {
        Terms {
            slice: self.slice,
            quantum: self.quantum,
            slack: self.slack,
            credit: self.credit,
            processors: self.processor_count(),
        }
    }

    /// Sets the slice in nanoseconds.
    pub fn set_slice(&mut self, slice: u64)
        ensures { self.new ≡ record self.old { slice = slice } }
    {
        self.slice = slice;
    }

    /// Sets quantum, slack and credit, in nanoseconds.
    pub fn set_terms(&mut self, quantum: u32, slack: u32, credit: u32)
        ensures { self.new ≡ record self.old { quantum = quantum; slack = slack; credit = credit } }
    {
        self.quantum = quantum;
        self.slack = slack;
        self.credit = credit;
    }

    /// Adds a leaf without tasks, of an amount above 0.
    ///
    /// # Errors
    ///
    /// `AllocError` if an allocation failed.
    pub fn add_leaf(
        &mut self,
        amount: u64,
        guarantee: u64,
        is_inside: bool,
    ) -> Result<(), AllocError>
        requires { 0 < amount }
        ensures { OnOk result (self.new ≡ record self.old {
          accounts = self.old.accounts
              ++ new_account (terms_of self.old) amount guarantee is_inside ∷ [];
        }) }
    {
        let account = new_account(self.terms(), amount, guarantee, is_inside);
        self.accounts.push(account)?;
        Ok(())
    }

    /// Sets the number of processors. All are free.
    ///
    /// # Errors
    ///
    /// `AllocError` if an allocation failed.
    pub fn set_processors(&mut self, alloc: Global, count: u64) -> Result<(), AllocError>
        ensures { OnOk result (self.new
            ≡ record self.old { processors = replicate count None }) }
    {
        self.processors = vec![in alloc; None; count as usize]?;
        Ok(())
    }

    // A leaf, if there is one of this number.
    fn account(&self, leaf: u64) -> Option<Account>
        ensures { result ≡ slice_get self.now.accounts leaf }
    {
        if leaf < self.leaf_count() {
            Some(self.accounts[leaf as usize])
        } else {
            None
        }
    }

    // Run of a processor, if it runs a task, and if there is a processor of this number.
    fn processor(&self, processor: u64) -> Option<Option<Run>>
        ensures { result ≡ slice_get self.now.processors processor }
    {
        if processor < self.processor_count() {
            Some(self.processors[processor as usize])
        } else {
            None
        }
    }

    // Whether a task may be picked for a processor.
    fn free_processor(&self, processor: u64) -> Result<(), Refusal>
        ensures { result ≡ free_processor (slice_get self.now.processors processor) }
    {
        match self.processor(processor) {
            None => Err(Refusal::UnknownProcessor),
            Some(Some(_)) => Err(Refusal::ProcessorBusy),
            Some(None) => Ok(()),
        }
    }

    // Run of a processor.
    fn run_of(&self, processor: u64) -> Result<Run, Refusal>
        ensures { result ≡ run_of (slice_get self.now.processors processor) }
    {
        match self.processor(processor) {
            None => Err(Refusal::UnknownProcessor),
            Some(None) => Err(Refusal::ProcessorIdle),
            Some(Some(run)) => Ok(run),
        }
    }

    /// Lets nanoseconds pass: the amounts that leaves are owed and the ages of runs rise.
    ///
    /// # Errors
    ///
    /// [`Refusal::TooGreat`] if a number would be above `u64::MAX`; the state is unchanged.
    pub fn pass(&mut self, ns: u64) -> Result<(), Refusal>
        ensures value { result ≡ allowed self.old (Step.Pass ns) }
        ensures state { self.new ≡ happens self.old (Step.Pass ns) }
    {
        let terms = self.terms();
        if !(all_owed_fit(terms, ns, &self.accounts) && all_ages_fit(ns, &self.processors)) {
            return Err(Refusal::TooGreat);
        }
        pass_all(terms, ns, &mut self.accounts);
        age_all(ns, &mut self.processors);
        Ok(())
    }

    /// Tasks of a leaf wake: this number of them. If the leaf had none, its clock is lifted to the
    /// clock of all, or to the greatest clock if no leaf had a task.
    ///
    /// # Errors
    ///
    /// The first refusal; the state is unchanged.
    pub fn wake(&mut self, leaf: u64, tasks: u64) -> Result<(), Refusal>
        ensures value { result ≡ allowed self.old (Step.Wake leaf tasks) }
        ensures state { self.new ≡ happens self.old (Step.Wake leaf tasks) }
    {
        let account = self.account(leaf);
        let woken = account_woken(self.terms(), &self.accounts, tasks, account)?;
        self.accounts[leaf as usize] = woken;
        Ok(())
    }

    /// A free processor takes a waiting task of a leaf: one that is due with the earliest deadline,
    /// or, if no leaf that waits is due, one with the least clock. Any of several may be taken that
    /// are equal in this.
    ///
    /// # Errors
    ///
    /// The first refusal; the state is unchanged.
    pub fn pick(&mut self, processor: u64, leaf: u64) -> Result<(), Refusal>
        ensures value { result ≡ allowed self.old (Step.Pick processor leaf) }
        ensures state { self.new ≡ happens self.old (Step.Pick processor leaf) }
    {
        self.free_processor(processor)?;
        let account = self.account(leaf);
        let picked = account_picked(self.terms(), &self.accounts, account)?;
        let paid = paid_at(self.terms(), account);
        self.accounts[leaf as usize] = picked;
        self.processors[processor as usize] = Some(Run { leaf, paid, age: 0 });
        Ok(())
    }

    /// The task on a processor ends its run. The processor is then free.
    ///
    /// # Errors
    ///
    /// The first refusal; the state is unchanged.
    pub fn end(&mut self, processor: u64, used: u64, remains: bool) -> Result<(), Refusal>
        ensures value { result ≡ allowed self.old (Step.End processor used remains) }
        ensures state { self.new ≡ happens self.old (Step.End processor used remains) }
    {
        let run = self.run_of(processor)?;
        let ended = account_ended(self.terms(), run, used, remains, self.account(run.leaf))?;
        self.accounts[run.leaf as usize] = ended;
        self.processors[processor as usize] = None;
        Ok(())
    }

    /// A new plan begins: the clock of all is noted.
    pub fn level(&mut self)
        ensures { self.new ≡ happens self.old Step.Level }
    {
        let (charge, amount) = level_now(self.slice, &self.accounts);
        self.level_charge = charge;
        self.level_amount = amount;
    }

    /// The new plan gives a leaf this amount and this guarantee. Its lead stays, and what it is
    /// owed.
    ///
    /// # Errors
    ///
    /// The first refusal; the state is unchanged.
    pub fn give(&mut self, leaf: u64, amount: u64, guarantee: u64) -> Result<(), Refusal>
        ensures value { result ≡ allowed self.old (Step.Give leaf amount guarantee) }
        ensures state { self.new ≡ happens self.old (Step.Give leaf amount guarantee) }
    {
        let level = (self.level_charge, self.level_amount);
        let given = account_given(self.terms(), level, amount, guarantee, self.account(leaf))?;
        self.accounts[leaf as usize] = given;
        Ok(())
    }

    /// A task of a leaf that waits leaves it.
    ///
    /// # Errors
    ///
    /// The first refusal; the state is unchanged.
    pub fn leave(&mut self, leaf: u64) -> Result<(), Refusal>
        ensures value { result ≡ allowed self.old (Step.Leave leaf) }
        ensures state { self.new ≡ happens self.old (Step.Leave leaf) }
    {
        let left = account_left(self.terms(), self.account(leaf))?;
        self.accounts[leaf as usize] = left;
        Ok(())
    }

    /// Cuts what a leaf is owed beyond its credit.
    ///
    /// # Errors
    ///
    /// The first refusal; the state is unchanged.
    pub fn cut(&mut self, leaf: u64) -> Result<(), Refusal>
        ensures value { result ≡ allowed self.old (Step.Cut leaf) }
        ensures state { self.new ≡ happens self.old (Step.Cut leaf) }
    {
        let cut = account_cut(self.terms(), self.account(leaf))?;
        self.accounts[leaf as usize] = cut;
        Ok(())
    }

    /// A limit stops a leaf, or stops it no longer.
    ///
    /// # Errors
    ///
    /// The first refusal; the state is unchanged.
    pub fn stop(&mut self, leaf: u64, stops: bool) -> Result<(), Refusal>
        ensures value { result ≡ allowed self.old (Step.Stop leaf stops) }
        ensures state { self.new ≡ happens self.old (Step.Stop leaf stops) }
    {
        let stopped = account_stopped(self.terms(), stops, self.account(leaf))?;
        self.accounts[leaf as usize] = stopped;
        Ok(())
    }

    /// Makes one event.
    ///
    /// # Errors
    ///
    /// The first refusal; the state is unchanged.
    pub fn step(&mut self, step: Step) -> Result<(), Refusal>
        ensures value { result ≡ allowed self.old step }
        ensures state { self.new ≡ happens self.old step }
    {
        match step {
            Step::Pass(ns) => self.pass(ns),
            Step::Wake { leaf, tasks } => self.wake(leaf, tasks),
            Step::Pick { processor, leaf } => self.pick(processor, leaf),
            Step::End {
                processor,
                used,
                remains,
            } => self.end(processor, used, remains),
            Step::Level => {
                self.level();
                Ok(())
            }
            Step::Give {
                leaf,
                amount,
                guarantee,
            } => self.give(leaf, amount, guarantee),
            Step::Leave(leaf) => self.leave(leaf),
            Step::Cut(leaf) => self.cut(leaf),
            Step::Stop { leaf, stops } => self.stop(leaf, stops),
            Step::Refill => Ok(()),
        }
    }

    /// Whether the host has room for the guarantees, and the slack is not above the credit.
    pub fn fits_host(&self) -> bool
        ensures { result ≡ fits_host self.now }
    {
        let room = 1_048_576 * u128::from(self.processor_count());
        self.processor_count() > 0 && (fit_in(room, &self.accounts) && !(self.credit < self.slack))
    }

    // Whether the premises hold at a pick of a leaf.
    fn picks_fairly(&self, processor: u64, leaf: u64) -> bool
        ensures { result ≡ is_fair self.now (Step.Pick processor leaf) }
    {
        all_wait_beyond(self.terms(), &self.accounts)
            && (all_have_tasks(&self.accounts) && is_whole(self.terms(), self.account(leaf)))
    }

    // Whether what the leaf that a processor runs is owed is not above the most.
    fn is_whole_at(&self, run: Option<Option<Run>>) -> bool
        ensures { result ≡ is_whole_at self.now run }
    {
        match run {
            Some(Some(run)) => is_whole(self.terms(), self.account(run.leaf)),
            _ => true,
        }
    }

    // Whether the premises hold at an end on a processor.
    fn ends_fairly(&self, processor: u64, used: u64, remains: bool) -> bool
        ensures { result ≡ is_fair self.now (Step.End processor used remains) }
    {
        all_within(self.quantum, 0, &self.processors) && self.is_whole_at(self.processor(processor))
    }

    // Whether the premises hold where a plan gives a leaf this guarantee.
    fn gives_fairly(&self, leaf: u64, amount: u64, guarantee: u64) -> bool
        ensures { result ≡ is_fair self.now (Step.Give leaf amount guarantee) }
    {
        let account = self.account(leaf);
        has_guarantee(guarantee, account) && is_whole(self.terms(), account)
    }

    /// Whether the premises of the law of windows hold at an event.
    pub fn is_fair(&self, step: Step) -> bool
        ensures { result ≡ is_fair self.now step }
    {
        match step {
            Step::Pass(ns) => all_within(self.quantum, ns, &self.processors),
            Step::Wake { leaf, .. } | Step::Leave(leaf) => {
                is_whole(self.terms(), self.account(leaf))
            }
            Step::Pick { processor, leaf } => self.picks_fairly(processor, leaf),
            Step::End {
                processor,
                used,
                remains,
            } => self.ends_fairly(processor, used, remains),
            Step::Give {
                leaf,
                amount,
                guarantee,
            } => self.gives_fairly(leaf, amount, guarantee),
            Step::Level | Step::Cut(_) | Step::Stop { .. } | Step::Refill => true,
        }
    }

    // The processors' time that was lost after so many nanoseconds.
    fn lost_after_pass(&self, lost: u64, ns: u64) -> u128
        ensures { result ≡ lost_after self.now lost (Step.Pass ns) }
    {
        if all_busy(&self.processors) {
            u128::from(lost)
        } else if all_still(&self.accounts) && all_wait_beyond(self.terms(), &self.accounts) {
            0
        } else {
            u128::from(lost) + u128::from(self.processor_count()) * u128::from(ns)
        }
    }

    /// The processors' time that was lost after an event, if so much was lost before it.
    pub fn lost_after(&self, lost: u64, step: Step) -> u128
        ensures { result ≡ lost_after self.now lost step }
    {
        match step {
            Step::Pass(ns) => self.lost_after_pass(lost, ns),
            _ => u128::from(lost),
        }
    }

    // Whether a leaf is inside the group with a limit.
    fn is_inside(&self, leaf: u64) -> bool
        ensures { result ≡ inside_of self.now leaf }
    {
        match self.account(leaf) {
            None => false,
            Some(account) => account.is_inside,
        }
    }

    // The group after a pick of a leaf.
    fn group_picked(&self, group: Group, leaf: u64) -> Option<Group>
        ensures { result ≡ fitted (if inside_of self.now leaf then balanced group self.now.slice 0
            else group) }
    {
        if self.is_inside(leaf) {
            balanced(group, self.slice, 0)
        } else {
            kept(group)
        }
    }

    // The group after the end of a run on a processor, which used so many nanoseconds.
    fn group_ended(&self, group: Group, used: u64, run: Option<Option<Run>>) -> Option<Group>
        ensures { result
            ≡ fitted (group_ended (inside_of self.now) self.now.slice used group run) }
    {
        match run {
            Some(Some(run)) => {
                if self.is_inside(run.leaf) {
                    balanced(group, used, self.slice)
                } else {
                    kept(group)
                }
            }
            Some(None) => kept(group),
            None => kept(group),
        }
    }

    /// The group with a limit after an event, if its numbers have 64 bits.
    pub fn group_after(&self, group: Group, step: Step) -> Option<Group>
        ensures { result ≡ fitted (group_after (inside_of self.now) self.now group step) }
    {
        match step {
            Step::Pick { leaf, .. } => self.group_picked(group, leaf),
            Step::End {
                processor,
                used,
                ..
            } => self.group_ended(group, used, self.processor(processor)),
            Step::Refill => refilled(group),
            _ => kept(group),
        }
    }

    /// Whether an event that the rule allows keeps the limit: a leaf inside is picked while
    /// something is left, and no run uses more than a quantum.
    pub fn keeps_limit(&self, group: Group, step: Step) -> bool
        ensures { result ≡ keeps_limit self.now group step }
    {
        match step {
            Step::Pick { leaf, .. } => !self.is_inside(leaf) || group.debt < group.left,
            Step::End { used, .. } => !(u64::from(self.quantum) < used),
            _ => true,
        }
    }
}
