//! The pool as a machine.
ghost use Rattle.std.specs.Prelude.{◌≡◌, ℕ, ◌-◌, ◌<◌, ◌≤◌, length, slice_index, slice_index_or};
ghost use Rattle.std.specs.Prelude.{false, IfOk, None};
ghost use Rattle.std.specs.List.{AllByRecursion};
ghost use Rattle.bw_model.specs.Groups.{AreTreeRows, path_up, is_leaf};
ghost use Rattle.bw_model.specs.Host.{slices_per_processor};
ghost use Rattle.bw_pool.specs.Parents.{parents_of, bare_rows};
ghost use Rattle.bw_pool.specs.Pool.{IsSound, gave_back, least, raised, lowered, first_with};
ghost use Rattle.bw_pool.specs.Pool.{new_pool, refusal, leaf_refusal, group_refusal, state_after};
ghost use Rattle.bw_pool.specs.Pool.{reply_to, held_by};

use crate::calls::{PoolCall, PoolReply, Refusal, Short};
use bw_machine::Machine;
use bw_model::{Instance, Row};
use std::alloc::{AllocError, Global};
use std::marker::Model;
use std::snapshot::Snapshot;

/// The slices drawn in one period, their ceilings and their holders: the global pool of
/// sched-bwc.rst, from which each processor draws. The number of a seat is that of its processor.
///
/// Of each row the pool keeps the parent, and whether it is a leaf. `groups` is ghost state for the
/// contracts, which speak of the rows of the instance.
#[derive(Drop)]
pub struct SlicePool {
    processors: u32,
    per_processor: u64,
    groups: Snapshot<Instance>,
    parents: Vec<Option<u32>>,
    leaf: Vec<bool>,
    drawn: Vec<u64>,
    ceiling: Vec<u64>,
    by_processor: Vec<u64>,
    held: Vec<u64>,
}

impl Model for SlicePool {
    ghost use Rattle.bw_pool.specs.Pool.{PoolState};

    ghost Value = { PoolState };

    ghost use Rattle.bw_pool.specs.Pools.{pool_of, IsPool};

    ghost view = { pool_of };

    ghost invariant = { IsPool };
}

// The least of the bound and of what is left at the leaf and at each ancestor.
fn least_left(parents: &[Option<u32>], drawn: &[u64], ceiling: &[u64], leaf: u32, bound: u64) -> u64
    requires tree { AreTreeRows (bare_rows parents.now) }
    requires row { leaf < length parents.now }
    requires drawn { length drawn.now ≡ length parents.now }
    requires ceiling { length ceiling.now ≡ length parents.now }
    requires within { (g : ℕ) → slice_index drawn.now g ≤ slice_index ceiling.now g }
    ensures value { result ≡ least (λ g. slice_index ceiling.now g - slice_index drawn.now g)
        (path_up (bare_rows parents.now) leaf) bound }
    ensures room { AllByRecursion (λ g.
        result ≤ slice_index ceiling.now g - slice_index drawn.now g)
        (path_up (bare_rows parents.now) leaf) }
{
    let mut least = bound;
    let mut at = Some(leaf);
    while let Some(group) = at {
        // nothing further up is less
        if least == 0 {
            return 0;
        }
        let row = group as usize;
        least = least.min(ceiling[row] - drawn[row]);
        at = parents[row];
    }
    least
}

// Adds n at the leaf and at each ancestor. Each has at least n left.
fn raise(parents: &[Option<u32>], ceiling: &[u64], drawn: &mut [u64], leaf: u32, n: u64)
    requires tree { AreTreeRows (bare_rows parents.now) }
    requires row { leaf < length parents.now }
    requires one_each { length drawn.old ≡ length parents.now }
    requires ceiling { length ceiling.now ≡ length parents.now }
    requires within { (g : ℕ) → slice_index drawn.old g ≤ slice_index ceiling.now g }
    requires room { AllByRecursion (λ g.
        n ≤ slice_index ceiling.now g - slice_index drawn.old g)
        (path_up (bare_rows parents.now) leaf) }
    ensures { drawn.new ≡ raised (path_up (bare_rows parents.now) leaf) n drawn.old }
{
    if n == 0 {
        return;
    }
    let mut at = Some(leaf);
    while let Some(group) = at {
        let row = group as usize;
        drawn[row] += n;
        at = parents[row];
    }
}

// Subtracts n at the leaf and at each ancestor. Each has drawn at least n.
fn lower(parents: &[Option<u32>], drawn: &mut [u64], leaf: u32, n: u64)
    requires tree { AreTreeRows (bare_rows parents.now) }
    requires row { leaf < length parents.now }
    requires one_each { length drawn.old ≡ length parents.now }
    requires enough { AllByRecursion (λ g. n ≤ slice_index drawn.old g)
        (path_up (bare_rows parents.now) leaf) }
    ensures { drawn.new ≡ lowered (path_up (bare_rows parents.now) leaf) n drawn.old }
{
    let mut at = Some(leaf);
    while let Some(group) = at {
        let row = group as usize;
        drawn[row] -= n;
        at = parents[row];
    }
}

// The group nearest the leaf that has exactly `got` left, or else the processor.
fn nearest_with(
    parents: &[Option<u32>],
    drawn: &[u64],
    ceiling: &[u64],
    leaf: u32,
    got: u64,
) -> Short
    requires tree { AreTreeRows (bare_rows parents.now) }
    requires row { leaf < length parents.now }
    requires drawn { length drawn.now ≡ length parents.now }
    requires ceiling { length ceiling.now ≡ length parents.now }
    requires within { (g : ℕ) → slice_index drawn.now g ≤ slice_index ceiling.now g }
    ensures { result ≡ first_with (λ g. slice_index ceiling.now g - slice_index drawn.now g) got
        (path_up (bare_rows parents.now) leaf) }
{
    let mut at = Some(leaf);
    while let Some(group) = at {
        let row = group as usize;
        if ceiling[row] - drawn[row] == got {
            return Short::Group(group);
        }
        at = parents[row];
    }
    Short::Processor
}

// The parent of each row.
fn parents_of(alloc: Global, rows: &[Row]) -> Result<Vec<Option<u32>>, AllocError>
    ensures { IfOk result (λ v. v.items ≡ parents_of rows.now) }
{
    rows.iter().map(|row| row.parent).collect(alloc)
}

// For each row, whether it is a leaf.
fn leaf_flags(alloc: Global, instance: &Instance, rows: u32) -> Result<Vec<bool>, AllocError>
    requires { rows ≡ length instance.now.rows }
    ensures len { IfOk result (λ v. length v.items ≡ rows) }
    ensures flags { IfOk result (λ v. (g : ℕ) → g < rows →
        slice_index_or v.items g false ≡ is_leaf instance.now.rows g) }
{
    let mut flags = Vec::with_capacity(alloc, rows as usize)?;
    for group in 0..rows {
        flags.push(instance.is_leaf(group))?;
    }
    Ok(flags)
}

impl SlicePool {
    /// A pool with nothing drawn or held. `amounts` are the ceilings, in slices, one for each row.
    /// No call on the pool allocates.
    ///
    /// # Errors
    ///
    /// - `AllocError`: an allocation failed.
    pub fn new(alloc: Global, instance: &Instance, amounts: &[u64]) -> Result<SlicePool, AllocError>
        requires { length amounts.now ≡ length instance.now.rows }
        ensures { IfOk result (λ pool. pool ≡
            new_pool instance.now.shape.processors (slices_per_processor instance.now.shape)
            instance.now.rows amounts.now) }
    {
        let shape = instance.shape();
        let processors = shape.processors() as u32;
        let groups = instance.rows();
        let count = groups.len();
        let parents = parents_of(alloc, groups)?;
        let leaf = leaf_flags(alloc, instance, count as u32)?;
        let drawn = vec![in alloc; 0; count]?;
        let ceiling = Vec::from_slice(alloc, amounts)?;
        let by_processor = vec![in alloc; 0; processors as usize]?;
        let held = vec![in alloc; 0; processors as usize * count]?;
        Ok(SlicePool {
            processors,
            per_processor: shape.per_processor(),
            groups: Snapshot::of(instance),
            parents,
            leaf,
            drawn,
            ceiling,
            by_processor,
            held,
        })
    }

    /// The slices drawn by each group and the groups below it.
    pub fn all_drawn(&self) -> &[u64]
        ensures value { result.now ≡ self.now.drawn }
        ensures sound { IsSound self.now }
    {
        self.drawn.as_slice()
    }

    /// The slices drawn by each group and the groups below it. Consumes the pool.
    pub fn into_drawn(self) -> Vec<u64>
        ensures { result.items ≡ self.drawn }
    {
        self.drawn
    }

    /// The slices drawn by a group and the groups below it.
    pub fn drawn(&self, group: u32) -> u64
        requires { group < length self.now.rows }
        ensures { result ≡ slice_index self.now.drawn group }
    {
        self.drawn[group as usize]
    }

    /// The ceiling of a group in slices.
    pub fn ceiling(&self, group: u32) -> u64
        requires { group < length self.now.rows }
        ensures { result ≡ slice_index self.now.ceiling group }
    {
        self.ceiling[group as usize]
    }

    /// The slices that the seat of a processor has drawn and not given back, 0 to 1000.
    pub fn by_processor(&self, processor: u32) -> u64
        requires { processor < self.now.processors }
        ensures { result ≡ slice_index self.now.by_processor processor }
    {
        self.by_processor[processor as usize]
    }

    /// The slices that a seat holds of a leaf, or 0 if there is no such seat or row.
    pub fn held(&self, seat: u32, leaf: u32) -> u64
        ensures { result ≡ held_by self.now seat leaf }
    {
        if seat < self.processors && (leaf as usize) < self.parents.len() {
            self.held[seat as usize * self.parents.len() + leaf as usize]
        } else {
            0
        }
    }

    fn group_refusal(&self, group: u32) -> Option<Refusal>
        ensures { result ≡ group_refusal self.now group }
    {
        if (group as usize) < self.parents.len() {
            None
        } else {
            Some(Refusal::NoGroup)
        }
    }

    fn leaf_refusal(&self, leaf: u32, n: u64) -> Option<Refusal>
        ensures { result ≡ leaf_refusal self.now leaf n }
    {
        if (leaf as usize) < self.parents.len() {
            if self.leaf[leaf as usize] {
                if n == 0 { Some(Refusal::ZeroAsk) } else { None }
            } else {
                Some(Refusal::NotLeaf)
            }
        } else {
            Some(Refusal::NoGroup)
        }
    }

    fn refusal(&self, seat: u32, call: &PoolCall) -> Option<Refusal>
        ensures { result ≡ refusal self.now seat call.now }
    {
        match *call {
            PoolCall::Draw { leaf, ask } => {
                if seat < self.processors {
                    self.leaf_refusal(leaf, ask)
                } else {
                    Some(Refusal::NoProcessor)
                }
            }
            PoolCall::GiveBack { leaf, n } => self.leaf_refusal(leaf, n),
            PoolCall::Lower { group, .. } => self.group_refusal(group),
            PoolCall::Look { group } => self.group_refusal(group),
        }
    }

    // Draws the least of `ask` and of what is left at the leaf, its ancestors and the processor.
    fn draw(&mut self, seat: u32, leaf: u32, ask: u64) -> PoolReply
        requires { refusal self.old seat (PoolCall.Draw leaf ask) ≡ None }
        ensures state { self.new ≡ state_after self.old seat (PoolCall.Draw leaf ask) }
        ensures reply { result ≡ reply_to self.old seat (PoolCall.Draw leaf ask) }
    {
        let processor = seat as usize;
        let bound = ask.min(self.per_processor - self.by_processor[processor]);
        let got = least_left(&self.parents, &self.drawn, &self.ceiling, leaf, bound);
        let short = if got == ask {
            None
        } else {
            Some(nearest_with(&self.parents, &self.drawn, &self.ceiling, leaf, got))
        };
        raise(&self.parents, &self.ceiling, &mut self.drawn, leaf, got);
        self.by_processor[processor] += got;
        let place = processor * self.parents.len() + leaf as usize;
        self.held[place] += got;
        PoolReply::Granted { got, short }
    }

    // Subtracts n at the leaf, its ancestors, the processor and the seat's holding.
    fn take_back(&mut self, seat: u32, leaf: u32, n: u64)
        requires may { leaf_refusal self.old leaf n ≡ None }
        requires held { n ≤ held_by self.old seat leaf }
        ensures { self.new ≡ gave_back self.old seat leaf n }
    {
        let processor = seat as usize;
        lower(&self.parents, &mut self.drawn, leaf, n);
        self.by_processor[processor] -= n;
        let place = processor * self.parents.len() + leaf as usize;
        self.held[place] -= n;
    }

    // Gives back n slices, if the seat holds as many of the leaf.
    fn give_back(&mut self, seat: u32, leaf: u32, n: u64) -> PoolReply
        requires { refusal self.old seat (PoolCall.GiveBack leaf n) ≡ None }
        ensures state { self.new ≡ state_after self.old seat (PoolCall.GiveBack leaf n) }
        ensures reply { result ≡ reply_to self.old seat (PoolCall.GiveBack leaf n) }
    {
        let held = self.held(seat, leaf);
        if n > held {
            return PoolReply::NotHeld { held };
        }
        self.take_back(seat, leaf, n);
        PoolReply::Returned
    }

    // Lowers the ceiling of a group, but not below what is drawn.
    fn lower_ceiling(&mut self, group: u32, to: u64) -> PoolReply
        requires { group_refusal self.old group ≡ None }
        ensures state { (seat : ℕ) →
            self.new ≡ state_after self.old seat (PoolCall.Lower group to) }
        ensures reply { (seat : ℕ) → result ≡ reply_to self.old seat (PoolCall.Lower group to) }
    {
        let row = group as usize;
        let ceiling = self.ceiling[row].min(to.max(self.drawn[row]));
        self.ceiling[row] = ceiling;
        PoolReply::Lowered { ceiling }
    }

    fn look(&self, group: u32) -> PoolReply
        requires { group_refusal self.now group ≡ None }
        ensures { (seat : ℕ) → result ≡ reply_to self.now seat (PoolCall.Look group) }
    {
        PoolReply::Drawn {
            n: self.drawn[group as usize],
            ceiling: self.ceiling[group as usize],
        }
    }
}

impl Machine for SlicePool {
    ghost use Rattle.bw_pool.specs.Pool.{after as pool_after, answer as pool_answer};
    ghost use Rattle.std.proofs.Common.{rules};

    type Call = PoolCall;

    type Reply = PoolReply;

    ghost after = { pool_after };

    ghost answer = { pool_answer };

    fn step(&mut self, seat: u32, call: &PoolCall) -> PoolReply {
        if let Some(refusal) = self.refusal(seat, call) {
            return PoolReply::Refused(refusal);
        }
        match *call {
            PoolCall::Draw { leaf, ask } => self.draw(seat, leaf, ask),
            PoolCall::GiveBack { leaf, n } => self.give_back(seat, leaf, n),
            PoolCall::Lower { group, to } => self.lower_ceiling(group, to),
            PoolCall::Look { group } => self.look(group),
        }
    }

    ghost calls_agree = { Prim.search rules };

    ghost replies_agree = { Prim.search rules };
}
