//! The replay of a trace: whether the rule allows each of its events.
ghost use Rattle.std.specs.Prelude.{◌≡◌, ◌++◌, None, IfOk, OnOk};
ghost use Rattle.dispatch.specs.Replay.{fault_of, event_fault, input_fault, input_after, is_out};
ghost use Rattle.dispatch.specs.Replay.{picks_in, finding_of, finding_text, reason, fault_text};
ghost use Rattle.dispatch.specs.Replay.{status_of};

use crate::events::Refusal;
use crate::fault::InputFault;
use crate::input::Input;
use crate::limits::{MAX_AMOUNT, MAX_PROCESSORS, MAX_SLICE_NS, MAX_TERM_NS};
use crate::reservation::Step;
use crate::scheduler::Scheduler;
use bw_streams::{put_last_word, put_number, put_refusal};
use bw_text::split_line;
use std::alloc::{AllocError, Global};

/// Why a line is refused.
#[derive(Clone, Copy, Debug, PartialEq)]
pub enum LineFault {
    /// It is no line of a trace, or does not fit those before it.
    Bad(InputFault),
    /// The rule does not allow its event.
    NotAllowed(Refusal),
}

/// The finding on a trace.
#[derive(Clone, Copy, Debug, PartialEq)]
pub enum Finding {
    /// The rule allows each event. So many of them are picks.
    Allowed { picks: u64 },
    /// The first line that is refused, from 1.
    Refused { line: u64, fault: LineFault },
}

fn fault_of(refusal: Refusal) -> LineFault
    ensures { result ≡ fault_of refusal }
{
    match refusal {
        Refusal::UnknownLeaf | Refusal::UnknownProcessor => LineFault::Bad(InputFault::NotFound),
        Refusal::TooGreat => LineFault::Bad(InputFault::BadField),
        _ => LineFault::NotAllowed(refusal),
    }
}

fn event_fault(made: Result<(), Refusal>) -> Option<LineFault>
    ensures { result ≡ event_fault made }
{
    match made {
        Ok(()) => None,
        Err(refusal) => Some(fault_of(refusal)),
    }
}

// Whether a number is not from 1 to the most.
fn is_out(most: u64, n: u64) -> bool
    ensures { result ≡ is_out most n }
{
    n == 0 || most < n
}

// Makes the processors.
fn set_processors(
    alloc: Global,
    scheduler: &mut Scheduler,
    count: u64,
) -> Result<Option<LineFault>, AllocError>
    ensures { IfOk result (λ f. (f ≡ input_fault scheduler.old (Input.Processors count))
        × (f ≡ None → scheduler.new ≡ input_after scheduler.old (Input.Processors count))) }
{
    if scheduler.processor_count() > 0 {
        return Ok(Some(LineFault::Bad(InputFault::BadLine)));
    }
    if is_out(MAX_PROCESSORS, count) {
        return Ok(Some(LineFault::Bad(InputFault::BadField)));
    }
    scheduler.set_processors(alloc, count)?;
    Ok(None)
}

// Sets the slice.
fn set_slice(scheduler: &mut Scheduler, slice: u64) -> Option<LineFault>
    ensures fault { result ≡ input_fault scheduler.old (Input.Slice slice) }
    ensures state { result ≡ None
        → scheduler.new ≡ input_after scheduler.old (Input.Slice slice) }
{
    if scheduler.slice() > 0 {
        return Some(LineFault::Bad(InputFault::BadLine));
    }
    if is_out(MAX_SLICE_NS, slice) {
        return Some(LineFault::Bad(InputFault::BadField));
    }
    scheduler.set_slice(slice);
    None
}

// Sets quantum, slack and credit.
fn set_terms(scheduler: &mut Scheduler, quantum: u64, slack: u64, credit: u64) -> Option<LineFault>
    ensures fault { result ≡ input_fault scheduler.old (Input.Terms quantum slack credit) }
    ensures state { result ≡ None
        → scheduler.new ≡ input_after scheduler.old (Input.Terms quantum slack credit) }
{
    if scheduler.quantum() > 0 || scheduler.leaf_count() > 0 {
        return Some(LineFault::Bad(InputFault::BadLine));
    }
    if is_out(MAX_TERM_NS, quantum) || (MAX_TERM_NS < slack || MAX_TERM_NS < credit) {
        return Some(LineFault::Bad(InputFault::BadField));
    }
    scheduler.set_terms(quantum as u32, slack as u32, credit as u32);
    None
}

// Adds a leaf.
fn add_leaf(
    scheduler: &mut Scheduler,
    leaf: u64,
    amount: u64,
    guarantee: u64,
    is_inside: bool,
) -> Result<Option<LineFault>, AllocError>
    ensures { IfOk result (λ f.
        (f ≡ input_fault scheduler.old (Input.Leaf leaf amount guarantee is_inside))
        × (f ≡ None
        → scheduler.new ≡ input_after scheduler.old (Input.Leaf leaf amount guarantee is_inside))) }
{
    if leaf != scheduler.leaf_count() {
        return Ok(Some(LineFault::Bad(InputFault::BadLine)));
    }
    if is_out(MAX_AMOUNT, amount) {
        return Ok(Some(LineFault::Bad(InputFault::BadField)));
    }
    scheduler.add_leaf(amount, guarantee, is_inside)?;
    Ok(None)
}

// Makes an event.
fn make_event(scheduler: &mut Scheduler, event: Step) -> Option<LineFault>
    ensures fault { result ≡ input_fault scheduler.old (Input.Event event) }
    ensures state { result ≡ None
        → scheduler.new ≡ input_after scheduler.old (Input.Event event) }
{
    if scheduler.slice() == 0 {
        return Some(LineFault::Bad(InputFault::BadLine));
    }
    event_fault(scheduler.step(event))
}

/// Follows a line that is read: its fault, if it has one.
///
/// # Errors
///
/// `AllocError` if an allocation failed.
pub fn follow(
    alloc: Global,
    scheduler: &mut Scheduler,
    input: Input,
) -> Result<Option<LineFault>, AllocError>
    ensures { IfOk result (λ f. (f ≡ input_fault scheduler.old input)
        × (f ≡ None → scheduler.new ≡ input_after scheduler.old input)) }
{
    match input {
        Input::Processors(count) => set_processors(alloc, scheduler, count),
        Input::Slice(slice) => Ok(set_slice(scheduler, slice)),
        Input::Terms {
            quantum,
            slack,
            credit,
        } => Ok(set_terms(scheduler, quantum, slack, credit)),
        Input::Leaf {
            leaf,
            amount,
            guarantee,
            is_inside,
        } => add_leaf(scheduler, leaf, amount, guarantee, is_inside),
        Input::Group { .. } => Ok(None),
        Input::Event(event) => Ok(make_event(scheduler, event)),
    }
}

// 1 for a pick.
fn picks_in(input: Input) -> u64
    ensures { result ≡ picks_in input }
{
    match input {
        Input::Event(Step::Pick { .. }) => 1,
        _ => 0,
    }
}

/// Replays a text: makes each event of its lines, up to the first line that is refused.
///
/// # Errors
///
/// `AllocError` if an allocation failed.
#[tactic(auto, unfolding(crate::specs::Replay::finding_from))]
pub fn replay(alloc: Global, text: &[u8]) -> Result<Finding, AllocError>
    ensures { IfOk result (λ f. f ≡ finding_of text.now) }
{
    let mut scheduler = Scheduler::new(alloc);
    let mut picks: u64 = 0;
    let mut line: u64 = 1;
    let mut rest = text;
    while let Some((words, next)) = split_line(rest) {
        let input = match Input::of_line(words) {
            Ok(input) => input,
            Err(fault) => {
                let fault = LineFault::Bad(fault);
                return Ok(Finding::Refused { line, fault });
            }
        };
        if let Some(fault) = follow(alloc, &mut scheduler, input)? {
            return Ok(Finding::Refused { line, fault });
        }
        picks += picks_in(input);
        line += 1;
        rest = next;
    }
    if rest.is_empty() {
        Ok(Finding::Allowed { picks })
    } else {
        let fault = LineFault::Bad(InputFault::CutShort);
        Ok(Finding::Refused { line, fault })
    }
}

// Why the rule does not allow an event.
fn reason(refusal: Refusal) -> &'static str
    ensures { result.now ≡ reason refusal }
{
    match refusal {
        Refusal::ProcessorBusy => "the processor runs a task",
        Refusal::ProcessorIdle => "the processor runs no task",
        Refusal::NothingWaits => "no task of the leaf waits",
        Refusal::NotEarliest => "a leaf that is due has an earlier deadline",
        Refusal::NotLeast => "a leaf that waits has a lesser clock",
        Refusal::UnknownLeaf => "no such leaf",
        Refusal::UnknownProcessor => "no such processor",
        Refusal::TooGreat => "a number is too great",
    }
}

// Appends the line of a fault.
fn put_fault(fault: LineFault, answer: &mut Vec<u8>) -> Result<(), AllocError>
    ensures { OnOk result (answer.new.items ≡ answer.old.items ++ fault_text fault) }
{
    match fault {
        LineFault::Bad(fault) => put_refusal(fault.number(), fault.name(), answer),
        LineFault::NotAllowed(refusal) => {
            answer.extend_from_slice(b"not allowed:")?;
            put_last_word(reason(refusal).as_bytes(), answer)
        }
    }
}

/// Appends the line of a finding.
///
/// # Errors
///
/// `AllocError` if an allocation failed.
pub fn put_finding(finding: Finding, answer: &mut Vec<u8>) -> Result<(), AllocError>
    ensures { OnOk result (answer.new.items ≡ answer.old.items ++ finding_text finding) }
{
    match finding {
        Finding::Allowed { picks } => {
            put_number(b"allowed: ", picks, answer)?;
            answer.extend_from_slice(b" picks\n")?;
            Ok(())
        }
        Finding::Refused { line, fault } => {
            put_number(b"line ", line, answer)?;
            answer.extend_from_slice(b": ")?;
            put_fault(fault, answer)
        }
    }
}

/// Exit status of a finding: 0 if each event is allowed, 3 if a line is refused.
pub fn status_of(finding: Finding) -> u8
    ensures { result ≡ status_of finding }
{
    match finding {
        Finding::Allowed { .. } => 0,
        Finding::Refused { .. } => 3,
    }
}
