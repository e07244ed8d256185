//! Laws of the rule: each is the contract of a function that does nothing.
//!
//! The laws of leads, gains, shares, plans and lifts are of a model: the rule as it is where no
//! leaf has a guarantee and no plan comes, by specs/Runs.antt. The others are of the rule that the
//! program replays.
ghost use Rattle.std.specs.Prelude.{◌≡◌};
ghost use Rattle.dispatch.specs.Runs.{LeadIsBounded, GainIsBounded, ShareIsKept};
ghost use Rattle.dispatch.specs.Runs.{NoProcessorIdles};
ghost use Rattle.dispatch.specs.Runs.{NoneIsPickedPastItsPlan, IsLiftedOnlyFromSleep};
ghost use Rattle.dispatch.specs.Runs.{LiftIsAtMostTheLeast};
ghost use Rattle.dispatch.specs.Steps.{RefusalIsExact};
ghost use Rattle.dispatch.specs.Replay.{AcceptsExactly};
ghost use Rattle.dispatch.specs.Accepted.{TraceIsARun};
ghost use Rattle.dispatch.specs.Beside.{LeadIsDue};
ghost use Rattle.dispatch.specs.Windows.{OwedIsBounded, WindowsAreServed};
ghost use Rattle.dispatch.specs.Example.{PremisesAreMet, PremisesAreMetByTwo};
ghost use Rattle.dispatch.specs.Groups.{LimitsAreKept, LimitIsTold, ToldRunsAreLimited};
ghost use Rattle.dispatch.specs.Premises.{PremisesAreTold};

use crate::limits::{MAX_AMOUNT, MAX_PROCESSORS, MAX_SLICE_NS, MAX_TERM_NS};

/// No leaf gets far ahead of one that waits throughout, whatever the others do.
///
/// In use over amount it is ahead by at most one slice over its own amount, and a slice over the
/// other's amount for each processor but one. The run begins at a common start, and the leaf that
/// waits is never lifted.
pub fn lead_is_bounded()
    ensures { LeadIsBounded }
{}

/// Between two times of a run, of two leaves that wait throughout, neither gains on the other by
/// more than both leads together.
///
/// The premises are those of [`lead_is_bounded`], for both leaves.
pub fn gain_is_bounded()
    ensures { GainIsBounded }
{}

/// A leaf that waits throughout has at least its part of what all leaves used, whatever the others
/// do.
///
/// It may be short by its part of a slice for each other leaf, and by the others' part of a slice
/// for each processor but one. The premises are those of [`lead_is_bounded`].
pub fn share_is_kept()
    ensures { ShareIsKept }
{}

/// No processor idles while a leaf waits: some pick is allowed for a free processor, and its next
/// event can be nothing else.
///
/// The law assumes that each leaf has an amount.
pub fn no_processor_idles()
    ensures { NoProcessorIdles }
{}

/// No leaf that has used its plan is picked while a leaf waits that is short of its own.
///
/// The plan may be any time for each unit of amount. A leaf is short if its use is below its plan,
/// with a whole slice for each of its tasks that run. The premises are those of
/// [`lead_is_bounded`].
pub fn none_is_picked_past_its_plan()
    ensures { NoneIsPickedPastItsPlan }
{}

/// A wake lifts neither a leaf that has a task, nor any leaf at a common start. A lifted clock is
/// at most that of each leaf that has a task.
///
/// The second and the third assume that each leaf has an amount.
pub fn only_sleepers_are_lifted()
    ensures sleepers { IsLiftedOnlyFromSleep }
    ensures least { LiftIsAtMostTheLeast }
{}

/// A leaf is owed no more than this, whatever the others do and how many they are.
///
/// It is at most what its guarantee brings in the time of the credit, two quanta less one for each
/// processor, and the time that may be lost. It is never below a quantum less than nothing. The
/// premises are those of [`windows_are_served`].
pub fn owed_is_bounded()
    ensures { OwedIsBounded }
{}

/// In each window of time of a run, a leaf that wants k processors has them, or its guarantee if
/// that is less, but for two quanta for each processor, what its guarantee brings in the time of
/// the credit, and the time that may be lost.
///
/// The bound knows neither the other leaves nor their number, and the window may hold new plans
/// that keep the guarantees. The run begins at rest. Its premises are told of each event:
///
/// - The guarantees fit the host, and no run is longer than a quantum.
/// - While a processor is free and a leaf waits, the time of all processors is lost: no more than
///   the time that may be lost, since no leaf waited and none was owed more than its credit.
/// - At a pick each leaf that is owed more than its credit has a task that waits, and each leaf
///   that waits has as many tasks as its guarantee has processors.
/// - No leaf is owed more than the most at an event of its own.
pub fn windows_are_served()
    ensures { WindowsAreServed }
{}

/// No group with a limit uses more in a window than the limits of the periods in it, its burst, a
/// quantum for each processor, and a slice, whoever wakes and in whatever order leaves are picked.
///
/// A run counts where it ends. A pick takes a slice of what the group has left, its end gives back
/// what was not used or takes what was used beyond it, and a new period brings the limit. The
/// premises are:
///
/// - A leaf of the group is picked while something is left, and for a processor that is free.
/// - No run uses more than a quantum.
/// - The run begins while no processor runs a task, with no more than the limit and the burst.
///
/// A trace's premises are told as they are, event by event, and so of the run that it is.
pub fn limits_are_kept()
    ensures kept { LimitsAreKept }
    ensures told { LimitIsTold }
    ensures runs { ToldRunsAreLimited }
{}

/// No leaf i gets further ahead, by its clock, of a leaf j that waits throughout than in
/// [`lead_is_bounded`], but for a quantum for each pick at which i was due.
///
/// So what no guarantee takes is divided by the amounts. The premises are:
///
/// - At first no processor runs a task, and i is not ahead.
/// - At each pick a task of j waits, and no wake lifts j.
/// - No plan gives i or j anything, and no run uses more than a quantum.
pub fn lead_is_due()
    ensures { LeadIsDue }
{}

/// Runs of any length meet the premises of [`windows_are_served`]: two leaves of half a processor
/// take turns on one, and two leaves of a whole one run on two.
pub fn premises_are_met()
    ensures one { PremisesAreMet }
    ensures two { PremisesAreMetByTwo }
{}

/// An event is refused if and only if the rule does not allow it, or a number has no room.
pub fn refusal_is_exact()
    ensures { RefusalIsExact }
{}

/// A trace is accepted if and only if each of its lines may follow those before it: of an event, if
/// the rule allows it and its numbers have room.
pub fn accepts_exactly()
    ensures { AcceptsExactly }
{}

/// An accepted trace whose events come last is a run that begins at rest. So the laws of runs hold
/// of it where their premises do.
pub fn trace_is_a_run()
    ensures { TraceIsARun }
{}

/// A trace's premises are told as they are: the tests of the premises pass exactly where they hold.
pub fn premises_are_told()
    ensures { PremisesAreTold }
{}

/// States the numbers of a trace: at most 1,024 processors, slices of a second, amounts of a
/// million, and four seconds of quantum, slack and credit. The definitions read them from the code.
pub fn trace_numbers()
    ensures processors { MAX_PROCESSORS ≡ 1024 }
    ensures slice { MAX_SLICE_NS ≡ 1000000000 }
    ensures amount { MAX_AMOUNT ≡ 1000000 }
    ensures term { MAX_TERM_NS ≡ 4000000000 }
{}
