//! Laws of the rule, each the contract of a function that does no work of its own.
ghost use Rattle.bw_questions.specs.Exact.{ExactReadingsAreTrue};
ghost use Rattle.bw_questions.specs.HeldLaws.{NoneBelowItsGuarantee, GuaranteeIsAdmitted};
ghost use Rattle.bw_questions.specs.HeldLaws.{NoneAboveItsLimit, AskedIsAdmittedAsPlanned};
ghost use Rattle.bw_questions.specs.HeldLaws.{CalmHoldsNobody, LesserIsAdmitted};
ghost use Rattle.bw_questions.specs.HeldLaws.{LimitsAdmitThePlan};
ghost use Rattle.bw_questions.specs.Rounds.{WantsGiveThePlan, PlanStays, NothingElseStays};
ghost use Rattle.bw_questions.specs.Rounds.{PlanIsReached};
ghost use Rattle.bw_questions.specs.Served.{NoneServedAboveALimit, NoneServedBelowItsGuarantee};

use bw_plan::there_is_one_plan;

/// Law: no leaf is limited below its guarantee, whatever it wants and whatever was read. It has no
/// limit, or one of at least that.
pub fn none_below_its_guarantee()
    ensures { NoneBelowItsGuarantee }
{
    there_is_one_plan();
}

/// Law: a leaf that wants at most its guarantee is admitted whole, whatever was read.
pub fn guarantee_is_admitted()
    ensures { GuaranteeIsAdmitted }
{
    there_is_one_plan();
}

/// Law: whatever was read, a leaf is admitted at least the lesser of what it wants now and of its
/// guarantee. So it is while wants move.
pub fn lesser_is_admitted()
    ensures { LesserIsAdmitted }
{
    there_is_one_plan();
}

/// Law: no leaf is limited above its own limit, whatever was read.
pub fn none_above_its_limit()
    ensures { NoneAboveItsLimit }
{}

/// Law: a round in which the plan gives each leaf what it asks for, or its own limit, holds nobody.
pub fn calm_holds_nobody()
    ensures { CalmHoldsNobody }
{}

/// Law: whatever was read, each leaf is admitted exactly the plan of what the round asked for.
///
/// A hungry leaf is limited to it. In a round that is not calm another is limited to its use and an
/// eighth, or to its floor if that is more.
pub fn asked_is_admitted_as_planned()
    ensures { AskedIsAdmittedAsPlanned }
{}

/// Law: a reading is true in which each leaf wants what it asks for, and one that asks for
/// everything wants more than it used.
pub fn exact_readings_are_true()
    ensures { ExactReadingsAreTrue }
{}

/// Law: after a true reading, what the limits admit is at most the plan of the wants in each group,
/// and fits the host.
pub fn limits_admit_the_plan()
    ensures { LimitsAdmitThePlan }
{}

/// Law: on a host that serves what fits, a reading in which each leaf used all that it wants gives
/// the plan of the wants in the next round.
pub fn wants_give_the_plan()
    ensures { WantsGiveThePlan }
{}

/// Law: on a host that serves what fits, a plan of the wants that was served is served again.
pub fn plan_stays()
    ensures { PlanStays }
{}

/// Law: on a host that serves what fits, two rounds in which each leaf used as much served the plan
/// of the wants.
pub fn nothing_else_stays()
    ensures { NothingElseStays }
{}

/// Law: on a host that serves what fits, from any limits, each round from number K + 1 on serves
/// the plan of the wants. K is the number of leaves that this plan serves whole.
pub fn plan_is_reached()
    ensures { PlanIsReached }
{
    there_is_one_plan();
}

/// Law: whatever was read, no leaf is given a limit above its own or above that of a group above
/// it.
pub fn none_served_above_a_limit()
    ensures { NoneServedAboveALimit }
{}

/// Law: whatever was read, each leaf is given an amount of at least its plan of the round, and of
/// at least its guarantee.
pub fn none_served_below_its_guarantee()
    ensures { NoneServedBelowItsGuarantee }
{
    there_is_one_plan();
}
