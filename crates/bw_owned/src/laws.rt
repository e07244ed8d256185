//! Laws of what owners set, each the contract of a function that does nothing.
ghost use Rattle.std.specs.Prelude.{◌≡◌, ◌-◌, ◌^◌, Some, true};
ghost use Rattle.bw_owned.specs.Laws.{WeightsGrow, WeightsAreInRange, WeightsAreOne};
ghost use Rattle.bw_owned.specs.Laws.{WeightsAtTheEnds, LeastIsOne, LimitsAreInRange};
ghost use Rattle.bw_owned.specs.Laws.{LimitsGrow, PodAmountIsOne, PodAmountsGrow};
ghost use Rattle.bw_owned.specs.Laws.{RequestsAreWritten, SharesWeighAsRequests, AllowedGrows};
ghost use Rattle.bw_owned.specs.Laws.{PartsAllowNoMore, PeriodsAllowQuotas, HarmIsHarm};
ghost use Rattle.bw_owned.specs.Laws.{LostIsHarm, GuessesAreMost, RoundAsksAsRead};
ghost use Rattle.bw_owned.specs.Laws.{OnlyTheHungryLack, BackHasTurned, HalfIsLost};
ghost use Rattle.bw_owned.specs.Laws.{OthersHaveTheirPart, LevelsHaveTheirParts, RestIsExact};
ghost use Rattle.bw_owned.specs.Laws.{RestGrows, TheRestHasTwice, OneSwings, OneOfTwoGoes};
ghost use Rattle.bw_owned.specs.Swings.{went_back};
ghost use Rattle.bw_owned.specs.Shares.{linear_weight};
ghost use Rattle.bw_owned.specs.Requests.{shares_of_request, weight_of_request};
ghost use Rattle.bw_owned.specs.Limits.{limit_of_thousandths, limit_of_billionths, limit_of_rate};

use crate::allowed::{MICRO_NS, MOST_NS};
use crate::harm::{MOST_SLICES, PARTS};
use crate::judged::JUDGED_ROUNDS;
use crate::limit::{BILLION, CPU, DEFAULT_PERIOD_US, SECOND_US};
use crate::logarithm::{SCALE_DIGITS, UNIT};
use crate::pod::{INIT_CONTAINER, SIDECAR};
use crate::request::{MAX_REQUEST, WEIGHT_REQUEST};
use crate::rest::{MOST_TOLD, ROOT_WEIGHT};
use crate::shares::{DEFAULT_SHARES, DEFAULT_WEIGHT, MAX_SHARES, MIN_SHARES};

/// Law: by each formula a greater number has no lesser weight, and a number has one weight.
pub fn weights_grow()
    ensures grow { WeightsGrow }
    ensures one { WeightsAreOne }
{}

/// Law: by each formula a weight is 1 to 10000.
pub fn weights_are_in_range()
    ensures { WeightsAreInRange }
{}

/// Law: the first number that can be set has weight 1, and the last one 10000.
///
/// A CPU that is requested has 1024 shares, and weight 39 on the line.
pub fn weights_at_the_ends()
    ensures ends { WeightsAtTheEnds }
    ensures a_cpu { shares_of_request 1000 ≡ 1024 }
    ensures a_cpu_weighs { linear_weight 1024 ≡ 39 }
{}

/// Law: there is one least number that gives a weight.
pub fn least_is_one()
    ensures { LeastIsOne }
{}

/// Law: by each formula quota and period are within the kernel's range.
pub fn limits_are_in_range()
    ensures { LimitsAreInRange }
{}

/// Law: by each formula a greater number has no lesser quota of one period.
///
/// A whole CPU of each formula is 100000 microseconds of 100000.
pub fn limits_grow()
    ensures grow { LimitsGrow }
    ensures thousandths { (limit_of_thousandths 1000 0).quota ≡ Some 100000 }
    ensures billionths { (limit_of_billionths 1000000000).quota ≡ Some 100000 }
    ensures rate { (limit_of_rate 1000000 0).quota ≡ Some 100000 }
{}

/// Law: parts of a pod have one amount, and greater amounts of parts make no lesser one.
pub fn pod_amount_is_one()
    ensures one { PodAmountIsOne }
    ensures grow { PodAmountsGrow }
{}

/// Law: by each formula no lesser number is written for a greater request.
///
/// Shares that are written for a request weigh what it weighs, and a CPU is 100 of `CPUWeight=`.
pub fn requests_are_written()
    ensures grow { RequestsAreWritten }
    ensures weigh { SharesWeighAsRequests }
    ensures a_cpu { weight_of_request 1000 ≡ 100 }
    ensures each { WEIGHT_REQUEST ≡ 10 }
{}

/// Law: a greater limit allows no less in a longer time.
///
/// Parts of a time are allowed no more than the whole, and whole own periods as many quotas.
pub fn times_are_allowed()
    ensures grow { AllowedGrows }
    ensures parts { PartsAllowNoMore }
    ensures periods { PeriodsAllowQuotas }
    ensures micro { MICRO_NS ≡ 1000 }
    ensures most { MOST_NS ≡ 2 ^ 64 - 1 }
{}

/// Law: where limits do harm, less of the plan was served under them than without them.
pub fn harm_is_harm()
    ensures harm { HarmIsHarm }
    ensures slices { MOST_SLICES ≡ 2 ^ 60 }
    ensures parts { PARTS ≡ 20 }
{}

/// Law: a loop that is told of harm was harmed, and one that is told of guesses went by guesses.
///
/// Sixty rounds under limits judge them, such as those that serve half of a plan.
pub fn lost_is_harm()
    ensures harm { LostIsHarm }
    ensures guesses { GuessesAreMost }
    ensures half { HalfIsLost }
    ensures rounds { JUDGED_ROUNDS ≡ 60 }
{}

/// Law: a round asks for each leaf what its reading asks for.
pub fn round_asks_as_read()
    ensures { RoundAsksAsRead }
{}

/// Law: what is unserved is 0 for a leaf that would not have used more.
///
/// Another one would have had its plan with it.
pub fn only_the_hungry_lack()
    ensures { OnlyTheHungryLack }
{}

/// Law: a number that went back rose and falls, or fell and rises, as 100, 50 and 100.
pub fn back_has_turned()
    ensures turned { BackHasTurned }
    ensures some { went_back 100 50 100 ≡ true }
{}

/// Law: a loop whose limits go back and forth lets one group go, and no two.
///
/// Of two that swing for sixty rounds it is the one whose use changed more.
pub fn one_swings()
    ensures one { OneSwings }
    ensures of_two { OneOfTwoGoes }
{}

/// Law: at each level the rest has its part by weights, and less than a slice more.
///
/// So of what all levels come to, the planned groups have no more than the product of their parts.
/// With weights that make whole slices the rest has just these. Greater weights of others, or
/// lesser ones of the planned groups, give it no less. Others of the same weight and the root's
/// tasks have twice the slices of one planned group.
pub fn rest_has_its_part()
    ensures part { OthersHaveTheirPart }
    ensures levels { LevelsHaveTheirParts }
    ensures exact { RestIsExact }
    ensures grow { RestGrows }
    ensures twice { TheRestHasTwice }
    ensures root { ROOT_WEIGHT ≡ 100 }
    ensures most { MOST_TOLD ≡ 1000000000 }
{}

/// Law: `cpu.shares` of 2 to 262144, of which 1024 stand for the weight 100.
///
/// A unit of logarithms is 2^-36.
pub fn share_numbers()
    ensures least { MIN_SHARES ≡ 2 }
    ensures greatest { MAX_SHARES ≡ 262144 }
    ensures default { DEFAULT_SHARES ≡ 1024 }
    ensures weight { DEFAULT_WEIGHT ≡ 100 }
    ensures request { MAX_REQUEST ≡ 256000 }
    ensures digits { SCALE_DIGITS ≡ 36 }
    ensures unit { UNIT ≡ 2 ^ SCALE_DIGITS }
{}

/// Law: the units of limits, and the usual own period of 100 milliseconds.
pub fn limit_numbers()
    ensures period { DEFAULT_PERIOD_US ≡ 100000 }
    ensures second { SECOND_US ≡ 1000000 }
    ensures thousandths { CPU ≡ 1000 }
    ensures billionths { BILLION ≡ 1000000000 }
{}

/// Law: the numbers of the kinds of a pod's parts.
pub fn kind_numbers()
    ensures init { INIT_CONTAINER ≡ 1 }
    ensures sidecar { SIDECAR ≡ 2 }
{}
