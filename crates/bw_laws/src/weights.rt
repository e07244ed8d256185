//! Law of the weights that are written for limits, in an owner's words.
ghost use Rattle.bw_laws.specs.Weights.{WeightsGiveLimits};

/// Law: on a full host a leaf has its limit by its weight, to a hundredth of its tasks' processors.
///
/// A full host has a task of weight 100 on each processor beside one of the leaf's. The weight is 1
/// to 10000: 1 at limit 0, and 10000 at a whole processor for each task. It rises with the limit,
/// and falls with the number of tasks.
pub fn weights_give_limits()
    ensures { WeightsGiveLimits }
{}
