//! Laws of raised weights.
ghost use Rattle.bw_questions.specs.changes.Weight.{RaisedWeightAloneGains};
ghost use Rattle.bw_questions.specs.changes.Weight.{OthersWeightsGiveNothing};

/// Law: a group whose weight is raised gets no less, and no sibling gets more. The total and every
/// amount that is not below its parent are as before.
pub fn raised_weight_alone_gains()
    ensures { RaisedWeightAloneGains }
{}

/// Law: where other groups that are not above it have greater weights, a group gets no more.
pub fn others_weights_give_nothing()
    ensures { OthersWeightsGiveNothing }
{}
