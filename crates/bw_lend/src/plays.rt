//! The news that each kind of step brings to the seat that makes it.
ghost use Rattle.bw_lend.specs.Plays.{opened, posted, taken_back, claimed, given_back, hinted};
ghost use Rattle.bw_lend.specs.Plays.{others, first_one};

use crate::stake::View;
use crate::table::Place;
use crate::visitor::Visitor;
use atomic_table::{Play, Split};
use bw_machine::Machine;
use bw_ticket::Answer;

/// The step open: the owner of an unused place takes it.
pub(crate) struct Open;

impl<M: Machine> Play<Place<Visitor<M>, Answer<M::Reply>>, View<M>> for Open {
    ghost then = { opened };
}

/// The step post: a seat is lent.
pub(crate) struct Post;

impl<M: Machine> Play<Place<Visitor<M>, Answer<M::Reply>>, View<M>> for Post {
    ghost then = { posted };
}

/// The step take back: the owner takes its place back.
pub(crate) struct TakeBack;

impl<M: Machine> Play<Place<Visitor<M>, Answer<M::Reply>>, View<M>> for TakeBack {
    ghost then = { taken_back };
}

/// The step claim: a helper takes the place of another seat.
pub(crate) struct Claim;

impl<M: Machine> Play<Place<Visitor<M>, Answer<M::Reply>>, View<M>> for Claim {
    ghost then = { claimed };
}

/// The step give back: a helper gives the place back.
pub(crate) struct GiveBack;

impl<M: Machine> Play<Place<Visitor<M>, Answer<M::Reply>>, View<M>> for GiveBack {
    ghost then = { given_back };
}

/// The step hint: a store of a hint.
pub(crate) struct Hint;

impl<M: Machine> Play<Place<Visitor<M>, Answer<M::Reply>>, View<M>> for Hint {
    ghost then = { hinted };
}

/// The step split: the first unused place goes to a new seat.
pub(crate) struct HandOut;

impl<M: Machine> Split<View<M>> for HandOut {
    ghost left = { others };

    ghost right = { first_one };
}
