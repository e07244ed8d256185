//! Ghost state: what the seats of the table of places know.
use crate::visitor::Visitor;
use bw_machine::Machine;
use bw_ticket::TicketLock;
use std::collections::LinkedList;
use std::marker::Model;
use std::snapshot::Snapshot;

/// The part that a seat of the table has in a place. Ghost state: never constructed.
pub enum Part<S> {
    /// It will own the place, which was not used yet.
    Fresh,
    /// It owns the place, and has it.
    Owns,
    /// It owns the place, has lent this seat of the lock through it, and has yet to store its hint.
    Hints(S),
    /// It owns the place, has lent this seat of the lock through it, and has stored its hint.
    Lends(S),
    /// It has the place of another one, which has lent this seat of the lock.
    Helps(S),
}

/// The name of a lock. Ghost state: never constructed.
pub struct LockName<M: Machine> {
    pub lock: Snapshot<TicketLock<M>>,
}

impl<M: Machine> Model for LockName<M> {
    ghost use Rattle.atomic_table.specs.Seated.{TableId};

    ghost Value = { TableId };

    ghost view = { λ name. name.lock.value.lock_id };
}

/// One seat's part in one place, and the lock that the place serves. Ghost state: never
/// constructed.
pub struct Stake<N, S> {
    pub lock_id: N,
    pub place: u64,
    pub part: Part<S>,
}

/// Ghost state of one seat of the table: its parts in places.
pub type View<M> = LinkedList<Stake<LockName<M>, Visitor<M>>>;
