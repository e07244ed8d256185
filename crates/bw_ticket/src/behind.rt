//! The load by which a seat that has left looks behind it.
//!
//! A [`Behind`] is made in this file alone, of the load that it tells of.
ghost use Rattle.std.specs.Prelude.{◌≡◌, ◌+◌, ◌^◌, ◌<◌, ◌≤◌, [], map, MatchBool};
ghost use Rattle.bw_ticket.specs.declared.board.Phase.TheVariants.{Served};
ghost use Rattle.bw_ticket.specs.Plays.{goes, saw_next};
ghost use Rattle.bw_ticket.specs.Seats.{IsBoard, IsSeat};

use crate::board::NEXT;
use crate::lock::{Board, Token};
use crate::plays::PeekNext;
use bw_machine::Machine;
use std::marker::Model;

/// The next ticket to be drawn, as a seat found it once after it had left with its own ticket.
#[derive(Drop)]
pub struct Behind {
    left: u64,
    next: u64,
}

impl Model for Behind {
    ghost use Rattle.std.specs.Prelude.{◌+◌, ◌^◌, ◌<◌};
    ghost use Rattle.bw_ticket.specs.Sights.{LookedBehind};

    ghost Value = { LookedBehind };

    ghost view = { λ b. record { left = b.left; next = b.next } };

    ghost invariant = { λ b. b.left + 1 < 2 ^ 32 };
}

impl Behind {
    /// Whether the ticket after the seat's own was drawn.
    pub fn is_drawn(&self) -> bool
        ensures { MatchBool result (self.now.left + 1 < self.now.next)
            (self.now.next ≤ self.now.left + 1) }
    {
        self.next > self.left + 1
    }
}

/// The step peek next, one load by a seat that has left: the next ticket to be drawn.
pub(crate) fn peek_next<M: Machine>(board: &Board<M>, seat: &mut Token<M>, served: u64) -> Behind
    requires table { (seat.old.table_id ≡ board.now.shared.table_id) ×
        IsBoard board.now.shared.table_id }
    requires served { IsSeat seat.old (Served served) [] }
    requires small { served + 1 < 2 ^ 32 }
    ensures table { seat.new.table_id ≡ seat.old.table_id }
    ensures left { result.left ≡ served }
    ensures saw { seat.new.me ≡ (map (goes (saw_next result.next)) seat.old.me.0, []) }
{
    let next = board.shared.load::<PeekNext>(seat, NEXT);
    Behind { left: served, next }
}
