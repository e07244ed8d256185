//! Laws of histories and of schedules: each is the contract of a function that does nothing.
ghost use Rattle.std.specs.Prelude.{◌≡◌, ℕ, List, map};
ghost use Rattle.bw_machine.specs.History.{own, own_from, entry_of, StandIn};
ghost use Rattle.bw_machine.specs.Schedules.{IsOneThread};
ghost use Rattle.bw_machine.specs.Seats.{start, run, takes};
ghost use Rattle.bw_machine.specs.declared.history.Entry.{Entry};
ghost use Rattle.bw_machine.specs.declared.seats.CoreEvent.{CoreEvent};

use crate::machine::Machine;

/// The calls of a seat are its entries of the history, in order, and each is at its index.
pub fn own_calls_stand<C, R>()
    ensures entries { (seat : ℕ) (history : List (Entry C R)) →
        map (entry_of seat) (own_from 0 seat history) ≡ own seat history }
    ensures places { (seat : ℕ) (history : List (Entry C R)) →
        StandIn history seat (own_from 0 seat history) }
{}

/// Every schedule is the work of one thread: it leaves what the calls leave in ticket order.
///
/// At most one seat is inside or done. The history is legal and in ticket order. The machine is
/// the replay of the history. Each seat's calls are those for which it took a ticket.
pub fn every_schedule<M: Machine>()
    ensures { (m : M) (seats : ℕ) (events : List (CoreEvent M.Call)) →
        IsOneThread M.after M.answer m (takes M.after M.answer (start seats m) events)
        (run M.after M.answer (start seats m) events) }
{}
