//! Ghost state: what a seat that has drawn a ticket does next.

/// The task of a visit. It names the places of other seats. Nothing reads it at run time.
#[derive(Clone, Copy)]
pub enum Task {
    /// It has drawn its ticket. It looks whether that is served, or lends itself.
    ToLook,
    /// It has lent itself, and stores its hint.
    ToHint,
    /// It is lent. The word of its place says what it does next.
    ToWait,
    /// It enters the lock, makes its own call, and leaves.
    ToEnter,
    /// It reads the hint of its ticket.
    ToPeek,
    /// It claims this place.
    ToClaim(u64),
    /// It enters the lock for the seat in this place, makes its call, and leaves.
    ToHelp(u64),
    /// It gives this place back with the call made, and goes on with the next ticket.
    ToGive(u64),
    /// It gives this place back with the call made, and helps no other.
    ToGiveLast(u64),
    /// It gives this place back as it was.
    ToReturn(u64),
    /// It wakes the owner of this place, and then all others whom it owes a wake.
    ToWakeFirst(u64),
    /// It wakes those whom it owes a wake, from this place on.
    ToWakeFrom(u64),
}
