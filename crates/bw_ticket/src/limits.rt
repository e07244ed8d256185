//! The limits of a lock.

/// Greatest number of seats of a lock.
pub const MAX_SEATS: u32 = 64;

/// Greatest number of calls of a seat.
pub const MAX_CALLS: u32 = 65536;

/// Greatest number of tickets of a lock. Each ticket is below it.
pub const MAX_TICKETS: u64 = MAX_SEATS as u64 * MAX_CALLS as u64;

/// Greatest number of looks of a seat whose ticket is served soon, before it sleeps. Only the few
/// seats that are next look on, so each may look often. No measurement has picked the number.
pub const LOOKS: u64 = 1000;

/// Greatest number of yields of a seat before it sleeps.
pub const YIELDS: u64 = 20;

/// Greatest number of looks and spins in turn: one spin after each look.
pub const MOST_SPUN: u64 = 2 * LOOKS;

/// Greatest number of looks, spins and yields of a seat that yields. Each yield has a look before
/// it, and looks and spins after it.
pub const MOST_YIELDED: u64 = YIELDS * (2 + MOST_SPUN);

/// Greatest number of looks, spins and yields of a waiting seat between two sleeps, before the
/// first and after the last. It looks once before it yields, once before it stores its mark, and once
/// after.
pub const MOST_AWAKE: u64 = 1 + MOST_YIELDED + MOST_SPUN + 2;
