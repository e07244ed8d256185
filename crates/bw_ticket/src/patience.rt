//! The decision of a waiting seat to yield the processor between looks, before it sleeps.
//!
//! A yield to other waiting seats ends within microseconds. A yield to other work may last for its
//! time slice, some milliseconds, and all later tickets wait meanwhile. A clock tells the two
//! apart.
ghost use Rattle.std.specs.Prelude.{◌+◌, ◌<◌, ◌≤◌};

use crate::limits::MOST_AWAKE;
use crate::sleeping::{Awake, give_way};
use std::rt::Clock;
use std::time::Instant;

// Least length of a long yield, in microseconds.
const LONG_YIELD_MICROSECONDS: u128 = 200;

// Number of waits without a yield after the first long yield.
const WAITS_WITHOUT_YIELD: u32 = 64;

/// A seat's record of long yields. It affects how the seat waits, and no reply.
#[derive(Clone, Copy)]
pub(crate) struct Patience {
    // Number of coming waits without a yield.
    without_yield: u32,
    // Number of waits without a yield after the last long yield.
    last: u32,
}

impl Patience {
    pub(crate) fn new() -> Patience {
        Patience {
            without_yield: 0,
            last: 0,
        }
    }

    // Yields once, and returns whether the yield was short. After a long yield the seat's next
    // waits have no yield: 64 of them, and twice as many after each further long yield.
    pub(crate) fn yields<R: Clock>(&mut self, rt: &R, awake: &mut Awake) -> bool
        requires few { awake.old.steps < MOST_AWAKE }
        requires looked { 0 < awake.old.looks }
        ensures few { awake.new.steps ≤ awake.old.steps + 1 }
        ensures looked { 0 < awake.new.looks }
    {
        if self.without_yield > 0 {
            self.without_yield -= 1;
            return false;
        }
        if is_short_yield(rt, awake) {
            return true;
        }
        self.last = self.last.saturating_mul(2).max(WAITS_WITHOUT_YIELD);
        self.without_yield = self.last;
        false
    }
}

// Yields once, and returns whether the yield was short. If the clock cannot be read, it was long.
fn is_short_yield<R: Clock>(rt: &R, awake: &mut Awake) -> bool
    requires few { awake.old.steps < MOST_AWAKE }
    requires looked { 0 < awake.old.looks }
    ensures few { awake.new.steps ≤ awake.old.steps + 1 }
    ensures looked { 0 < awake.new.looks }
{
    let Ok(before) = Instant::now(rt) else {
        return false;
    };
    give_way(awake);
    match before.elapsed(rt) {
        Ok(time) => time.as_micros() < LONG_YIELD_MICROSECONDS,
        Err(_) => false,
    }
}
