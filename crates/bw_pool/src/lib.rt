//! The slice pool of one period: the slices drawn by each group, processor and seat, and their
//! ceilings. The interleaving core plays any schedule of the seats that share a pool.
#![tactic(auto)]

mod calls;
mod interleaving;
mod laws;
mod limits;
mod pool;

pub use bw_machine::{CoreEvent, Phase, every_schedule};
pub use calls::{PoolCall, PoolReply, Refusal, Short};
pub use interleaving::Core;
pub use laws::{
    drained_workers, holdings_add_up, never_past_the_plan, one_drawn_list, pool_numbers,
};
pub use limits::MAX_SEATS;
pub use pool::SlicePool;
