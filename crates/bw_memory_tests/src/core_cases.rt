//! The slice pool and its interleaving core: the calls that take memory.
use bw_model::{HostShape, Instance, InstanceFault, Row};
use bw_pool::{Core, CoreEvent, PoolCall, SlicePool};
use std::alloc::{AllocError, Global};
use std::process::Abort;
use std::test::Fail;

const LEAF: u32 = 1;

const LOOK: PoolCall = PoolCall::Look { group: LEAF };

const DRAW: PoolCall = PoolCall::Draw { leaf: LEAF, ask: 4 };

// Seat 1 looks and seat 0 draws, one after the other.
static SCHEDULE: [CoreEvent<PoolCall>; 8] = [
    CoreEvent::Take {
        seat: 1,
        call: LOOK,
    },
    CoreEvent::Take {
        seat: 0,
        call: DRAW,
    },
    CoreEvent::Enter { seat: 1 },
    CoreEvent::Apply { seat: 1 },
    CoreEvent::Leave { seat: 1 },
    CoreEvent::Enter { seat: 0 },
    CoreEvent::Apply { seat: 0 },
    CoreEvent::Leave { seat: 0 },
];

// A root over one leaf that wants 7 slices.
fn leaf_of_seven(alloc: Global, shape: HostShape) -> Result<Instance, InstanceFault> {
    let mut rows = Vec::new(alloc);
    for (parent, demand) in [(None, 0), (Some(0), 7)] {
        rows.push(Row {
            parent,
            weight: 100,
            limit: None,
            demand,
        })?;
    }
    Instance::new(alloc, rows, shape)
}

// A pool of the leaf's seven slices.
fn pool_once(rt: &impl Abort, alloc: Global, shape: HostShape) -> Result<SlicePool, InstanceFault> {
    let instance = leaf_of_seven(alloc, shape)?;
    assert!(rt; instance.rows().len() == 2);
    Ok(SlicePool::new(alloc, &instance, &[7, 7])?)
}

fn pool(rt: &impl Abort, alloc: Global) -> Result<SlicePool, Fail> {
    let shape = HostShape::new(1, 100_000, 5_000)?;
    match pool_once(rt, alloc, shape) {
        Err(_) => Ok(pool_once(rt, alloc, shape)?),
        Ok(pool) => Ok(pool),
    }
}

// State of a core's play.
fn stand(core: &Core) -> (u64, u64, usize) {
    (core.next(), core.serving(), core.history().len())
}

// A refused event changes nothing: the core answers as before.
fn event_once(
    rt: &impl Abort,
    core: &mut Core,
    event: CoreEvent<PoolCall>,
) -> Result<(), AllocError> {
    let before = stand(core);
    match core.event(event) {
        Ok(done) => {
            assert!(rt; done);
            Ok(())
        }
        Err(fault) => {
            assert!(rt; before == stand(core));
            Err(fault)
        }
    }
}

#[test]
fn events(rt: HostRuntime) -> Result<(), Fail> {
    let mut core = match Core::new(rt.alloc(), pool(&rt, rt.alloc())?, 2) {
        Err(_) => Core::new(rt.alloc(), pool(&rt, rt.alloc())?, 2)?,
        Ok(core) => core,
    };
    for event in &SCHEDULE {
        if event_once(&rt, &mut core, *event).is_err() {
            event_once(&rt, &mut core, *event)?;
        }
    }
    assert!(rt; core.pool().all_drawn() == [4, 4].as_slice());
    Ok(())
}

#[test]
fn play(rt: HostRuntime) -> Result<(), Fail> {
    let core = match Core::play(rt.alloc(), pool(&rt, rt.alloc())?, 2, &SCHEDULE) {
        Err(_) => Core::play(rt.alloc(), pool(&rt, rt.alloc())?, 2, &SCHEDULE)?,
        Ok(core) => core,
    };
    assert!(rt; stand(&core) == (2, 2, 2));
    assert!(rt; core.pool().all_drawn() == [4, 4].as_slice());
    Ok(())
}
