//! The slice pool by single steps and by its core, against worked replies.
//! A case runs once more if an allocation is refused. So it holds with any one allocation failing.
ghost use Rattle.std.specs.Prelude.{◌≤◌, length};

use crate::rows::{Shown, instance_of};
use bw_machine::Machine;
use bw_model::HostShape;
use bw_pool::{
    Core, CoreEvent, PoolCall, PoolReply, Refusal, Short, SlicePool, drained_workers,
    every_schedule, holdings_add_up, never_past_the_plan, one_drawn_list,
};
use std::alloc::{AllocError, Global};
use std::process::Abort;
use std::test::Fail;

/// A host with slices of 5,000 microseconds, and groups with amounts in slices.
#[derive(Clone, Copy)]
struct Setting {
    processors: u64,
    period_us: u64,
    rows: &'static [Shown],
    amounts: &'static [u64],
}

/// A call of a seat, and the reply that it is to have.
type Wanted = (u32, PoolCall, PoolReply);

/// Asserts that a pool's readers say that nothing is drawn and that the amounts are the ceilings.
fn assert_new(rt: &impl Abort, pool: &SlicePool, amounts: &[u64], groups: u32, processors: u32)
    requires each { groups ≤ length amounts.now }
    requires rows { groups ≤ length pool.now.rows }
    requires seats { processors ≤ pool.now.processors }
{
    for group in 0..groups {
        assert!(rt; pool.drawn(group) == 0);
        assert!(rt; pool.ceiling(group) == amounts[group as usize]);
    }
    for processor in 0..processors {
        assert!(rt; pool.by_processor(processor) == 0);
    }
    assert!(rt; pool.held(99, 99) == 0);
}

fn opened(rt: &impl Abort, alloc: Global, setting: &Setting) -> Result<SlicePool, AllocError> {
    let Ok(shape) = HostShape::new(setting.processors, setting.period_us, 5000) else {
        panic!(rt; "no host")
    };
    let Ok(instance) = instance_of(alloc, shape, setting.rows) else {
        return Err(AllocError);
    };
    assert!(rt; setting.amounts.len() == instance.rows().len());
    let pool = SlicePool::new(alloc, &instance, setting.amounts)?;
    let processors = instance.shape().processors() as u32;
    assert_new(
        rt,
        &pool,
        setting.amounts,
        instance.group_count(),
        processors,
    );
    Ok(pool)
}

/// One step of any machine, through its bound.
fn step<M: Machine>(machine: &mut M, seat: u32, call: &M::Call) -> M::Reply {
    machine.step(seat, call)
}

/// Asserts that an event is possible, and has it happen.
fn happens(rt: &impl Abort, core: &mut Core, event: CoreEvent<PoolCall>) -> Result<(), AllocError> {
    assert!(rt; core.event(event)?);
    Ok(())
}

/// One whole call of a seat, by its four events.
fn call_by_events(
    rt: &impl Abort,
    core: &mut Core,
    seat: u32,
    call: PoolCall,
) -> Result<(), AllocError> {
    happens(rt, core, CoreEvent::Take { seat, call })?;
    happens(rt, core, CoreEvent::Enter { seat })?;
    happens(rt, core, CoreEvent::Apply { seat })?;
    happens(rt, core, CoreEvent::Leave { seat })
}

/// Asserts the replies of a pool by single steps, and what is drawn of each group in the end.
fn assert_steps(rt: &impl Abort, pool: &mut SlicePool, calls: &[Wanted], drawn: &[u64]) {
    for (seat, call, reply) in calls {
        assert!(rt; step(pool, *seat, call) == *reply);
    }
    assert!(rt; pool.all_drawn() == drawn);
}

/// Asserts the history of a core by events, and what is drawn of each group in the end.
fn assert_events(
    rt: &impl Abort,
    core: &mut Core,
    calls: &[Wanted],
    drawn: &[u64],
) -> Result<(), AllocError> {
    for (seat, call, _) in calls {
        call_by_events(rt, core, *seat, *call)?;
    }
    assert!(rt; core.pool().all_drawn() == drawn);
    assert_history(rt, core, calls);
    Ok(())
}

/// Asserts that these calls were made in this order, with these replies.
fn assert_history(rt: &impl Abort, core: &Core, calls: &[Wanted]) {
    assert!(rt; core.history().len() == calls.len());
    for (entry, (seat, call, reply)) in core.history().iter().zip(calls) {
        assert!(rt; entry.seat == *seat && entry.call == *call && entry.reply == *reply);
    }
}

/// Asserts both from a new pool.
fn assert_replies(
    rt: &impl Abort,
    alloc: Global,
    setting: &Setting,
    calls: &[Wanted],
    drawn: &[u64],
) -> Result<(), AllocError> {
    assert_steps(rt, &mut opened(rt, alloc, setting)?, calls, drawn);
    let mut core = Core::new(alloc, opened(rt, alloc, setting)?, 2)?;
    assert_events(rt, &mut core, calls, drawn)
}

/// Asserts both from a new pool, once more where memory was refused.
fn assert_case(
    rt: &impl Abort,
    alloc: Global,
    setting: &Setting,
    calls: &[Wanted],
    drawn: &[u64],
) -> Result<(), AllocError> {
    if assert_replies(rt, alloc, setting, calls, drawn).is_err() {
        assert_replies(rt, alloc, setting, calls, drawn)?;
    }
    Ok(())
}

/// A leaf with 3 slices under the root, on one processor.
static LEAF_WITH_THREE: Setting = Setting {
    processors: 1,
    period_us: 100_000,
    rows: &[(None, None, 0), (Some(0), None, 0)],
    amounts: &[3, 3],
};

/// A leaf with 3 slices under the root, on two processors.
static SHARED_LEAF: Setting = Setting {
    processors: 2,
    period_us: 100_000,
    rows: &[(None, None, 0), (Some(0), None, 0)],
    amounts: &[3, 3],
};

// Static tables cost their readers no proof; each entry of a local one is a step of it.
static FIRST_COMES_FIRST: [Wanted; 3] = [
    (
        0,
        PoolCall::Draw { leaf: 1, ask: 2 },
        PoolReply::Granted {
            got: 2,
            short: None,
        },
    ),
    (
        1,
        PoolCall::Draw { leaf: 1, ask: 2 },
        PoolReply::Granted {
            got: 1,
            short: Some(Short::Group(1)),
        },
    ),
    (
        0,
        PoolCall::Look { group: 1 },
        PoolReply::Drawn { n: 3, ceiling: 3 },
    ),
];

static SECOND_COMES_FIRST: [Wanted; 2] = [
    (
        1,
        PoolCall::Draw { leaf: 1, ask: 2 },
        PoolReply::Granted {
            got: 2,
            short: None,
        },
    ),
    (
        0,
        PoolCall::Draw { leaf: 1, ask: 2 },
        PoolReply::Granted {
            got: 1,
            short: Some(Short::Group(1)),
        },
    ),
];

#[test]
fn shared_leaf(rt: HostRuntime) -> Result<(), Fail> {
    assert_case(&rt, rt.alloc(), &SHARED_LEAF, &FIRST_COMES_FIRST, &[3, 3])?;
    assert_case(&rt, rt.alloc(), &SHARED_LEAF, &SECOND_COMES_FIRST, &[3, 3])?;
    Ok(())
}

static CHAIN: Setting = Setting {
    processors: 1,
    period_us: 100_000,
    rows: &[(None, None, 0), (Some(0), None, 0), (Some(1), None, 0)],
    amounts: &[3, 3, 3],
};

static LOWERED_BY_SEAT_0: [Wanted; 3] = [
    (
        0,
        PoolCall::Lower { group: 1, to: 1 },
        PoolReply::Lowered { ceiling: 1 },
    ),
    (
        0,
        PoolCall::Draw { leaf: 2, ask: 2 },
        PoolReply::Granted {
            got: 1,
            short: Some(Short::Group(1)),
        },
    ),
    (
        0,
        PoolCall::Lower { group: 1, to: 0 },
        PoolReply::Lowered { ceiling: 1 },
    ),
];

static LOWERED_BY_SEAT_1: [Wanted; 3] = [
    (
        1,
        PoolCall::Lower { group: 1, to: 1 },
        PoolReply::Lowered { ceiling: 1 },
    ),
    (
        0,
        PoolCall::Draw { leaf: 2, ask: 2 },
        PoolReply::Granted {
            got: 1,
            short: Some(Short::Group(1)),
        },
    ),
    (
        1,
        PoolCall::Lower { group: 1, to: 0 },
        PoolReply::Lowered { ceiling: 1 },
    ),
];

/// Either seat lowers a group, which takes no processor of its own.
#[test]
fn ceilings(rt: HostRuntime) -> Result<(), Fail> {
    assert_case(&rt, rt.alloc(), &CHAIN, &LOWERED_BY_SEAT_0, &[1, 1, 1])?;
    assert_case(&rt, rt.alloc(), &CHAIN, &LOWERED_BY_SEAT_1, &[1, 1, 1])?;
    Ok(())
}

static HELD: [Wanted; 4] = [
    (
        0,
        PoolCall::Draw { leaf: 1, ask: 2 },
        PoolReply::Granted {
            got: 2,
            short: None,
        },
    ),
    (
        0,
        PoolCall::GiveBack { leaf: 1, n: 3 },
        PoolReply::NotHeld { held: 2 },
    ),
    (
        0,
        PoolCall::Look { group: 1 },
        PoolReply::Drawn { n: 2, ceiling: 3 },
    ),
    (0, PoolCall::GiveBack { leaf: 1, n: 2 }, PoolReply::Returned),
];

/// Processors of one slice.
static SHORT: Setting = Setting {
    processors: 2,
    period_us: 5000,
    rows: &[(None, None, 0), (Some(0), None, 0)],
    amounts: &[2, 2],
};

static ONE_OF_TWO: [Wanted; 1] = [(
    0,
    PoolCall::Draw { leaf: 1, ask: 2 },
    PoolReply::Granted {
        got: 1,
        short: Some(Short::Processor),
    },
)];

#[test]
fn holdings(rt: HostRuntime) -> Result<(), Fail> {
    assert_case(&rt, rt.alloc(), &LEAF_WITH_THREE, &HELD, &[0, 0])?;
    assert_case(&rt, rt.alloc(), &SHORT, &ONE_OF_TWO, &[1, 1])?;
    Ok(())
}

static REFUSALS: [Wanted; 12] = [
    (
        0,
        PoolCall::Draw { leaf: 0, ask: 1 },
        PoolReply::Refused(Refusal::NotLeaf),
    ),
    (
        0,
        PoolCall::Draw { leaf: 99, ask: 1 },
        PoolReply::Refused(Refusal::NoGroup),
    ),
    (
        0,
        PoolCall::Draw { leaf: 1, ask: 0 },
        PoolReply::Refused(Refusal::ZeroAsk),
    ),
    (
        1,
        PoolCall::Draw { leaf: 1, ask: 1 },
        PoolReply::Refused(Refusal::NoProcessor),
    ),
    (
        1,
        PoolCall::GiveBack { leaf: 1, n: 1 },
        PoolReply::NotHeld { held: 0 },
    ),
    (
        0,
        PoolCall::GiveBack { leaf: 0, n: 0 },
        PoolReply::Refused(Refusal::NotLeaf),
    ),
    (
        0,
        PoolCall::GiveBack { leaf: 1, n: 0 },
        PoolReply::Refused(Refusal::ZeroAsk),
    ),
    (
        1,
        PoolCall::Draw { leaf: 99, ask: 0 },
        PoolReply::Refused(Refusal::NoProcessor),
    ),
    (
        0,
        PoolCall::Draw { leaf: 99, ask: 0 },
        PoolReply::Refused(Refusal::NoGroup),
    ),
    (
        0,
        PoolCall::Draw { leaf: 0, ask: 0 },
        PoolReply::Refused(Refusal::NotLeaf),
    ),
    (
        1,
        PoolCall::Lower { group: 2, to: 0 },
        PoolReply::Refused(Refusal::NoGroup),
    ),
    (
        1,
        PoolCall::Look { group: 2 },
        PoolReply::Refused(Refusal::NoGroup),
    ),
];

#[test]
fn refusals(rt: HostRuntime) -> Result<(), Fail> {
    assert_case(&rt, rt.alloc(), &LEAF_WITH_THREE, &REFUSALS, &[0, 0])?;
    Ok(())
}

const ASK_TWO: PoolCall = PoolCall::Draw { leaf: 1, ask: 2 };

static EVENTS: [CoreEvent<PoolCall>; 17] = [
    CoreEvent::Enter { seat: 0 },
    CoreEvent::Take {
        seat: 0,
        call: ASK_TWO,
    },
    CoreEvent::Take {
        seat: 1,
        call: ASK_TWO,
    },
    CoreEvent::Take {
        seat: 1,
        call: ASK_TWO,
    },
    CoreEvent::Apply { seat: 1 },
    CoreEvent::Enter { seat: 1 },
    CoreEvent::Enter { seat: 0 },
    CoreEvent::Enter { seat: 1 },
    CoreEvent::Take {
        seat: 2,
        call: ASK_TWO,
    },
    CoreEvent::Enter { seat: 2 },
    CoreEvent::Apply { seat: 2 },
    CoreEvent::Leave { seat: 2 },
    CoreEvent::Apply { seat: 0 },
    CoreEvent::Leave { seat: 0 },
    CoreEvent::Enter { seat: 1 },
    CoreEvent::Apply { seat: 1 },
    CoreEvent::Leave { seat: 1 },
];

/// Which of them are possible.
static POSSIBLE: [bool; 17] = [
    false, true, true, false, false, false, true, false, false, false, false, false, true, true,
    true, true, true,
];

/// Two seats that ask 2 of a leaf with 3, event by event. What is impossible changes nothing.
fn assert_schedule(rt: &impl Abort, alloc: Global) -> Result<(), AllocError> {
    let mut core = Core::new(alloc, opened(rt, alloc, &SHARED_LEAF)?, 2)?;
    for (event, possible) in EVENTS.iter().zip(&POSSIBLE) {
        let before = stand(&core);
        assert!(rt; core.event(*event)? == *possible);
        assert!(rt; *possible || before == stand(&core));
    }
    assert_played(rt, &core);
    Ok(())
}

/// Two seats that ask 2 of a leaf with 3, in one call of `play`.
fn assert_play(rt: &impl Abort, alloc: Global) -> Result<(), AllocError> {
    let pool = opened(rt, alloc, &SHARED_LEAF)?;
    let played = Core::play(alloc, pool, 2, &EVENTS)?;
    assert_played(rt, &played);
    Ok(())
}

/// Where in its play a core is.
fn stand(core: &Core) -> (u64, u64, usize) {
    (core.next(), core.serving(), core.history().len())
}

/// Asserts that both calls were made, first that of seat 0.
fn assert_played(rt: &impl Abort, core: &Core) {
    assert!(rt; core.next() == 2 && core.serving() == 2);
    assert_history(rt, core, FIRST_COMES_FIRST.split_at(2).0);
    assert!(rt; core.pool().held(0, 1) == 2);
    assert!(rt; core.pool().held(1, 1) == 1);
}

#[test]
fn schedules(rt: HostRuntime) -> Result<(), Fail> {
    if assert_schedule(&rt, rt.alloc()).is_err() {
        assert_schedule(&rt, rt.alloc())?;
    }
    if assert_play(&rt, rt.alloc()).is_err() {
        assert_play(&rt, rt.alloc())?;
    }
    Ok(())
}

/// Laws are functions that do nothing: each is called once.
#[test]
fn laws() {
    drained_workers();
    one_drawn_list();
    never_past_the_plan();
    holdings_add_up();
    every_schedule::<SlicePool>();
}
