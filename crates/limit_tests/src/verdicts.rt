//! Verdicts that were reckoned by hand, or by another program over the definitions.
ghost use Rattle.std.specs.Prelude.{◌≡◌, ◌<◌, length, IfOk};
ghost use Rattle.pivot_chain.specs.Room.{IsRoomOf};

use geo_model::{Network, Plan, Verdict};
use pivot_chain::{ChainRoom, verdict};
use std::alloc::Global;
use std::process::Abort;
use std::test::Fail;
use test_networks::{
    CLOSER_LEVEL, CaseTables, LEVELLING_LINE, ONE_LEVEL, WIDER_LINE, network_of, two_heights,
};

// A verdict, of which a proof here need know no more than that its room serves again.
fn judged(room: &mut ChainRoom, network: &Network, plan: &Plan, limit: u32) -> Verdict
    requires room { IsRoomOf network.now room.old }
    requires plan { length plan.now ≡ length network.now.candidates }
    requires limit { limit < length network.now.limits }
    ensures { IsRoomOf network.now room.new }
{
    verdict(room, network, plan, limit)
}

// The plan of so many candidates but for one, where one is left out.
fn plan_without(
    rt: &impl Abort,
    alloc: Global,
    count: u32,
    left_out: Option<u32>,
) -> Result<Plan, Fail>
    ensures { IfOk result (λ plan. length plan ≡ count) }
{
    let mut plan = Plan::full(alloc, count)?;
    if let Some(candidate) = left_out {
        assert!(rt; candidate < count);
        plan.set(candidate, false);
    }
    Ok(plan)
}

// Asserts the verdict of a plan on a limit, twice in the same room.
fn expect_twice(
    rt: &impl Abort,
    room: &mut ChainRoom,
    network: &Network,
    plan: &Plan,
    limit: u32,
    expected: Verdict,
)
    requires room { IsRoomOf network.now room.old }
    requires plan { length plan.now ≡ length network.now.candidates }
    requires limit { limit < length network.now.limits }
{
    assert_eq!(rt; judged(room, network, plan, limit), expected);
    assert_eq!(rt; judged(room, network, plan, limit), expected);
}

// Asserts the verdict on a limit under the plan of all candidates but for one, twice in the same room.
fn expect_verdict(
    rt: &impl Abort,
    alloc: Global,
    network: &Network,
    (left_out, limit): (Option<u32>, u32),
    expected: Verdict,
) -> Result<(), Fail> {
    assert!(rt; (limit as usize) < network.limits().len());
    let count = network.candidates().len() as u32;
    let plan = plan_without(rt, alloc, count, left_out)?;
    let mut room = ChainRoom::new(alloc, network)?;
    expect_twice(rt, &mut room, network, &plan, limit, expected);
    Ok(())
}

const OPEN_AT_THE_LAST_HEIGHT: Verdict = Verdict::Open {
    step: 4,
    lo: -1,
    hi: 1,
};

// Tables, the candidate that a plan leaves out, a limit, and the verdict. No level reaches the last
// height of a line whose last level is left out, but the limit on the first one is met.
const VERDICTS: [(CaseTables, Option<u32>, u32, Verdict); 7] = [
    (ONE_LEVEL, None, 0, Verdict::Met),
    (ONE_LEVEL, Some(0), 0, Verdict::Refuted),
    (CLOSER_LEVEL, None, 0, Verdict::Refuted),
    (LEVELLING_LINE, None, 3, OPEN_AT_THE_LAST_HEIGHT),
    (LEVELLING_LINE, Some(3), 3, Verdict::Refuted),
    (LEVELLING_LINE, Some(3), 0, Verdict::Met),
    (WIDER_LINE, None, 3, Verdict::Met),
];

#[test]
fn verdicts_on_levels(rt: HostRuntime) -> Result<(), Fail> {
    for (tables, left_out, limit, expected) in &VERDICTS {
        let network = network_of(rt.alloc(), tables)?;
        expect_verdict(&rt, rt.alloc(), &network, (*left_out, *limit), *expected)?;
    }
    Ok(())
}

#[test]
fn a_free_step_ends_an_open_interval(rt: HostRuntime) -> Result<(), Fail> {
    let network = two_heights(rt.alloc())?;
    let open = Verdict::Open {
        step: 2,
        lo: -1,
        hi: 0,
    };
    expect_verdict(&rt, rt.alloc(), &network, (None, 0), open)?;
    expect_verdict(&rt, rt.alloc(), &network, (Some(1), 0), Verdict::Refuted)
}

#[test]
fn a_network_without_limits_has_a_room(rt: HostRuntime) -> Result<(), Fail> {
    let alloc = rt.alloc();
    let network = Network::new(vec![in alloc]?, vec![in alloc]?, vec![in alloc]?);
    let _room = ChainRoom::new(alloc, &network)?;
    Ok(())
}
