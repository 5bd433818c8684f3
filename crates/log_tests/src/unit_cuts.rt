//! Splits over three levels of 1.00 mm to one new height, whose limit is 0.9 mm, that a unit cut
//! makes idle.
ghost use Rattle.std.specs.Prelude.{◌≡◌, ◌∷◌, [], length, IsTrue, IfOk};
ghost use Rattle.geo_model.specs.Energy.{IsWithin};
ghost use Rattle.idle_splits.specs.Tests.{IsTestOf};
ghost use Rattle.idle_splits.specs.UnitCuts.{AreUnitCuts};

use geo_base::NoMemory;
use geo_model::{Network, Node, Plan};
use idle_splits::{
    IdleTest, UnitCuts, UnitShare, dear_share, idleness_falls, logs_without_idle_splits,
};
use std::alloc::Global;
use std::test::Fail;
use test_networks::{ONE_DEAR_LEVEL, network_of};

// What the plans of a node do with a candidate.
#[derive(Clone, Copy)]
enum NodePart {
    Chosen,
    Open,
    Out,
}

// Whether each plan of a node chooses a candidate, and whether one may.
fn chosen_and_allowed(part: NodePart) -> (bool, bool)
    ensures { IsTrue result.0 → IsTrue result.1 }
{
    match part {
        NodePart::Chosen => (true, true),
        NodePart::Open => (false, true),
        NodePart::Out => (false, false),
    }
}

// A plan of three candidates.
fn plan_of(alloc: Global, first: bool, second: bool, third: bool) -> Result<Plan, NoMemory>
    ensures { IfOk result (λ plan. plan ≡ first ∷ second ∷ third ∷ []) }
{
    let mut plan = Plan::empty(alloc, 3)?;
    plan.set(0, first);
    plan.set(1, second);
    plan.set(2, third);
    Ok(plan)
}

// A node of three candidates.
fn node_of(
    alloc: Global,
    first: NodePart,
    second: NodePart,
    third: NodePart,
) -> Result<Node, NoMemory>
    ensures within { IfOk result (λ node. IsWithin node.inside node.upper) }
    ensures inside { IfOk result (λ node. length node.inside ≡ 3) }
    ensures upper { IfOk result (λ node. length node.upper ≡ 3) }
{
    let (a, x) = chosen_and_allowed(first);
    let (b, y) = chosen_and_allowed(second);
    let (c, z) = chosen_and_allowed(third);
    Ok(Node {
        inside: plan_of(alloc, a, b, c)?,
        upper: plan_of(alloc, x, y, z)?,
    })
}

// A node's share, of which a proof here need know no more than that the test serves again.
fn share_at(
    alloc: Global,
    network: &Network,
    test: &mut IdleTest,
    parts: [NodePart; 3],
    earlier: u128,
) -> Result<Option<UnitShare>, NoMemory>
    requires candidates { length network.now.candidates ≡ 3 }
    requires test { IsTestOf network.now test.old }
    ensures { test.new ≡ test.old }
{
    let node = node_of(alloc, parts[0], parts[1], parts[2])?;
    Ok(test.dear_share(network, &node, earlier))
}

// The same, where each candidate is asked.
fn first_share_at(
    alloc: Global,
    network: &Network,
    cuts: &UnitCuts,
    parts: [NodePart; 3],
    earlier: u128,
) -> Result<Option<UnitShare>, NoMemory>
    requires candidates { length network.now.candidates ≡ 3 }
    requires cuts { AreUnitCuts network.now cuts.now }
{
    let node = node_of(alloc, parts[0], parts[1], parts[2])?;
    Ok(dear_share(network, &node, cuts, earlier))
}

// The share at the price of a candidate: all coefficients are the same.
fn share_of(candidate: u32, y: u64) -> Option<UnitShare> {
    Some(UnitShare {
        limit: 0,
        unknown: 0,
        candidate,
        d: 9655953,
        y,
    })
}

const ALL: [NodePart; 3] = [NodePart::Open, NodePart::Open, NodePart::Open];

const FIRST: [NodePart; 3] = [NodePart::Chosen, NodePart::Open, NodePart::Open];

const FIRST_AND_MAYBE_THIRD: [NodePart; 3] = [NodePart::Chosen, NodePart::Out, NodePart::Open];

const MAYBE_LAST_TWO: [NodePart; 3] = [NodePart::Out, NodePart::Open, NodePart::Open];

const MAYBE_THIRD: [NodePart; 3] = [NodePart::Out, NodePart::Out, NodePart::Open];

const FIRST_TWO: [NodePart; 3] = [NodePart::Chosen, NodePart::Chosen, NodePart::Open];

#[test]
fn a_split_on_a_dear_level_is_idle(rt: HostRuntime) -> Result<(), Fail> {
    let alloc = rt.alloc();
    let network = network_of(alloc, &ONE_DEAR_LEVEL)?;
    let mut test = IdleTest::new(alloc, &network)?;
    let dear = share_of(2, 50);
    // The splits of the log `s 0`, `s 1`, `c`, `s 2`, ..: before the third one stands a price of 2.
    assert_eq!(rt; share_at(alloc, &network, &mut test, ALL, 2)?, None);
    assert_eq!(rt; share_at(alloc, &network, &mut test, FIRST, 2)?, None);
    assert_eq!(rt;
        share_at(alloc, &network, &mut test, FIRST_AND_MAYBE_THIRD, 2)?,
        dear
    );
    // The dual bound is 13, there and without the first level.
    assert_eq!(rt;
        share_at(alloc, &network, &mut test, FIRST_AND_MAYBE_THIRD, 12)?,
        dear
    );
    assert_eq!(rt;
        share_at(alloc, &network, &mut test, FIRST_AND_MAYBE_THIRD, 13)?,
        None
    );
    assert_eq!(rt;
        share_at(alloc, &network, &mut test, MAYBE_LAST_TWO, 12)?,
        dear
    );
    assert_eq!(rt;
        share_at(alloc, &network, &mut test, MAYBE_LAST_TWO, 13)?,
        None
    );
    Ok(())
}

// 50 of 9655953 for each part of 11920928 is 61.7; two levels of 1 cost 2, and 1.2 so.
#[test]
fn levels_that_fall_short_and_levels_that_suffice(rt: HostRuntime) -> Result<(), Fail> {
    let alloc = rt.alloc();
    let network = network_of(alloc, &ONE_DEAR_LEVEL)?;
    let mut test = IdleTest::new(alloc, &network)?;
    assert_eq!(rt;
        share_at(alloc, &network, &mut test, MAYBE_THIRD, 61)?,
        share_of(2, 50)
    );
    assert_eq!(rt;
        share_at(alloc, &network, &mut test, MAYBE_THIRD, 62)?,
        None
    );
    assert_eq!(rt;
        share_at(alloc, &network, &mut test, FIRST_TWO, 1)?,
        share_of(0, 1)
    );
    assert_eq!(rt; share_at(alloc, &network, &mut test, FIRST_TWO, 2)?, None);
    assert_eq!(rt;
        share_at(alloc, &network, &mut test, ALL, 1)?,
        share_of(1, 1)
    );
    Ok(())
}

#[test]
fn each_candidate_is_asked(rt: HostRuntime) -> Result<(), Fail> {
    let alloc = rt.alloc();
    let network = network_of(alloc, &ONE_DEAR_LEVEL)?;
    let cuts = UnitCuts::new(alloc, &network)?;
    assert_eq!(rt; first_share_at(alloc, &network, &cuts, ALL, 2)?, None);
    assert_eq!(rt;
        first_share_at(alloc, &network, &cuts, FIRST_AND_MAYBE_THIRD, 12)?,
        share_of(2, 50)
    );
    assert_eq!(rt;
        first_share_at(alloc, &network, &cuts, ALL, 1)?,
        share_of(0, 1)
    );
    Ok(())
}

#[test]
fn laws_of_idle_splits() {
    idleness_falls();
    logs_without_idle_splits();
}
