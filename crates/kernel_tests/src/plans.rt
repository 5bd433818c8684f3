//! Plans: what limits bear under them, what is left where candidates are taken out, what greedy
//! deletion hands over, and what a local search makes of it.

ghost use Rattle.std.specs.Prelude.{◌≡◌, length, IfOk};

use crate::exact::Exact;
use crate::tables::{HALVES, LINE};
use fixed_point::ONE;
use geo_base::NoMemory;
use geo_model::{Network, Plan, cost};
use local_search::first_plan;
use plan_inverse::Inverse;
use plan_moves::{MovedPlan, Rest, WitnessFinder};
use scaled_network::{Bearing, Mark, Marks, ScaledNetwork};
use std::alloc::Global;
use std::test::Fail;
use test_networks::{CaseTables, ONE_HEIGHT, height_at_stations, network_of};

// A candidate that is taken out of all, if any, a limit, and its load over the energy then, at most:
// the variance of its height over the square of its limit.
const BORNE: [(Option<u32>, u32, Exact); 6] = [
    (None, 0, Exact(200, 432)),
    (None, 1, Exact(200, 363)),
    (Some(0), 0, Exact(200, 144)),
    (Some(0), 1, Exact(100, 121)),
    (Some(1), 0, Exact(100, 144)),
    (Some(2), 1, Exact(200, 121)),
];

// The marks of all candidates as chosen.
fn all_of(alloc: Global, network: &Network) -> Result<Marks, NoMemory> {
    let full = Plan::full(alloc, network.candidates().len() as u32)?;
    let mut marks = Marks::new(alloc);
    marks.read_plan(network, &full)?;
    Ok(marks)
}

// What a limit bears where a candidate is taken out of all.
fn strength_without(
    alloc: Global,
    network: &Network,
    candidate: Option<u32>,
    limit: u32,
) -> Result<i64, NoMemory> {
    let scaled = ScaledNetwork::new(alloc, network)?;
    let mut bearing = Bearing::new(alloc);
    let mut inverse = Inverse::new(alloc);
    bearing.invert_upper(&scaled, &all_of(alloc, network)?, &mut inverse)?;
    if let Some(candidate) = candidate {
        bearing.look_at(&scaled, &inverse, candidate, ONE)?;
    }
    Ok(bearing.strength(&scaled, &inverse, limit))
}

#[test]
fn limits_bear_what_variances_say(rt: HostRuntime) -> Result<(), Fail> {
    let network = network_of(rt.alloc(), &LINE)?;
    for (candidate, limit, strength) in BORNE {
        let found = strength_without(rt.alloc(), &network, candidate, limit)?;
        assert!(rt; strength.is_close(found), "limit {limit}");
    }
    Ok(())
}

// The price of what is left of all candidates where those of an order are taken out.
fn reduced_price(alloc: Global, network: &Network, order: &[u32]) -> Result<u64, NoMemory> {
    let scaled = ScaledNetwork::new(alloc, network)?;
    let mut moved = MovedPlan::new(alloc);
    moved.start(&scaled, &all_of(alloc, network)?)?;
    moved.reduce(&scaled, order)?;
    Ok(moved.price(&scaled))
}

#[test]
fn candidates_go_where_limits_bear_it(rt: HostRuntime) -> Result<(), Fail> {
    let alloc = rt.alloc();
    let height = network_of(alloc, &ONE_HEIGHT)?;
    assert!(rt; reduced_price(alloc, &height, &[0, 1, 2])? == 12);
    assert!(rt; reduced_price(alloc, &height, &[2, 1, 0])? == 9);
    let line = network_of(alloc, &LINE)?;
    assert!(rt; reduced_price(alloc, &line, &[0, 2, 1])? == 10);
    let halves = network_of(alloc, &HALVES)?;
    assert!(rt; reduced_price(alloc, &halves, &[0, 1])? == 12);
    Ok(())
}

// Candidates that are missing from a plan which is asked about first, if any, and from the one that is
// asked about then; a limit; and what is left of the plan, by the variances above.
#[derive(Drop)]
struct WitnessCase {
    tables: &'static CaseTables,
    before: Option<&'static [u32]>,
    missing: &'static [u32],
    limit: u32,
    rest: Rest,
    left: Option<&'static [u32]>,
}

const WITNESSES: [WitnessCase; 8] = [
    // The second height is determined still.
    WitnessCase {
        tables: &LINE,
        before: None,
        missing: &[],
        limit: 0,
        rest: Rest::Regular,
        left: Some(&[0, 1]),
    },
    WitnessCase {
        tables: &LINE,
        before: None,
        missing: &[],
        limit: 0,
        rest: Rest::Bare,
        left: Some(&[0]),
    },
    WitnessCase {
        tables: &LINE,
        before: Some(&[1]),
        missing: &[],
        limit: 1,
        rest: Rest::Bare,
        left: Some(&[2]),
    },
    WitnessCase {
        tables: &LINE,
        before: None,
        missing: &[0],
        limit: 0,
        rest: Rest::Bare,
        left: None,
    },
    WitnessCase {
        tables: &ONE_HEIGHT,
        before: None,
        missing: &[],
        limit: 0,
        rest: Rest::Bare,
        left: Some(&[1, 2]),
    },
    WitnessCase {
        tables: &ONE_HEIGHT,
        before: None,
        missing: &[2],
        limit: 0,
        rest: Rest::Bare,
        left: Some(&[0]),
    },
    // What was missing before goes first.
    WitnessCase {
        tables: &ONE_HEIGHT,
        before: Some(&[2]),
        missing: &[],
        limit: 0,
        rest: Rest::Bare,
        left: Some(&[0]),
    },
    WitnessCase {
        tables: &ONE_HEIGHT,
        before: None,
        missing: &[0, 1],
        limit: 0,
        rest: Rest::Bare,
        left: None,
    },
];

// The plan of all candidates but some.
fn plan_without(alloc: Global, network: &Network, missing: &[u32]) -> Result<Plan, NoMemory>
    ensures { IfOk result (λ plan. length plan ≡ length network.now.candidates) }
{
    let mut marks = all_of(alloc, network)?;
    for candidate in missing {
        marks.set(*candidate, Mark::Outside);
    }
    marks.plan(alloc, network)
}

// Whether a plan is that of some candidates.
fn is_plan_of(network: &Network, plan: &Plan, candidates: &[u32]) -> bool
    requires { length plan.now ≡ length network.now.candidates }
{
    for candidate in 0..network.candidates().len() as u32 {
        if plan.has(candidate) != candidates.contains(&candidate) {
            return false;
        }
    }
    true
}

// Whether what is left of a plan for a limit is what is wanted.
fn is_left(alloc: Global, network: &Network, case: &WitnessCase) -> Result<bool, NoMemory> {
    let mut finder = WitnessFinder::new(alloc, network)?;
    if let Some(before) = case.before {
        let plan = plan_without(alloc, network, before)?;
        let _found = finder.small_plan(alloc, network, &plan, case.limit, case.rest)?;
    }
    let plan = plan_without(alloc, network, case.missing)?;
    let found = finder.small_plan(alloc, network, &plan, case.limit, case.rest)?;
    match (&found, case.left) {
        (Some(small), Some(left)) => Ok(is_plan_of(network, small, left)),
        (None, None) => Ok(true),
        _ => Ok(false),
    }
}

#[test]
fn a_limit_spares_what_it_does_not_need(rt: HostRuntime) -> Result<(), Fail> {
    let mut at = 0u32;
    for case in WITNESSES {
        let network = network_of(rt.alloc(), case.tables)?;
        assert!(rt; is_left(rt.alloc(), &network, &case)?, "case {at}");
        at = at.saturating_add(1);
    }
    Ok(())
}

// The prices of the plan that is left where the dearest candidates go first, and of the plan after a
// local search; 0 where there is none.
fn prices_of(alloc: Global, network: &Network) -> Result<(u64, u64), NoMemory> {
    let greedy = match greedy_start::start(alloc, network)? {
        Some(plan) => cost(network, &plan),
        None => 0,
    };
    let improved = match first_plan(alloc, network, 20)? {
        Some(plan) => cost(network, &plan),
        None => 0,
    };
    Ok((greedy, improved))
}

// Networks, and both prices by hand: the second is that of the cheapest plan.
const PLANS: [(&CaseTables, u64, u64); 3] = [
    (&ONE_HEIGHT, 12, 9),
    (&LINE, 10, 10),
    (&HALVES, 12, 12),
];

#[test]
fn a_local_search_finds_the_cheapest_plans(rt: HostRuntime) -> Result<(), Fail> {
    for (tables, greedy, cheapest) in PLANS {
        let network = network_of(rt.alloc(), tables)?;
        let found = prices_of(rt.alloc(), &network)?;
        assert!(rt; found == (greedy, cheapest), "{found:?}");
    }
    Ok(())
}

// What the stations of both ways to observe a height cost, and both prices by hand: one way is a level
// for 9, the other two for 6 each. Greedy deletion gives up the dearest station first, where it can.
const AT_STATIONS: [(u64, u64, u64, u64); 5] = [
    (0, 0, 12, 9),
    (0, 4, 9, 9),
    (4, 0, 12, 12),
    (3, 2, 14, 12),
    (6, 2, 14, 14),
];

#[test]
fn a_local_search_saves_a_station(rt: HostRuntime) -> Result<(), Fail> {
    for (first, others, greedy, cheapest) in AT_STATIONS {
        let network = height_at_stations(rt.alloc(), first, others)?;
        let found = prices_of(rt.alloc(), &network)?;
        assert!(rt; found == (greedy, cheapest), "{first} {others}: {found:?}");
    }
    Ok(())
}
