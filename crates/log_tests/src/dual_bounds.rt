//! Dual bounds of one share, at nodes of small networks. What they are was reckoned by hand.
ghost use Rattle.std.specs.Prelude.{◌≡◌, ◌<◌, ◌≤◌, ◌^◌, length, slice_get, Some, All, IfOk};
ghost use Rattle.cut_pool.specs.Cut.{CutOf, cover};
ghost use Rattle.dual_bound.specs.Shares.{IsSmallCover, IsShare};

use cut_pool::{Cut, CutPool, Share, cut_of};
use dual_bound::{leaf_bound, meeting_plans_cost_the_dual_bound};
use geo_base::NoMemory;
use geo_model::{Displacement, Network, Node, Plan};
use std::alloc::Global;
use std::process::Abort;
use std::test::Fail;
use test_networks::{CaseTables, THREE_LEVELS, Unfit, network_of};

// Distances of 1.00 mm along the axes between a new point, whose limit is 1.0 mm, and fixed ones.
const FOUR_DISTANCES: CaseTables = CaseTables {
    points: "A,0.000,0.000,,fixed,\nB,100.000,-100.000,,fixed,\nP,100.000,0.000,,1.0,\n",
    candidates: "d1,distance,A,P,,1.00,,5\nd2,distance,B,P,,1.00,,6\nd3,distance,P,A,,1.00,,7\nd4,distance,P,B,,1.00,,7\n",
    redundancy: 0,
    unknowns: 2,
    choices: 4,
    limits: 1,
};

// The divisor of a share; and for each of some nodes the candidate that all its plans choose, if
// any, the multiplier, and the dual bound.
struct Cases {
    d: u64,
    rows: &'static [(Option<u32>, u64, u128)],
}

// The greatest divisor and the greatest multiplier: 2^44.
const MOST: u64 = 17592186044416;

// The bound of the cut of the first limit and a displacement by 1 in the first unknown, in both.
const BOUND: u32 = 11920928;

// A displacement by 1 in the first unknown.
fn first_move(rt: &impl Abort, alloc: Global, network: &Network) -> Result<Displacement, Fail>
    ensures { IfOk result (λ x. length x ≡ length network.now.unknowns) }
{
    let count = network.unknowns().len() as u32;
    assert!(rt; count > 0);
    let mut x = Displacement::new(alloc, count)?;
    x.set(0, 1);
    Ok(x)
}

// The cut of the first limit and that displacement, of which a proof here need know nothing.
fn first_cut(rt: &impl Abort, alloc: Global, network: &Network) -> Result<Cut, Fail> {
    assert!(rt; !network.limits().is_empty());
    let x = first_move(rt, alloc, network)?;
    Ok(cut_of(alloc, network, 0, x)?)
}

// The pool of the cut with these coefficients. It is made of its numbers, so that the proof knows
// them.
fn pool_of(
    rt: &impl Abort,
    alloc: Global,
    network: &Network,
    coefficients: Vec<u32>,
) -> Result<CutPool, Fail>
    requires each { length coefficients.items ≡ length network.now.candidates }
    requires small { All (λ coefficient. coefficient < 2 ^ 24) coefficients.items }
    ensures one { IfOk result (λ pool. length pool ≡ 1) }
    ensures small { IfOk result (λ pool. (cut : CutOf) → slice_get pool 0 ≡ Some cut → IsSmallCover (length network.now.candidates) (cover cut)) }
{
    let x = first_move(rt, alloc, network)?;
    let mut pool = CutPool::new(alloc);
    let is_new = pool.add(Cut {
        limit: 0,
        x,
        coefficients,
        bound: BOUND,
    })?;
    assert!(rt; is_new);
    Ok(pool)
}

// A node whose plans choose one candidate, if any is given.
fn node_with(rt: &impl Abort, alloc: Global, count: u32, chosen: Option<u32>) -> Result<Node, Fail>
    ensures inside { IfOk result (λ node. length node.inside ≡ count) }
    ensures upper { IfOk result (λ node. length node.upper ≡ count) }
{
    let mut inside = Plan::empty(alloc, count)?;
    if let Some(candidate) = chosen {
        assert!(rt; candidate < count);
        inside.set(candidate, true);
    }
    let upper = Plan::full(alloc, count)?;
    Ok(Node { inside, upper })
}

// The dual bound of one share at a node.
fn bound_of_one(network: &Network, pool: &CutPool, node: &Node, d: u64, share: Share) -> u128
    requires inside { length node.now.inside ≡ length network.now.candidates }
    requires upper { length node.now.upper ≡ length network.now.candidates }
    requires share { IsShare (length network.now.candidates) pool.now share }
    requires least { 1 ≤ d }
    requires greatest { d ≤ 2 ^ 44 }
{
    let shares = [share];
    leaf_bound(network, node, d, &shares, pool)
}

// The dual bound of a share of the pool's cut at a node.
fn bound_of(network: &Network, pool: &CutPool, node: &Node, d: u64, y: u64) -> u128
    requires inside { length node.now.inside ≡ length network.now.candidates }
    requires upper { length node.now.upper ≡ length network.now.candidates }
    requires one { length pool.now ≡ 1 }
    requires small { (cut : CutOf) → slice_get pool.now 0 ≡ Some cut → IsSmallCover (length network.now.candidates) (cover cut) }
    requires least_divisor { 1 ≤ d }
    requires greatest_divisor { d ≤ 2 ^ 44 }
    requires least_multiplier { 1 ≤ y }
    requires greatest_multiplier { y ≤ 2 ^ 44 }
{
    bound_of_one(network, pool, node, d, Share { y, cut: 0 })
}

// Asks for the dual bound of each case.
fn ask_all(
    rt: &impl Abort,
    alloc: Global,
    network: &Network,
    pool: &CutPool,
    cases: &Cases,
) -> Result<(), Fail>
    requires one { length pool.now ≡ 1 }
    requires small { (cut : CutOf) → slice_get pool.now 0 ≡ Some cut → IsSmallCover (length network.now.candidates) (cover cut) }
{
    let count = network.candidates().len() as u32;
    for (chosen, y, expected) in cases.rows {
        let node = node_with(rt, alloc, count, *chosen)?;
        assert!(rt; 1 <= cases.d);
        assert!(rt; cases.d <= MOST);
        assert!(rt; 1 <= *y);
        assert!(rt; *y <= MOST);
        let bound = bound_of(network, pool, &node, cases.d, *y);
        assert_eq!(rt; bound, *expected);
    }
    Ok(())
}

// By the coefficient of each level. Before they are rounded the bounds are 6.6, 5.9, 6.2, 6.6, 8.6
// and 5.1.
const OF_LEVELS: Cases = Cases {
    d: 9655953,
    rows: &[
        (None, 7, 7),
        (None, 8, 6),
        (None, 5, 7),
        (Some(0), 7, 7),
        (Some(2), 7, 9),
        (Some(2), 9, 6),
    ],
};

// By the least divisor: the sum is negative.
const BY_ONE: Cases = Cases {
    d: 1,
    rows: &[(None, 1, 0)],
};

// By the greatest divisor, with the greatest multiplier and the least.
const BY_THE_GREATEST: Cases = Cases {
    d: MOST,
    rows: &[(None, MOST, 0), (None, 1, 1)],
};

#[test]
fn dual_bounds_of_three_levels(rt: HostRuntime) -> Result<(), Fail> {
    let alloc = rt.alloc();
    let network = network_of(alloc, &THREE_LEVELS)?;
    let coefficients = vec![in alloc; 9655953, 9655953, 9655953]?;
    let cut = first_cut(&rt, alloc, &network)?;
    assert_eq!(rt; cut.bound, BOUND);
    assert_eq!(rt; cut.coefficients.as_slice(), coefficients.as_slice());
    let pool = pool_of(&rt, alloc, &network, coefficients)?;
    ask_all(&rt, alloc, &network, &pool, &OF_LEVELS)?;
    ask_all(&rt, alloc, &network, &pool, &BY_ONE)?;
    ask_all(&rt, alloc, &network, &pool, &BY_THE_GREATEST)
}

// The four distances, without stations.
fn four_distances(alloc: Global) -> Result<Network, Unfit>
    ensures { IfOk result (λ network. length network.candidates ≡ 4) }
{
    network_of(alloc, &FOUR_DISTANCES)
}

// The same with a station at each of the three points, for 10.
fn from_stations(alloc: Global) -> Result<Network, Fail>
    ensures { IfOk result (λ network. length network.candidates ≡ 4) }
{
    let mut network = four_distances(alloc)?;
    let stations = vec![in alloc; Some(0), Some(1), Some(2), Some(2)]?;
    let prices = vec![in alloc; 10, 10, 10]?;
    network.set_stations(stations, prices);
    Ok(network)
}

// The pool of the cut of the four distances: two of them don't see a move along the first axis.
fn pool_of_distances(rt: &impl Abort, alloc: Global, network: &Network) -> Result<CutPool, Fail>
    requires { length network.now.candidates ≡ 4 }
    ensures one { IfOk result (λ pool. length pool ≡ 1) }
    ensures small { IfOk result (λ pool. (cut : CutOf) → slice_get pool 0 ≡ Some cut → IsSmallCover (length network.now.candidates) (cover cut)) }
{
    let coefficients = vec![in alloc; BOUND, 0, BOUND, 0]?;
    let cut = first_cut(rt, alloc, network)?;
    assert_eq!(rt; cut.bound, BOUND);
    assert_eq!(rt; cut.coefficients.as_slice(), coefficients.as_slice());
    pool_of(rt, alloc, network, coefficients)
}

// Without stations, by the coefficient of the distances along the first axis. The sums of the first
// two are negative.
const OF_DISTANCES: Cases = Cases {
    d: 11920928,
    rows: &[
        (None, 15, 0),
        (Some(2), 15, 0),
        (Some(1), 15, 3),
        (None, 5, 5),
        (None, 7, 5),
    ],
};

// With stations, by the same. Prices of plans are among them: `d1` costs 15, `d3` 17, `d1` and `d2`
// 31, and `d3` and `d4` 24, since they stand at one station.
const FROM_STATIONS: Cases = Cases {
    d: 11920928,
    rows: &[
        (None, 15, 15),
        (None, 18, 14),
        (None, 12, 12),
        (Some(0), 15, 15),
        (Some(2), 15, 17),
        (Some(1), 15, 31),
        (Some(3), 15, 24),
    ],
};

#[test]
fn dual_bounds_of_distances(rt: HostRuntime) -> Result<(), Fail> {
    let alloc = rt.alloc();
    let network = four_distances(alloc)?;
    let pool = pool_of_distances(&rt, alloc, &network)?;
    ask_all(&rt, alloc, &network, &pool, &OF_DISTANCES)
}

#[test]
fn dual_bounds_with_stations(rt: HostRuntime) -> Result<(), Fail> {
    let alloc = rt.alloc();
    let network = from_stations(alloc)?;
    let pool = pool_of_distances(&rt, alloc, &network)?;
    ask_all(&rt, alloc, &network, &pool, &FROM_STATIONS)
}

#[test]
fn laws_of_dual_bounds() {
    meeting_plans_cost_the_dual_bound();
}
