//! What is proposed to a search at the nodes of small networks.
ghost use Rattle.std.specs.Prelude.{◌≡◌, ◌<◌, length, All, IfOk};

use crate::tables::{HALVES, LINE};
use cut_pool::{CutPool, cut_of};
use dual_ascent::Dual;
use fixed_point::ONE;
use geo_base::NoMemory;
use geo_model::{Network, Node};
use proposer::{Forced, Proposer};
use scaled_network::{Marks, ScaledNetwork};
use separation::{Proposal, Separation, Sought, displacement_of};
use std::alloc::Global;
use std::test::Fail;
use test_networks::{CaseTables, ONE_HEIGHT, network_of};

// A candidate in a decision: it is chosen, or left out.
#[derive(Clone, Copy)]
struct Decided(u32, bool);

// A network, what is decided of its candidates, and what is proposed at that node: the limit of a
// displacement that refutes it, if any, or else the candidate that is forced, if any.
#[derive(Clone, Copy)]
struct Case {
    tables: &'static CaseTables,
    decided: &'static [Decided],
    refuted: Option<u32>,
    forced: Option<Forced>,
}

const FIRST_IN: Forced = Forced {
    candidate: 0,
    is_in: true,
};

const SECOND_IN: Forced = Forced {
    candidate: 1,
    is_in: true,
};

const THIRD_IN: Forced = Forced {
    candidate: 2,
    is_in: true,
};

const CASES: [Case; 7] = [
    Case {
        tables: &LINE,
        decided: &[],
        refuted: None,
        forced: Some(FIRST_IN),
    },
    Case {
        tables: &LINE,
        decided: &[Decided(0, true)],
        refuted: None,
        forced: Some(THIRD_IN),
    },
    Case {
        tables: &LINE,
        decided: &[Decided(0, true), Decided(2, true)],
        refuted: None,
        forced: None,
    },
    Case {
        tables: &LINE,
        decided: &[Decided(0, false)],
        refuted: Some(0),
        forced: None,
    },
    Case {
        tables: &LINE,
        decided: &[Decided(2, false)],
        refuted: Some(1),
        forced: None,
    },
    Case {
        tables: &ONE_HEIGHT,
        decided: &[Decided(0, false)],
        refuted: None,
        forced: Some(SECOND_IN),
    },
    Case {
        tables: &HALVES,
        decided: &[Decided(0, true)],
        refuted: None,
        forced: Some(SECOND_IN),
    },
];

// The node of all plans.
fn whole_node(alloc: Global, network: &Network) -> Result<Node, NoMemory>
    ensures inside { IfOk result (λ node. length node.inside ≡ length network.now.candidates) }
    ensures upper { IfOk result (λ node. length node.upper ≡ length network.now.candidates) }
{
    Node::whole(alloc, network.candidates().len() as u32)
}

// Decides a candidate of a node.
fn decide(network: &Network, node: &mut Node, decided: Decided)
    requires inside { length node.old.inside ≡ length network.now.candidates }
    requires upper { length node.old.upper ≡ length network.now.candidates }
    ensures inside { length node.new.inside ≡ length network.now.candidates }
    ensures upper { length node.new.upper ≡ length network.now.candidates }
{
    if (decided.0 as usize) < network.candidates().len() {
        if decided.1 {
            node.inside.set(decided.0, true);
        } else {
            node.upper.set(decided.0, false);
        }
    }
}

// What is proposed at a node: the limit of what refutes it, and the candidate that is forced.
fn proposed_at(
    alloc: Global,
    network: &Network,
    decided: &[Decided],
) -> Result<(Option<u32>, Option<Forced>), NoMemory> {
    let mut node = whole_node(alloc, network)?;
    let mut proposer = Proposer::new(alloc, network)?;
    // The root comes first, so that the node begins with what is known there.
    proposer.visit(alloc, network, &node)?;
    for one in decided {
        decide(network, &mut node, *one);
    }
    proposer.visit(alloc, network, &node)?;
    if let Some(proposal) = proposer.refuting(alloc, network, &node)? {
        return Ok((Some(proposal.limit), None));
    }
    Ok((None, proposer.forced(network)?))
}

#[test]
fn nodes_are_refuted_and_candidates_forced(rt: HostRuntime) -> Result<(), Fail> {
    let mut at = 0u32;
    for case in CASES {
        let network = network_of(rt.alloc(), case.tables)?;
        let found = proposed_at(rt.alloc(), &network, case.decided)?;
        assert!(rt;
            found == (case.refuted, case.forced),
            "case {at}: {found:?}"
        );
        at = at.saturating_add(1);
    }
    Ok(())
}

// The pool of the cut of the first limit and of a displacement by 1 in the first unknown.
fn unit_pool(alloc: Global, network: &Network) -> Result<CutPool, NoMemory>
    ensures { IfOk result (All (λ cut. cut.limit < length network.now.limits)) }
{
    let mut pool = CutPool::new(alloc);
    if network.limits().len() > 0 {
        let x = displacement_of(alloc, network, &[1])?;
        let cut = cut_of(alloc, network, 0, x)?;
        let _is_new = pool.add(cut)?;
    }
    Ok(pool)
}

// A price times a divisor, less what the coefficient of a candidate takes of it.
fn reduced(dual: &Dual, price: u64, coefficient: u32, taken: i128) -> i128 {
    let whole = (dual.d as i128).wrapping_mul(price as i128);
    whole.wrapping_sub(taken.wrapping_mul(coefficient as i128))
}

// The price that shares of the first cut prove of the plans of a node, times the divisor, by the
// coefficients of the cut and the prices of the candidates.
fn proved_sum(network: &Network, node: &Node, pool: &CutPool, dual: &Dual) -> i128
    requires inside { length node.now.inside ≡ length network.now.candidates }
    requires upper { length node.now.upper ≡ length network.now.candidates }
{
    let taken = taken_by(dual);
    if pool.len() == 0 {
        return 0;
    }
    let cut = pool.get(0);
    let mut sum = taken.wrapping_mul(cut.bound as i128);
    for candidate in 0..network.candidates().len() as u32 {
        let chosen = &network.candidates()[candidate as usize];
        let coefficient = cut.coefficients.get(candidate as usize).copied();
        let reduced = reduced(dual, chosen.price, coefficient.unwrap_or(0), taken);
        if node.inside.has(candidate) {
            sum = sum.wrapping_add(reduced);
        } else if node.upper.has(candidate) {
            sum = sum.wrapping_add(reduced.min(0));
        }
    }
    sum
}

// The sum of the shares of a dual bound.
fn taken_by(dual: &Dual) -> i128 {
    let mut taken = 0i128;
    for share in dual.shares.as_slice() {
        taken = taken.wrapping_add(share.y as i128);
    }
    taken
}

// Whether the price that is proved at the root is `proved`, rounded up, and how many candidates it
// fixes, all of them to be left out, where the best plan has a price.
fn bound_and_fixed(
    alloc: Global,
    network: &Network,
    price: u64,
    proved: i128,
) -> Result<(bool, u32), NoMemory> {
    let node = whole_node(alloc, network)?;
    let pool = unit_pool(alloc, network)?;
    let mut proposer = Proposer::new(alloc, network)?;
    proposer.visit(alloc, network, &node)?;
    let Some(dual) = proposer.bound(alloc, network, &node, &pool, Some(price))? else {
        return Ok((false, 0));
    };
    let d = dual.d as i128;
    let sum = proved_sum(network, &node, &pool, &dual);
    let is_proved = sum > d.wrapping_mul(proved.wrapping_sub(1)) && sum <= d.wrapping_mul(proved);
    let mut count = 0u32;
    for forced in proposer.fixed(alloc, &pool, &dual, price)? {
        if !forced.is_in {
            count = count.saturating_add(1);
        }
    }
    Ok((is_proved, count))
}

// By hand: 5.76 for each unit of the bound, so the first candidate goes for just its price, and each
// of the others for 0.24 more.
#[test]
fn the_bound_of_one_height_is_its_cheapest_plan(rt: HostRuntime) -> Result<(), Fail> {
    let network = network_of(rt.alloc(), &ONE_HEIGHT)?;
    assert!(rt; bound_and_fixed(rt.alloc(), &network, 12, 9)? == (true, 0));
    assert!(rt; bound_and_fixed(rt.alloc(), &network, 10, 9)? == (true, 2));
    Ok(())
}

// Whether the node below the root where one candidate is decided has a bound of a price, after the
// bound of the root.
fn is_past_below(
    alloc: Global,
    network: &Network,
    price: u64,
    decided: Decided,
) -> Result<bool, NoMemory> {
    let mut node = whole_node(alloc, network)?;
    let pool = unit_pool(alloc, network)?;
    let mut proposer = Proposer::new(alloc, network)?;
    proposer.visit(alloc, network, &node)?;
    let _dual = proposer.bound(alloc, network, &node, &pool, Some(price))?;
    decide(network, &mut node, decided);
    proposer.visit(alloc, network, &node)?;
    let Some(dual) = proposer.bound(alloc, network, &node, &pool, Some(price))? else {
        return Ok(false);
    };
    let least = (dual.d as i128).wrapping_mul(price as i128 - 1);
    Ok(proved_sum(network, &node, &pool, &dual) > least)
}

// By hand: with the second or the third candidate shares cost 9.24 at least, and 9.375 without the
// first one, so that plans cost 10 or more; with the first one they cost 9.
#[test]
fn nodes_below_have_their_bounds(rt: HostRuntime) -> Result<(), Fail> {
    let network = network_of(rt.alloc(), &ONE_HEIGHT)?;
    let cases = [
        (10, Decided(1, true), true),
        (10, Decided(2, true), true),
        (10, Decided(0, true), false),
        (11, Decided(1, true), false),
        (10, Decided(0, false), true),
        (11, Decided(0, false), false),
    ];
    for (price, decided, is_past) in cases {
        let found = is_past_below(rt.alloc(), &network, price, decided)?;
        assert!(rt; found == is_past, "{price} {}", decided.0);
    }
    Ok(())
}

// The candidate to split the root on, and the number of candidates of the plan that is offered below a
// price.
fn split_and_offer(
    alloc: Global,
    network: &Network,
    price: u64,
) -> Result<(Option<u32>, u32), NoMemory> {
    let node = whole_node(alloc, network)?;
    let pool = unit_pool(alloc, network)?;
    let mut proposer = Proposer::new(alloc, network)?;
    proposer.visit(alloc, network, &node)?;
    let _dual = proposer.bound(alloc, network, &node, &pool, Some(price))?;
    let split = proposer.split(network, &node)?;
    let mut count = 0u32;
    if let Some(plan) = proposer.offer(alloc, network, price)? {
        for candidate in 0..network.candidates().len() as u32 {
            if plan.has(candidate) {
                count = count.saturating_add(1);
            }
        }
    }
    Ok((split, count))
}

#[test]
fn the_plan_of_the_shares_is_offered(rt: HostRuntime) -> Result<(), Fail> {
    let network = network_of(rt.alloc(), &ONE_HEIGHT)?;
    assert!(rt; split_and_offer(rt.alloc(), &network, 12)? == (Some(0), 1));
    assert!(rt; split_and_offer(rt.alloc(), &network, 9)? == (Some(0), 0));
    Ok(())
}

// Whether shares reach less than 49 fiftieths of the bound of a proposal's cut.
fn is_broken(
    alloc: Global,
    network: &Network,
    proposal: Proposal,
    shares: &[i64],
) -> Result<bool, NoMemory> {
    let Proposal { limit, x } = proposal;
    let are_fit = (limit as usize) < network.limits().len()
        && x.entries().len() == network.unknowns().len();
    if !are_fit {
        return Ok(false);
    }
    let cut = cut_of(alloc, network, limit, x)?;
    let mut reached = 0i128;
    for (coefficient, share) in cut.coefficients.as_slice().iter().zip(shares) {
        reached = reached.wrapping_add((*coefficient as i128).wrapping_mul(*share as i128));
    }
    let most = (cut.bound as i128).wrapping_mul((ONE / 50 * 49) as i128);
    Ok(reached < most)
}

// How many displacements are proposed at shares of the candidates; none where the cut of one isn't
// broken.
fn separated(alloc: Global, network: &Network, shares: &[i64]) -> Result<usize, NoMemory> {
    let scaled = ScaledNetwork::new(alloc, network)?;
    let mut marks = Marks::new(alloc);
    marks.read(network, &whole_node(alloc, network)?)?;
    let mut separation = Separation::new(alloc);
    let sought = Sought {
        scaled: &scaled,
        marks: &marks,
        shares,
        least: ONE / 50,
        most: 8,
    };
    let found = separation.propose(alloc, network, &sought)?;
    let count = found.len();
    for proposal in found {
        if !is_broken(alloc, network, proposal, shares)? {
            return Ok(0);
        }
    }
    Ok(count)
}

// The first candidate alone reaches the bound of the height, and the others 16/25 of it together.
#[test]
fn broken_cuts_are_proposed(rt: HostRuntime) -> Result<(), Fail> {
    let network = network_of(rt.alloc(), &ONE_HEIGHT)?;
    assert!(rt; separated(rt.alloc(), &network, &[ONE, 0, 0])? == 0);
    assert!(rt; separated(rt.alloc(), &network, &[0, ONE / 2, ONE / 2])? == 1);
    let line = network_of(rt.alloc(), &LINE)?;
    assert!(rt; separated(rt.alloc(), &line, &[ONE, ONE, ONE])? == 0);
    assert!(rt; separated(rt.alloc(), &line, &[0, ONE, ONE])? == 1);
    Ok(())
}
