//! Plans of a node that just don't reach the bound of a cut, filled up by the candidates that cost
//! least for what they weigh.
ghost use Rattle.std.specs.Prelude.{◌≡◌, ◌<◌, ◌≤◌, ◌^◌, ℕ, Some, true, false, length, slice_get, IfSome, IsTrue};
ghost use Rattle.bound_log.specs.declared.bound.Bound.TheVariants.{AtLeast};
ghost use Rattle.geo_model.specs.Energy.{IsWithin};
ghost use Rattle.idle_splits.specs.Fillings.{IsPlanOf};
ghost use Rattle.idle_splits.specs.UnitCuts.{KeepsUnitCuts};
ghost use Rattle.idle_splits.specs.UnitShares.{IsDearByKept};

use crate::filling::{filling_of, is_mixed_below};
use crate::offer::RatedCandidate;
use crate::unit_cuts::UnitCuts;
use geo_model::{Network, Node, Plan};

// Makes a plan of so many candidates a copy of another one.
fn copy_into(room: &mut Plan, plan: &Plan, count: u32)
    requires room { length room.old ≡ count }
    requires plan { length plan.now ≡ count }
    ensures { room.new ≡ plan.now }
{
    for i in 0..count {
        room.set(i, plan.has(i));
    }
}

// Whether some plans of a node choose a candidate and others don't.
fn is_open(network: &Network, node: &Node, candidate: u32) -> bool
    requires inside { length node.now.inside ≡ length network.now.candidates }
    requires upper { length node.now.upper ≡ length network.now.candidates }
    ensures { IsTrue result → slice_get node.now.upper candidate ≡ Some true }
{
    candidate < network.candidates().len() as u32
        && node.upper.has(candidate)
        && !node.inside.has(candidate)
}

// Puts into a plan of a node the open candidates that are offered, up to the one with which it
// would reach a bound: that one is answered. `weight` is what the plan weighs without them.
fn fill_up(
    network: &Network,
    node: &Node,
    offers: &[RatedCandidate],
    weight: u64,
    bound: u64,
    room: &mut Plan,
) -> Option<u32>
    requires inside { length node.now.inside ≡ length network.now.candidates }
    requires upper { length node.now.upper ≡ length network.now.candidates }
    requires plan { IsPlanOf node.now room.old }
    ensures plan { IsPlanOf node.now room.new }
    ensures last { IfSome result (λ candidate. slice_get node.now.upper candidate ≡ Some true) }
{
    let mut weight = weight;
    for offer in offers {
        if !is_open(network, node, offer.candidate) {
            continue;
        }
        weight = weight.saturating_add(u64::from(offer.weight));
        if weight >= bound {
            return Some(offer.candidate);
        }
        room.set(offer.candidate, true);
    }
    None
}

/// Makes `room` a plan of the node that doesn't reach the bound of a kept cut, by its number, or
/// else the inner plan; answers a candidate with which it would.
pub(crate) fn fill(
    network: &Network,
    node: &Node,
    cuts: &UnitCuts,
    k: u32,
    room: &mut Plan,
) -> Option<u32>
    requires within { IsWithin node.now.inside node.now.upper }
    requires inside { length node.now.inside ≡ length network.now.candidates }
    requires room { length room.old ≡ length network.now.candidates }
    requires cuts { KeepsUnitCuts network.now cuts.now }
    requires k { k < length cuts.now.pool }
    ensures plan { IsPlanOf node.now room.new }
    ensures last { IfSome result (λ candidate. slice_get node.now.upper candidate ≡ Some true) }
{
    copy_into(room, &node.inside, network.candidates().len() as u32);
    let bound = u64::from(cuts.pool.get(k).bound);
    let weight = filling_of(network, cuts, k, room).weight;
    if weight >= bound {
        return None;
    }
    let offers = cuts.offers.get(k as usize)?.as_slice();
    fill_up(network, node, offers, weight, bound, room)
}

// Puts a candidate, if any, into a plan of a node.
fn put_last(node: &Node, room: &mut Plan, last: Option<u32>)
    requires plan { IsPlanOf node.now room.old }
    requires last { IfSome last (λ candidate. slice_get node.now.upper candidate ≡ Some true) }
    ensures { IsPlanOf node.now room.new }
{
    if let Some(candidate) = last {
        room.set(candidate, true);
    }
}

/// Whether a plan of a node and the same with one candidate more show together that by a kept cut
/// alone no dual bound of the node is above a bound.
pub(crate) fn is_held(
    network: &Network,
    node: &Node,
    cuts: &UnitCuts,
    k: u32,
    room: &mut Plan,
    last: Option<u32>,
    earlier: u128,
) -> bool
    requires upper { length node.now.upper ≡ length network.now.candidates }
    requires plan { IsPlanOf node.now room.old }
    requires last { IfSome last (λ candidate. slice_get node.now.upper candidate ≡ Some true) }
    requires cuts { KeepsUnitCuts network.now cuts.now }
    requires k { k < length cuts.now.pool }
    ensures held { IsTrue result → (candidate : ℕ) → IsDearByKept network.now node.now (AtLeast earlier) cuts.now k candidate → ⊥ }
    ensures plan { IsPlanOf node.now room.new }
{
    // The network's bounds, for the proof.
    let _bounds = network.limits();
    let cut = cuts.pool.get(k);
    let bound = u64::from(cut.bound);
    let first = filling_of(network, cuts, k, room);
    put_last(node, room, last);
    let second = filling_of(network, cuts, k, room);
    is_mixed_below(bound, first, second, earlier)
}
