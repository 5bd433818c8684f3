//! The same test, where a cut is asked at the price of one candidate.
ghost use Rattle.std.specs.Prelude.{◌≡◌, ◌<◌, ℕ, Some, true, length, slice_get, IfSome, IfNone};
ghost use Rattle.geo_model.specs.Energy.{IsWithin};
ghost use Rattle.bound_log.specs.declared.bound.Bound.TheVariants.{AtLeast};
ghost use Rattle.idle_splits.specs.Idle.{IsDearByUnit};
ghost use Rattle.idle_splits.specs.UnitCuts.{KeepsUnitCuts, AreUnitCuts};
ghost use Rattle.idle_splits.specs.UnitShares.{ShowsDear, IsDearByKept};

use crate::dear::{first_dear_share, is_dear, share_of};
use crate::fill::{fill, is_held};
use crate::unit_cuts::UnitCuts;
use crate::unit_share::UnitShare;
use geo_model::{Network, Node, Plan};

// The share of a kept cut, by its number, at the price of a candidate, if any, where it shows that
// a node costs more than a bound.
fn dear_share_at(
    network: &Network,
    node: &Node,
    cuts: &UnitCuts,
    k: u32,
    candidate: Option<u32>,
    earlier: u128,
) -> Option<UnitShare>
    requires inside { length node.now.inside ≡ length network.now.candidates }
    requires upper { length node.now.upper ≡ length network.now.candidates }
    requires cuts { KeepsUnitCuts network.now cuts.now }
    requires k { k < length cuts.now.pool }
    requires candidate { IfSome candidate (λ candidate. slice_get node.now.upper candidate ≡ Some true) }
    ensures { IfSome result (ShowsDear network.now node.now (AtLeast earlier)) }
{
    let share = share_of(network, cuts, k, candidate?);
    if !is_dear(network, node, cuts, k, share, earlier) {
        return None;
    }
    Some(share)
}

// The share of a kept cut, by its number, at the price of a candidate, where it shows that a node
// costs more than a bound. As a function of the multiplier over the divisor the dual bound is
// concave, and the candidate with which the cheapest ones for their weight reach the cut's bound is
// where it is greatest. That candidate is asked alone, unless that doesn't decide it.
fn quick_share_of(
    network: &Network,
    node: &Node,
    cuts: &UnitCuts,
    k: u32,
    room: &mut Plan,
    earlier: u128,
) -> Option<UnitShare>
    requires within { IsWithin node.now.inside node.now.upper }
    requires inside { length node.now.inside ≡ length network.now.candidates }
    requires upper { length node.now.upper ≡ length network.now.candidates }
    requires room { length room.old ≡ length network.now.candidates }
    requires cuts { KeepsUnitCuts network.now cuts.now }
    requires k { k < length cuts.now.pool }
    ensures found { IfSome result (ShowsDear network.now node.now (AtLeast earlier)) }
    ensures none { IfNone result ((candidate : ℕ) → IsDearByKept network.now node.now (AtLeast earlier) cuts.now k candidate → ⊥) }
    ensures room { length room.new ≡ length network.now.candidates }
{
    let last = fill(network, node, cuts, k, room);
    let found = dear_share_at(network, node, cuts, k, last, earlier);
    if found.is_some() {
        return found;
    }
    if is_held(network, node, cuts, k, room, last, earlier) {
        return None;
    }
    first_dear_share(network, node, cuts, k, earlier)
}

/// A share of one unit cut that shows that a node costs more than an earlier bound: its dual bound
/// at the price of a candidate that the node may choose is greater. None only where no unit cut
/// shows it at the price of any. `room` has an entry for each candidate; its content afterwards is
/// open.
pub(crate) fn quick_share(
    network: &Network,
    node: &Node,
    cuts: &UnitCuts,
    room: &mut Plan,
    earlier: u128,
) -> Option<UnitShare>
    requires within { IsWithin node.now.inside node.now.upper }
    requires inside { length node.now.inside ≡ length network.now.candidates }
    requires upper { length node.now.upper ≡ length network.now.candidates }
    requires room { length room.old ≡ length network.now.candidates }
    requires cuts { AreUnitCuts network.now cuts.now }
    ensures found { IfSome result (ShowsDear network.now node.now (AtLeast earlier)) }
    ensures none { IfNone result ((number unknown candidate : ℕ) → IsDearByUnit network.now node.now (AtLeast earlier) number unknown candidate → ⊥) }
    ensures room { length room.new ≡ length network.now.candidates }
{
    for k in 0..cuts.pool.len() {
        let found = quick_share_of(network, node, cuts, k, room, earlier);
        if found.is_some() {
            return found;
        }
    }
    None
}
