//! The test whether one unit cut shows that a node costs more than a bound. It takes no memory.
ghost use Rattle.std.specs.Prelude.{◌≡◌, ◌↔◌, ◌<◌, ℕ, length, IsTrue, IfSome, IfNone};
ghost use Rattle.bound_log.specs.declared.bound.Bound.TheVariants.{AtLeast};
ghost use Rattle.idle_splits.specs.Idle.{IsDearByUnit};
ghost use Rattle.idle_splits.specs.UnitCuts.{KeepsUnitCuts, AreUnitCuts};
ghost use Rattle.idle_splits.specs.UnitShares.{ShowsDear, IsUnitShareOf, IsDearByKept};

use crate::unit_cuts::UnitCuts;
use crate::unit_share::UnitShare;
use cut_pool::Share;
use dual_bound::leaf_bound;
use geo_model::{Network, Node};

// The share of a kept cut, by its number, at the price of a candidate.
pub(crate) fn share_of(network: &Network, cuts: &UnitCuts, k: u32, candidate: u32) -> UnitShare
    requires cuts { KeepsUnitCuts network.now cuts.now }
    requires k { k < length cuts.now.pool }
    requires candidate { candidate < length network.now.candidates }
    ensures share { IsUnitShareOf network.now cuts.now k result }
    ensures candidate { result.candidate ≡ candidate }
{
    let candidates = network.candidates();
    let priced = &candidates[candidate as usize];
    let cut = cuts.pool.get(k);
    let coefficients = cut.coefficients.as_slice();
    let unknowns = cuts.unknowns.as_slice();
    UnitShare {
        limit: cut.limit,
        unknown: unknowns[k as usize],
        candidate,
        d: u64::from(coefficients[candidate as usize]),
        y: priced.price,
    }
}

// Whether the share of a kept cut, by its number, shows that a node costs more than a bound.
pub(crate) fn is_dear(
    network: &Network,
    node: &Node,
    cuts: &UnitCuts,
    k: u32,
    share: UnitShare,
    earlier: u128,
) -> bool
    requires inside { length node.now.inside ≡ length network.now.candidates }
    requires upper { length node.now.upper ≡ length network.now.candidates }
    requires cuts { KeepsUnitCuts network.now cuts.now }
    requires share { IsUnitShareOf network.now cuts.now k share }
    requires candidate { share.candidate < length network.now.candidates }
    ensures { IsTrue result ↔ IsDearByKept network.now node.now (AtLeast earlier) cuts.now k share.candidate }
{
    // The network's bounds, for the proof.
    let _bounds = network.limits();
    if !node.upper.has(share.candidate) || share.d == 0 || share.y == 0 {
        return false;
    }
    let shares = [Share { y: share.y, cut: k }];
    leaf_bound(network, node, share.d, &shares, &cuts.pool) > earlier
}

// The share of a kept cut, by its number, at the price of the first candidate at which it shows
// that a node costs more than a bound.
pub(crate) fn first_dear_share(
    network: &Network,
    node: &Node,
    cuts: &UnitCuts,
    k: u32,
    earlier: u128,
) -> Option<UnitShare>
    requires inside { length node.now.inside ≡ length network.now.candidates }
    requires upper { length node.now.upper ≡ length network.now.candidates }
    requires cuts { KeepsUnitCuts network.now cuts.now }
    requires k { k < length cuts.now.pool }
    ensures found { IfSome result (ShowsDear network.now node.now (AtLeast earlier)) }
    ensures none { IfNone result ((candidate : ℕ) → IsDearByKept network.now node.now (AtLeast earlier) cuts.now k candidate → ⊥) }
{
    for candidate in 0..network.candidates().len() as u32 {
        let share = share_of(network, cuts, k, candidate);
        if is_dear(network, node, cuts, k, share, earlier) {
            return Some(share);
        }
    }
    None
}

/// A share of one unit cut that shows that a node costs more than an earlier bound: its dual bound
/// at the price of a candidate that the node may choose is greater. None only where no unit cut
/// shows it at the price of any. Both plans of the node have an entry for each candidate. It takes
/// no memory, and asks each cut at the price of each candidate: `IdleTest` does the same in less
/// time.
pub fn dear_share(
    network: &Network,
    node: &Node,
    cuts: &UnitCuts,
    earlier: u128,
) -> Option<UnitShare>
    requires inside { length node.now.inside ≡ length network.now.candidates }
    requires upper { length node.now.upper ≡ length network.now.candidates }
    requires cuts { AreUnitCuts network.now cuts.now }
    ensures found { IfSome result (ShowsDear network.now node.now (AtLeast earlier)) }
    ensures none { IfNone result ((number unknown candidate : ℕ) → IsDearByUnit network.now node.now (AtLeast earlier) number unknown candidate → ⊥) }
{
    for k in 0..cuts.pool.len() {
        let found = first_dear_share(network, node, cuts, k, earlier);
        if found.is_some() {
            return found;
        }
    }
    None
}
