//! Which cuts may be named at a node.
ghost use Rattle.std.specs.Prelude.{◌≡◌, ◌↔◌, ◌<◌, ℕ, Some, All, length, slice_get, IsTrue, IfSome, IfNone};
ghost use Rattle.cut_pool.specs.Cut.{CutOf};
ghost use Rattle.dual_ascent.specs.Duals.{IsCutNameable, IsNamedAt};

use cut_pool::{Cut, CutPool};
use geo_model::{Network, Node};

/// Whether a cut may be named at a node: its limit has no owner, or one that is in the inner plan.
fn may_be_named(network: &Network, node: &Node, cut: &Cut) -> bool
    requires inside { length node.now.inside ≡ length network.now.candidates }
    requires limit { cut.now.limit < length network.now.limits }
    ensures { IsTrue result ↔ IsCutNameable network.now node.now cut.now }
{
    network.limits()[cut.limit as usize].is_in_force(&node.inside)
}

/// Whether the pool has a cut of this number that may be named at a node.
pub fn is_named(network: &Network, node: &Node, pool: &CutPool, cut: u32) -> bool
    requires inside { length node.now.inside ≡ length network.now.candidates }
    requires limits { All (λ cut. cut.limit < length network.now.limits) pool.now }
    ensures { IsTrue result ↔ IsNamedAt network.now node.now pool.now cut }
{
    cut < pool.len() && may_be_named(network, node, pool.get(cut))
}

/// The number of the first cut of the pool that may be named at a node.
pub fn first_named(network: &Network, node: &Node, pool: &CutPool) -> Option<u32>
    requires inside { length node.now.inside ≡ length network.now.candidates }
    requires limits { All (λ cut. cut.limit < length network.now.limits) pool.now }
    ensures named { IfSome result (λ cut. IsNamedAt network.now node.now pool.now cut) }
    ensures none { IfNone result ((k : ℕ) → IsNamedAt network.now node.now pool.now k → ⊥) }
{
    for cut in 0..pool.len() {
        if is_named(network, node, pool, cut) {
            return Some(cut);
        }
    }
    None
}
