ghost use Rattle.std.specs.Prelude.{◌≡◌, length};
ghost use Rattle.geo_model.specs.Dual.{dual_bound};
ghost use Rattle.geo_model.specs.Prices.{prices_of};
ghost use Rattle.dual_bound.specs.Shares.{AreShares, weighed_covers};

use crate::weighing::weigh;
use cut_pool::{CutPool, Share};
use geo_model::{Network, Node};
use reduced_sums::bound_of_sums;

/// A network has no more candidates.
const MOST_CANDIDATES: usize = 256;

/// The dual bound of a node: a lower bound on the price of each of its plans that satisfies the cuts
/// of the shares, by their multipliers and the divisor `d`. Both plans of the node have an entry for
/// each candidate of the network. The divisor and each multiplier are from 1 to 2^44. There are at
/// most 64 shares, each of a cut of the pool with a coefficient below 2^24 for each candidate and a
/// bound below 2^24. It takes no memory.
pub fn leaf_bound(network: &Network, node: &Node, d: u64, shares: &[Share], pool: &CutPool) -> u128
    requires inside { length node.now.inside ≡ length network.now.candidates }
    requires upper { length node.now.upper ≡ length network.now.candidates }
    requires shares { AreShares (length network.now.candidates) pool.now d shares.now }
    ensures { result ≡ dual_bound (prices_of network.now) d (weighed_covers pool.now shares.now) node.now }
{
    let mut room = [0; MOST_CANDIDATES];
    let reduced = &mut room[..network.candidates().len()];
    let paid = weigh(network, reduced, d, shares, pool);
    bound_of_sums(network, node, d, reduced, paid)
}
