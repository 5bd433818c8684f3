//! The dual bound, from the reduced prices of the candidates.
ghost use Rattle.std.specs.Prelude.{◌≡◌, ℕ, ◌+◌, ◌-◌, ◌*◌, ◌/◌, ◌^◌, ◌≤◌, List, length, sum_by, unsigned_abs};
ghost use Rattle.whole_algebra.specs.Matrices.{at};
ghost use Rattle.geo_model.specs.Dual.{WeighedCover, at_least_zero, dual_bound, reduced_price};
ghost use Rattle.geo_model.specs.Prices.{prices_of};
ghost use Rattle.reduced_sums.specs.Groups.{AreReduced};

use crate::sums::{inner_sum, open_sum, stations_sum};
use geo_model::{Network, Node};

// A number over the divisor, rounded up, and at least 0.
fn rounded_up(sum: i128, divisor: u64) -> u128
    requires size { unsigned_abs sum ≤ 2 ^ 100 }
    requires divisor { 1 ≤ divisor }
    ensures { result ≡ (at_least_zero sum + (divisor - 1)) / divisor }
{
    let whole = sum.max(0) as u128;
    (whole + u128::from(divisor - 1)) / u128::from(divisor)
}

/// The dual bound of a node, from the divisor, the reduced prices that shares leave, and the sum of
/// the multipliers of the shares times the bounds of their cuts, which is `paid`. Both plans of the
/// node have an entry for each candidate of the network. The divisor is from 1 to 2^44, each reduced
/// price at most 2^75 in size, and `paid` at most 2^74. It takes no memory.
pub fn bound_of_sums(
    network: &Network,
    node: &Node,
    divisor: u64,
    reduced: &[i128],
    paid: u128,
) -> u128
    requires inside { length node.now.inside ≡ length network.now.candidates }
    requires upper { length node.now.upper ≡ length network.now.candidates }
    requires low { 1 ≤ divisor }
    requires high { divisor ≤ 2 ^ 44 }
    requires reduced { AreReduced (length network.now.candidates) reduced.now }
    requires paid { paid ≤ 2 ^ 74 }
    ensures { (shares : List WeighedCover) → paid ≡ sum_by (λ share. share.multiplier * share.cover.bound) shares
        → ((i : ℕ) → at reduced.now i ≡ reduced_price (prices_of network.now) divisor shares i)
        → result ≡ dual_bound (prices_of network.now) divisor shares node.now }
{
    let inner = inner_sum(network, node, reduced);
    let free = open_sum(network, node, reduced, None);
    let stations = stations_sum(network, node, divisor, reduced);
    rounded_up(inner + free + stations + paid as i128, divisor)
}
