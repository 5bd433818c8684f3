//! The reduced prices that shares leave.
ghost use Rattle.std.specs.Prelude.{◌≡◌, ℕ, ◌*◌, ◌^◌, ◌≤◌, length, sum_by};
ghost use Rattle.whole_algebra.specs.Matrices.{at};
ghost use Rattle.geo_model.specs.Dual.{reduced_price};
ghost use Rattle.geo_model.specs.Prices.{prices_of};
ghost use Rattle.reduced_sums.specs.Groups.{AreReduced};
ghost use Rattle.dual_bound.specs.Shares.{AreShares, weighed_covers};

use cut_pool::{CutPool, Share};
use geo_model::Network;
use reduced_sums::{take_off, write_prices};

// Writes the reduced prices that shares leave, and answers the sum of their multipliers times the
// bounds of their cuts.
pub(crate) fn weigh(
    network: &Network,
    reduced: &mut [i128],
    d: u64,
    shares: &[Share],
    pool: &CutPool,
) -> u128
    requires places { length reduced.old ≡ length network.now.candidates }
    requires shares { AreShares (length network.now.candidates) pool.now d shares.now }
    ensures paid { result ≡ sum_by (λ share. share.multiplier * share.cover.bound) (weighed_covers pool.now shares.now) }
    ensures paid_size { result ≤ 2 ^ 74 }
    ensures taken { (i : ℕ) → at reduced.new i ≡ reduced_price (prices_of network.now) d (weighed_covers pool.now shares.now) i }
    ensures small { AreReduced (length network.now.candidates) reduced.new }
{
    write_prices(network, reduced, d);
    let mut paid = 0;
    for share in shares {
        let cut = pool.get(share.cut);
        take_off(reduced, cut.coefficients.as_slice(), share.y);
        paid += u128::from(share.y) * u128::from(cut.bound);
    }
    paid
}
