//! The reduced prices of the candidates: the divisor times their prices, less what shares take off.
ghost use Rattle.std.specs.Prelude.{◌≡◌, ℕ, ◌+◌, ◌*◌, ◌^◌, ◌<◌, ◌≤◌, [], pos, ◌-ℤ◌, All, length, get_or, unsigned_abs};
ghost use Rattle.whole_algebra.specs.Matrices.{at};
ghost use Rattle.geo_model.specs.Dual.{reduced_price};
ghost use Rattle.geo_model.specs.Prices.{prices_of};

use geo_model::Network;

/// Writes the divisor times the price of each candidate: its reduced price where there are no shares.
/// There is a place for each candidate, and the divisor is at most 2^44. It takes no memory.
pub fn write_prices(network: &Network, reduced: &mut [i128], divisor: u64)
    requires divisor { divisor ≤ 2 ^ 44 }
    requires places { length reduced.old ≡ length network.now.candidates }
    ensures prices { (i : ℕ) → at reduced.new i ≡ reduced_price (prices_of network.now) divisor [] i }
    ensures small { (i : ℕ) → unsigned_abs (at reduced.new i) ≤ 2 ^ 74 }
{
    let candidates = network.candidates();
    for (i, candidate) in candidates.iter().enumerate() {
        let whole = u128::from(divisor) * u128::from(candidate.price);
        reduced[i] = whole as i128;
    }
}

/// Takes off a multiplier times the coefficient of each candidate, as a share does. There is a place
/// for each coefficient; the multiplier is at most 2^44, each coefficient below 2^24. It takes no
/// memory.
pub fn take_off(reduced: &mut [i128], coefficients: &[u32], multiplier: u64)
    requires places { length reduced.old ≡ length coefficients.now }
    requires multiplier { multiplier ≤ 2 ^ 44 }
    requires coefficients { All (λ coefficient. coefficient < 2 ^ 24) coefficients.now }
    requires small { (i : ℕ) → unsigned_abs (at reduced.old i) ≤ 2 ^ 75 }
    ensures taken { (i : ℕ) → at reduced.new i ≡ at reduced.old i -ℤ pos (multiplier * get_or coefficients.now i 0) }
    ensures near { (i : ℕ) → unsigned_abs (at reduced.new i) ≤ unsigned_abs (at reduced.old i) + 2 ^ 68 }
{
    for (i, coefficient) in coefficients.iter().enumerate() {
        let part = u128::from(multiplier) * u128::from(*coefficient);
        reduced[i] -= part as i128;
    }
}
