//! Plans of a node as one cut sees them.
ghost use Rattle.std.specs.Prelude.{◌≡◌, ◌+◌, ◌*◌, ◌^◌, ◌<◌, ◌≤◌, length, All, IsTrue};
ghost use Rattle.geo_model.specs.Cover.{chosen_sum};
ghost use Rattle.idle_splits.specs.Fillings.{IsFilling, IsMixedBelow};
ghost use Rattle.idle_splits.specs.UnitCuts.{KeepsUnitCuts};

use crate::unit_cuts::UnitCuts;
use geo_model::{Network, Plan, cost};

/// What a plan weighs in a cut, and what it costs.
#[derive(Clone, Copy)]
pub(crate) struct Filling {
    pub(crate) weight: u64,
    pub(crate) price: u64,
}

// How often each of two plans counts.
#[derive(Clone, Copy)]
struct Times {
    one: u64,
    two: u64,
}

// The sum of the coefficients of a plan's candidates.
fn weight_of(coefficients: &[u32], plan: &Plan) -> u64
    requires plan { length plan.now ≡ length coefficients.now }
    requires few { length coefficients.now ≤ 256 }
    requires small { All (λ coefficient. coefficient < 2 ^ 24) coefficients.now }
    ensures value { result ≡ chosen_sum coefficients.now plan.now }
    ensures size { result ≤ 2 ^ 32 }
{
    let mut sum = 0;
    for (i, &coefficient) in coefficients.iter().enumerate() {
        if plan.has(i as u32) {
            sum += u64::from(coefficient);
        }
    }
    sum
}

/// What a plan weighs in a kept cut, by its number, and what it costs.
pub(crate) fn filling_of(network: &Network, cuts: &UnitCuts, k: u32, plan: &Plan) -> Filling
    requires plan { length plan.now ≡ length network.now.candidates }
    requires cuts { KeepsUnitCuts network.now cuts.now }
    requires k { k < length cuts.now.pool }
    ensures filling { IsFilling network.now cuts.now k plan.now result }
    ensures size { result.weight ≤ 2 ^ 32 }
{
    // The network's bounds, for the proof.
    let _bounds = network.limits();
    let cut = cuts.pool.get(k);
    Filling {
        weight: weight_of(cut.coefficients.as_slice(), plan),
        price: cost(network, plan),
    }
}

// A number and another one, each counted so many times.
fn counted(times: Times, first: u64, second: u64) -> u128
    requires one { times.one ≤ 2 ^ 32 }
    requires two { times.two ≤ 2 ^ 32 }
    ensures { result ≡ times.one * first + times.two * second }
{
    u128::from(times.one) * u128::from(first) + u128::from(times.two) * u128::from(second)
}

// How often two plans count so that together they just reach a bound, where the second one reaches
// it: it is only proposed.
fn times_of(bound: u64, first: Filling, second: Filling) -> Times
    requires bound { bound ≤ 2 ^ 32 }
    requires second { second.weight ≤ 2 ^ 32 }
    ensures one { result.one ≤ 2 ^ 32 }
    ensures two { result.two ≤ 2 ^ 32 }
{
    if first.weight >= bound {
        return Times { one: 1, two: 0 };
    }
    Times {
        one: second.weight.saturating_sub(bound),
        two: bound.saturating_sub(first.weight),
    }
}

/// Whether two plans, each counted a number of times, reach a bound and cost no more than a price
/// as often.
pub(crate) fn is_mixed_below(bound: u64, first: Filling, second: Filling, earlier: u128) -> bool
    requires bound { bound ≤ 2 ^ 32 }
    requires second { second.weight ≤ 2 ^ 32 }
    ensures { IsTrue result → IsMixedBelow bound earlier first second }
{
    let most = earlier.min(u128::from(u64::MAX)) as u64;
    let times = times_of(bound, first, second);
    times.one + times.two > 0
        && counted(times, bound, bound) <= counted(times, first.weight, second.weight)
        && counted(times, first.price, second.price) <= counted(times, most, most)
}
