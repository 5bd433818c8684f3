ghost use Rattle.std.specs.Prelude.{◌≡◌, ◌<◌, ◌≤◌, ◌^◌, ℕ, Ok, None, All, length, IfOk, IfSome};
ghost use Rattle.dual_ascent.specs.Duals.{IsNamedAt, IsDualWithin};

use crate::dual::Dual;
use crate::multipliers::{Multiplier, divisor_of, share_shift, shares_of};
use crate::naming::first_named;
use crate::relaxation::{Relaxation, RelaxationEnd, price_shift};
use cut_pool::{CutPool, Share};
use geo_base::NoMemory;
use geo_model::{Network, Node};
use std::alloc::Global;

// The bits of the divisor of a bound, where neither prices nor multipliers are large: the 32
// fractional bits of multipliers, and 12 more.
const DIVISOR_BITS: u32 = 44;

// The bits of the divisor of multipliers that end as this.
fn divisor_bits(kind: Option<RelaxationEnd>, price_shift: u32, share_shift: u32) -> u32 {
    match kind {
        Some(RelaxationEnd::Bound) => DIVISOR_BITS
            .saturating_sub(price_shift)
            .saturating_sub(share_shift),
        // The larger the multipliers of a ray are beside the prices, the higher is the bound.
        Some(RelaxationEnd::Ray) => 0,
        None => DIVISOR_BITS,
    }
}

/// Multipliers of cuts, the greatest first, as a divisor and whole shares: those of a bound at the
/// node, or those of a ray. At most 64 of cuts that may be named at the node are taken; none where
/// there is no such one. Refused for want of memory alone.
pub fn dual_of(
    alloc: Global,
    network: &Network,
    node: &Node,
    pool: &CutPool,
    kind: RelaxationEnd,
    multipliers: &[Multiplier],
) -> Result<Option<Dual>, NoMemory>
    requires inside { length node.now.inside ≡ length network.now.candidates }
    requires limits { All (λ cut. cut.limit < length network.now.limits) pool.now }
    ensures dual { IfOk result (λ found. IfSome found (IsDualWithin network.now node.now pool.now)) }
{
    let shares = shares_of(alloc, network, node, pool, multipliers)?;
    if shares.is_empty() {
        return Ok(None);
    }
    let shift = share_shift(pool, multipliers);
    let d = divisor_of(divisor_bits(Some(kind), price_shift(network), shift));
    Ok(Some(Dual { d, shares }))
}

/// Multipliers for cuts of the pool, for a dual bound of the node: a divisor, and from one to 64
/// shares of cuts whose limit has no owner or one in the node's inner plan. None only where the pool
/// has no such cut. How high the bound is isn't proved. Refused for want of memory alone.
pub fn ascend(
    alloc: Global,
    network: &Network,
    node: &Node,
    pool: &CutPool,
) -> Result<Option<Dual>, NoMemory>
    requires inside { length node.now.inside ≡ length network.now.candidates }
    requires upper { length node.now.upper ≡ length network.now.candidates }
    requires limits { All (λ cut. cut.limit < length network.now.limits) pool.now }
    ensures dual { IfOk result (λ found. IfSome found (IsDualWithin network.now node.now pool.now)) }
    ensures none { result ≡ Ok None → (k : ℕ) → IsNamedAt network.now node.now pool.now k → ⊥ }
{
    let Some(first) = first_named(network, node, pool) else {
        return Ok(None);
    };
    let mut multipliers = Vec::new(alloc);
    let kind = Relaxation::new(alloc).solve(alloc, network, node, pool, &mut multipliers)?;
    let mut shares = shares_of(alloc, network, node, pool, multipliers.as_slice())?;
    // A small share of any cut gives the price of the inner plan.
    if shares.is_empty() {
        shares.push(Share { y: 1, cut: first })?;
    }
    let shift = share_shift(pool, multipliers.as_slice());
    let d = divisor_of(divisor_bits(kind, price_shift(network), shift));
    Ok(Some(Dual { d, shares }))
}
