//! From multipliers in fixed point to whole shares over a divisor.
ghost use Rattle.std.specs.Prelude.{◌≡◌, ◌<◌, ◌≤◌, ◌^◌, All, length, IfSome, IfOk};
ghost use Rattle.dual_ascent.specs.Duals.{IsShareWithin};

use crate::naming::is_named;
use cut_pool::{CutPool, Share};
use geo_base::NoMemory;
use geo_model::{Network, Node};
use std::alloc::Global;

// What a divisor and a multiplier are at most.
const MOST: u64 = 1 << 44;

const MOST_BITS: u32 = 44;

// How many shares there are at most.
const MOST_SHARES: usize = 64;

/// A multiplier of a cut in fixed point, for the cut's coefficients over its bound.
pub use dual_simplex::CutMultiplier as Multiplier;

// The multiplier of a cut for its own coefficients, times 2^12: rounded down.
fn quotient_of(pool: &CutPool, multiplier: Multiplier) -> u128 {
    if multiplier.cut >= pool.len() || multiplier.multiplier <= 0 {
        return 0;
    }
    let size = (multiplier.multiplier.unsigned_abs() as u128).wrapping_shl(12);
    size / (pool.get(multiplier.cut).bound as u128).max(1)
}

/// The power of two by which multipliers times 2^12 are divided, so that the greatest stays within
/// the bounds of a share.
pub fn share_shift(pool: &CutPool, multipliers: &[Multiplier]) -> u32 {
    let mut greatest = 0u128;
    for multiplier in multipliers {
        greatest = greatest.max(quotient_of(pool, *multiplier));
    }
    128 - (greatest >> MOST_BITS).leading_zeros()
}

/// A divisor of so many bits, within the bounds of a log.
pub fn divisor_of(bits: u32) -> u64
    ensures low { 1 ≤ result }
    ensures high { result ≤ 2 ^ 44 }
{
    1u64.wrapping_shl(bits).clamp(1, MOST)
}

// The share of a cut with a multiplier: none where it is 0, or where the cut may not be named.
fn share_of(network: &Network, node: &Node, pool: &CutPool, cut: u32, y: u128) -> Option<Share>
    requires inside { length node.now.inside ≡ length network.now.candidates }
    requires limits { All (λ cut. cut.limit < length network.now.limits) pool.now }
    ensures { IfSome result (λ share. IsShareWithin network.now node.now pool.now share) }
{
    if y == 0 || !is_named(network, node, pool, cut) {
        return None;
    }
    Some(Share {
        y: y.min(MOST as u128) as u64,
        cut,
    })
}

/// The shares that multipliers make, of which the first go first: at most 64 of cuts that may be named.
pub fn shares_of(
    alloc: Global,
    network: &Network,
    node: &Node,
    pool: &CutPool,
    multipliers: &[Multiplier],
) -> Result<Vec<Share>, NoMemory>
    requires inside { length node.now.inside ≡ length network.now.candidates }
    requires limits { All (λ cut. cut.limit < length network.now.limits) pool.now }
    ensures few { IfOk result (λ shares. length shares.items ≤ 64) }
    ensures each { IfOk result (λ shares. All (IsShareWithin network.now node.now pool.now) shares.items) }
{
    let shift = share_shift(pool, multipliers);
    let mut shares = Vec::new(alloc);
    for multiplier in multipliers {
        let y = quotient_of(pool, *multiplier).wrapping_shr(shift);
        if shares.len() < MOST_SHARES {
            if let Some(share) = share_of(network, node, pool, multiplier.cut, y) {
                shares.push(share)?;
            }
        }
    }
    Ok(shares)
}
