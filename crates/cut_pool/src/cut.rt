ghost use Rattle.std.specs.Prelude.{◌≡◌, ◌+◌, ◌-◌, ◌/◌, ◌*◌, ◌^◌, ◌<◌, ◌≤◌, min, pos, ◌≤ℤ◌, ◌*ℤ◌, unsigned_abs, Some, length, slice_get, All, IfOk};
ghost use Rattle.whole_algebra.specs.Matrices.{at};
ghost use Rattle.geo_model.specs.Candidate.{IsCandidate, candidate_energy};
ghost use Rattle.geo_model.specs.Limit.{LimitOf};
ghost use Rattle.cut_pool.specs.Cut.{cut_shift, rounded_up, cover_of, IsCutOf};

use geo_base::NoMemory;
use geo_model::{Candidate, Displacement, Network, candidate_energy, load};
use std::alloc::Global;
use std::marker::Model;

// What the bound of a cut stays below.
const LIMIT: u128 = 16_777_216;

/// A cut: the covering inequality that a displacement asks of each plan that meets a limit. Its type
/// keeps nothing of it.
#[derive(Debug, Drop)]
pub struct Cut {
    /// The number of the limit, from 0.
    pub limit: u32,
    /// The displacement.
    pub x: Displacement,
    /// The coefficient of each candidate.
    pub coefficients: Vec<u32>,
    /// What the coefficients of the chosen candidates sum to at least.
    pub bound: u32,
}

impl Model for Cut {
    ghost use Rattle.cut_pool.specs.Cut.{CutOf};

    ghost Value = { CutOf };

    ghost view = { λ cut. record { limit = cut.limit; x = cut.x; coefficients = cut.coefficients.items; bound = cut.bound } };
}

/// The cut of a limit, by its number from 0, and a displacement: a bound and coefficients below
/// 2^24. Refused for want of memory alone; the displacement is then dropped.
pub fn cut_of(
    alloc: Global,
    network: &Network,
    limit: u32,
    x: Displacement,
) -> Result<Cut, NoMemory>
    requires limit { limit < length network.now.limits }
    requires displacement { length x ≡ length network.now.unknowns }
    ensures { IfOk result (IsCutOf network.now limit x) }
{
    let mut coefficients = vec![in alloc; 0; network.candidates().len()]?;
    let bound = cut_into(network, limit, &x, coefficients.as_mut_slice());
    Ok(Cut {
        limit,
        x,
        coefficients,
        bound,
    })
}

/// Writes the coefficients of the cut of a limit, by its number from 0, and a displacement, and
/// answers the cut's bound. It takes no memory. The slice has a place for each candidate, the
/// displacement an entry for each unknown.
pub fn cut_into(network: &Network, limit: u32, x: &Displacement, coefficients: &mut [u32]) -> u32
    requires limit { limit < length network.now.limits }
    requires displacement { length x.now ≡ length network.now.unknowns }
    requires places { length coefficients.old ≡ length network.now.candidates }
    ensures value { (l : LimitOf) → slice_get network.now.limits limit ≡ Some l → record { coefficients = coefficients.new; bound = result } ≡ cover_of network.now l (at x.now) }
    ensures small { result < 2 ^ 24 }
    ensures each_small { All (λ coefficient. coefficient < 2 ^ 24) coefficients.new }
{
    let limits = network.limits();
    let form = &limits[limit as usize];
    let number = load(network, limit, x).unsigned_abs();
    let shift = cut_shift(number);
    let bound = (number >> shift) as u32;
    let candidates = network.candidates();
    for (i, candidate) in candidates.iter().enumerate() {
        coefficients[i] = coefficient_of(candidate, x, form.alpha, shift, bound);
    }
    bound
}

// The least number with `n / 2^t`, rounded down, below 2^24.
fn cut_shift(n: u128) -> u32
    requires { n < 2 ^ 120 }
    ensures value { result ≡ cut_shift n }
    ensures reached { n / 2 ^ result < 2 ^ 24 }
    ensures size { result ≤ 96 }
{
    let mut shift = 0;
    while n >> shift >= LIMIT {
        shift += 1;
    }
    shift
}

// A candidate's factor times energy over a power of two, rounded up, and no more than the bound.
fn coefficient_of(
    candidate: &Candidate,
    x: &Displacement,
    alpha: i64,
    shift: u32,
    bound: u32,
) -> u32
    requires bounds { IsCandidate (length x.now) candidate.now }
    requires few { length candidate.now.rows ≤ 512 }
    requires low { pos 1 ≤ℤ alpha }
    requires high { alpha ≤ℤ pos 1000000 }
    requires shift { shift ≤ 96 }
    ensures { result ≡ min bound (rounded_up (unsigned_abs (alpha *ℤ candidate_energy candidate.now (at x.now))) (2 ^ shift)) }
{
    let number = (alpha as i128 * candidate_energy(candidate, x)).unsigned_abs();
    let up = (number + ((1u128 << shift) - 1)) >> shift;
    if up < u128::from(bound) {
        up as u32
    } else {
        bound
    }
}
