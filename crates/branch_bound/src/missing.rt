//! What a limit still asks of a plan at the displacement by 1 in one unknown.
ghost use Rattle.std.specs.Prelude.{◌≡◌, ◌<◌, length, IfSome};

use geo_model::{Candidate, Limit, Network, Plan};

/// Shares count in steps of a 2^32th part.
const STEPS: u128 = 4_294_967_296;

/// Energy that a limit asks for at the displacement by 1 in one unknown and a plan doesn't have:
/// `need` is the limit's load there less `alpha` times the energy of the plan. The bounds of a
/// network keep all these numbers below 2^100; the arithmetic would saturate.
#[derive(Clone, Copy, Debug, PartialEq, Eq)]
pub struct Missing {
    unknown: u32,
    alpha: u128,
    pub need: u128,
}

/// The square of a linear form at the displacement by 1 in one unknown: that of its coefficient.
fn square_at(entries: &[(u32, i64)], unknown: u32) -> u128 {
    for entry in entries {
        if entry.0 == unknown {
            let size = entry.1.unsigned_abs() as u128;
            return size.saturating_mul(size);
        }
    }
    0
}

/// The energy of a candidate at the displacement by 1 in one unknown.
fn candidate_energy(candidate: &Candidate, unknown: u32) -> u128 {
    let mut sum = 0u128;
    for row in candidate.rows.as_slice() {
        let weight = row.weight().unsigned_abs() as u128;
        sum = sum.saturating_add(weight.saturating_mul(square_at(row.entries(), unknown)));
    }
    sum
}

/// The energy of a plan at the displacement by 1 in one unknown.
fn plan_energy(network: &Network, plan: &Plan, unknown: u32) -> u128
    requires { length plan.now ≡ length network.now.candidates }
{
    let mut sum = 0u128;
    for (i, candidate) in network.candidates().iter().enumerate() {
        if plan.has(i as u32) {
            sum = sum.saturating_add(candidate_energy(candidate, unknown));
        }
    }
    sum
}

/// The load of a limit at the displacement by 1 in one unknown.
pub fn unit_load(limit: &Limit, unknown: u32) -> u128 {
    let mut sum = 0u128;
    for square in limit.squares.as_slice() {
        let form = square_at(square.entries.as_slice(), unknown);
        sum = sum.saturating_add(square.beta.unsigned_abs().saturating_mul(form));
    }
    sum
}

impl Missing {
    /// What a plan misses of a limit at the displacement by 1 in one unknown, if anything.
    pub fn of(network: &Network, plan: &Plan, limit: &Limit, unknown: u32) -> Option<Missing>
        requires { length plan.now ≡ length network.now.candidates }
        ensures { IfSome result (λ missing. 0 < missing.need) }
    {
        let load = unit_load(limit, unknown);
        if load == 0 {
            return None;
        }
        let alpha = limit.alpha.unsigned_abs() as u128;
        let reached = alpha.saturating_mul(plan_energy(network, plan, unknown));
        if load <= reached {
            return None;
        }
        Some(Missing {
            unknown,
            alpha,
            need: load - reached,
        })
    }

    /// The share of the missing energy that a candidate brings, for its price: in 2^64th parts of the
    /// whole, divided by one more than the price.
    pub fn share_for_price(&self, candidate: &Candidate) -> u128
        requires { 0 < self.now.need }
    {
        let brought = self
            .alpha
            .saturating_mul(candidate_energy(candidate, self.unknown))
            .min(self.need);
        let share = brought.saturating_mul(STEPS) / self.need;
        share.saturating_mul(STEPS) / (candidate.price as u128 + 1)
    }
}
