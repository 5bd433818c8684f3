//! What the search asks of a plan and one limit.
ghost use Rattle.std.specs.Prelude.{◌≡◌, ◌↔◌, ◌<◌, ℕ, ℤ, Some, slice_get, length, IsTrue, IfOk, IfSome, IfNone};
ghost use Rattle.geo_model.specs.Limit.{LimitOf};
ghost use Rattle.limit_stacks.specs.Kept.{IsVerdictsOf};
ghost use Rattle.bound_log.specs.LogTree.{IsNodeRefutedBy};
ghost use Rattle.branch_bound.specs.Explored.{IsNode};
ghost use Rattle.branch_bound.specs.Searched.{IsOpenLimit};

use geo_base::NoMemory;
use geo_model::{Network, Node, Plan, Verdict};
use limit_stacks::SearchVerdicts;
use pivot_chain::is_in_force;

/// A limit whose verdict is open: its number, and the step and the interval of the verdict.
#[derive(Clone, Copy, Debug, PartialEq, Eq)]
pub struct OpenLimit {
    pub limit: u32,
    pub step: u32,
    pub lo: i128,
    pub hi: i128,
}

/// Whether a limit refutes a node: it is in force for the inner plan, and the upper plan is refuted.
pub fn refutes(
    verdicts: &mut SearchVerdicts,
    network: &Network,
    node: &Node,
    limit: u32,
) -> Result<bool, NoMemory>
    requires verdicts { IsVerdictsOf network.now verdicts.old }
    requires node { IsNode network.now node.now }
    requires limit { limit < length network.now.limits }
    ensures refuted { IfOk result (λ refuted. IsTrue refuted ↔ IsNodeRefutedBy network.now node.now limit) }
    ensures verdicts { IsVerdictsOf network.now verdicts.new }
{
    if !is_in_force(network, &node.inside, limit) {
        return Ok(false);
    }
    verdicts.is_refuted(network, &node.upper, limit)
}

/// Whether the limit of a number is a candidate's own.
pub fn is_owned_by(network: &Network, limit: u32, candidate: u32) -> bool
    requires { limit < length network.now.limits }
    ensures { (l : LimitOf) → slice_get network.now.limits limit ≡ Some l → IsTrue result ↔ (l.owner ≡ Some candidate) }
{
    let limit = &network.limits()[limit as usize];
    match limit.owner {
        None => false,
        Some(owner) => owner == candidate,
    }
}

/// The open verdict of a plan on a limit, where the limit is in force for it and the verdict is open.
pub fn open_limit(
    verdicts: &mut SearchVerdicts,
    network: &Network,
    plan: &Plan,
    limit: u32,
) -> Option<OpenLimit>
    requires verdicts { IsVerdictsOf network.now verdicts.old }
    requires plan { length plan.now ≡ length network.now.candidates }
    requires limit { limit < length network.now.limits }
    ensures number { IfSome result (λ found. found.limit ≡ limit) }
    ensures found { IfSome result (λ found. IsOpenLimit network.now plan.now found.limit found.step found.lo found.hi) }
    ensures none { IfNone result ((step : ℕ) (lo hi : ℤ) → IsOpenLimit network.now plan.now limit step lo hi → ⊥) }
    ensures verdicts { IsVerdictsOf network.now verdicts.new }
{
    if !is_in_force(network, plan, limit) {
        return None;
    }
    match verdicts.verdict(network, plan, limit) {
        Verdict::Met => None,
        Verdict::Refuted => None,
        Verdict::Open { step, lo, hi } => Some(OpenLimit {
            limit,
            step,
            lo,
            hi,
        }),
    }
}
