//! The candidate on which a node is split. Any open one serves: the choice makes logs short.
ghost use Rattle.std.specs.Prelude.{◌≡◌, ◌↔◌, ◌<◌, None, Some, true, false, slice_get, length, IsTrue, IfOk, IfSome, IfNone};
ghost use Rattle.limit_stacks.specs.Kept.{IsVerdictsOf};
ghost use Rattle.bound_log.specs.LogTree.{IsOpenAt};
ghost use Rattle.branch_bound.specs.Explored.{IsNode};

use crate::choice::{Choice, better, is_open};
use crate::missing::{Missing, unit_load};
use geo_base::NoMemory;
use geo_model::{Candidate, Limit, Network, Node, Row};
use limit_stacks::SearchVerdicts;
use pivot_chain::is_in_force;

/// How much more a row counts at an unknown that the limit loads than elsewhere.
const AT_LOADED: u128 = 1024;

/// The owner of a limit, where the node leaves it open and the limit shuts it out: the upper plan is
/// refuted on the limit.
fn shut_owner(
    verdicts: &mut SearchVerdicts,
    network: &Network,
    node: &Node,
    limit: u32,
) -> Result<Option<u32>, NoMemory>
    requires verdicts { IsVerdictsOf network.now verdicts.old }
    requires node { IsNode network.now node.now }
    requires limit { limit < length network.now.limits }
    ensures open { IfOk result (λ found. IfSome found (λ candidate. IsOpenAt network.now node.now candidate)) }
    ensures verdicts { IsVerdictsOf network.now verdicts.new }
{
    let limited = &network.limits()[limit as usize];
    let Some(owner) = limited.owner else {
        return Ok(None);
    };
    if !is_open(network, node, owner) {
        return Ok(None);
    }
    if !verdicts.is_refuted(network, &node.upper, limit)? {
        return Ok(None);
    }
    Ok(Some(owner))
}

/// The first open candidate that a limit of its own shuts out of the node.
fn shut_candidate(
    verdicts: &mut SearchVerdicts,
    network: &Network,
    node: &Node,
) -> Result<Option<u32>, NoMemory>
    requires verdicts { IsVerdictsOf network.now verdicts.old }
    requires node { IsNode network.now node.now }
    ensures open { IfOk result (λ found. IfSome found (λ candidate. IsOpenAt network.now node.now candidate)) }
    ensures verdicts { IsVerdictsOf network.now verdicts.new }
{
    for limit in 0..network.limits().len() as u32 {
        if let Some(candidate) = shut_owner(verdicts, network, node, limit)? {
            return Ok(Some(candidate));
        }
    }
    Ok(None)
}

/// The better of a choice so far and those open candidates that bring energy where a limit misses it
/// at the displacement by 1 in one unknown: each is worth its share of that for its price.
fn supplier_at(
    network: &Network,
    node: &Node,
    limit: &Limit,
    unknown: u32,
    found: Option<Choice>,
) -> Option<Choice>
    requires node { IsNode network.now node.now }
    requires found { IfSome found (λ choice. IsOpenAt network.now node.now choice.candidate) }
    ensures { IfSome result (λ choice. IsOpenAt network.now node.now choice.candidate) }
{
    let Some(missing) = Missing::of(network, &node.inside, limit, unknown) else {
        return found;
    };
    let mut best = found;
    for (i, candidate) in network.candidates().iter().enumerate() {
        let offered = Choice {
            candidate: i as u32,
            worth: missing.share_for_price(candidate),
        };
        best = better(network, node, offered, best);
    }
    best
}

/// The open candidate that brings the largest share of an energy which the inner plan misses of a
/// limit, for its price.
fn supplier_of(network: &Network, node: &Node, limit: &Limit) -> Option<Choice>
    requires { IsNode network.now node.now }
    ensures { IfSome result (λ choice. IsOpenAt network.now node.now choice.candidate) }
{
    let mut found = None;
    for unknown in 0..network.unknowns().len() as u32 {
        found = supplier_at(network, node, limit, unknown, found);
    }
    found
}

/// The open candidate that brings most of what is missing for its price, at the first limit in force
/// of which the inner plan misses energy at a displacement by 1 in one unknown.
fn supplier(network: &Network, node: &Node) -> Option<u32>
    requires { IsNode network.now node.now }
    ensures { IfSome result (λ candidate. IsOpenAt network.now node.now candidate) }
{
    for limit in 0..network.limits().len() as u32 {
        if is_in_force(network, &node.inside, limit) {
            if let Some(choice) = supplier_of(network, node, &network.limits()[limit as usize]) {
                return Some(choice.candidate);
            }
        }
    }
    None
}

/// What a row weighs for a limit: its weight times the squares of its coefficients, of which those
/// at the unknowns that the limit loads count most.
fn row_worth(row: &Row, limit: &Limit) -> u128 {
    let mut sum = 0u128;
    for entry in row.entries() {
        let size = entry.1.unsigned_abs() as u128;
        let times = if unit_load(limit, entry.0) > 0 {
            AT_LOADED
        } else {
            1
        };
        sum = sum.saturating_add(size.saturating_mul(size).saturating_mul(times));
    }
    sum.saturating_mul(row.weight().unsigned_abs() as u128)
}

/// What the rows of a candidate weigh for a limit, for its price.
fn worth_of(candidate: &Candidate, limit: &Limit) -> u128 {
    let mut sum = 0u128;
    for row in candidate.rows.as_slice() {
        sum = sum.saturating_add(row_worth(row, limit));
    }
    sum / (candidate.price as u128 + 1)
}

/// The open candidate whose rows weigh most for a limit and its price, the first one of those.
fn weightiest(network: &Network, node: &Node, limit: &Limit) -> Option<u32>
    requires { IsNode network.now node.now }
    ensures open { IfSome result (λ candidate. IsOpenAt network.now node.now candidate) }
    ensures none { IfNone result (node.now.inside ≡ node.now.upper) }
{
    let mut found = None;
    for candidate in 0..network.candidates().len() as u32 {
        let worth = worth_of(&network.candidates()[candidate as usize], limit);
        found = better(network, node, Choice { candidate, worth }, found);
    }
    match found {
        Some(choice) => Some(choice.candidate),
        None => None,
    }
}

/// The candidate on which a node is split whose inner plan isn't met on a limit: one that its own
/// limit shuts out, which ends the child that takes it; else the one that brings the largest share of
/// a missing energy for its price; or else, where no energy is missing at a displacement by 1 in one
/// unknown, the one whose rows weigh most. There is none where the node has one plan alone.
/// `none_shut` says that no limit shuts one out, where that is known, and is set where it is found so.
/// Refused for want of memory alone.
pub fn branch_candidate(
    verdicts: &mut SearchVerdicts,
    network: &Network,
    node: &Node,
    none_shut: &mut bool,
    limit: u32,
) -> Result<Option<u32>, NoMemory>
    requires verdicts { IsVerdictsOf network.now verdicts.old }
    requires node { IsNode network.now node.now }
    requires limit { limit < length network.now.limits }
    ensures open { IfOk result (λ found. IfSome found (λ candidate. IsOpenAt network.now node.now candidate)) }
    ensures none { IfOk result (λ found. IfNone found (node.now.inside ≡ node.now.upper)) }
    ensures verdicts { IsVerdictsOf network.now verdicts.new }
{
    // The child that takes a candidate which its own limit shuts out ends at once.
    if !*none_shut {
        if let Some(candidate) = shut_candidate(verdicts, network, node)? {
            return Ok(Some(candidate));
        }
        *none_shut = true;
    }
    // All limits at once, in place of the first that misses energy, take more nodes on generated
    // networks; the first unmet limit alone takes more on levelling and on distances.
    if let Some(candidate) = supplier(network, node) {
        return Ok(Some(candidate));
    }
    Ok(weightiest(network, node, &network.limits()[limit as usize]))
}
