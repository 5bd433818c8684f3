//! What the search asks of a node.
ghost use Rattle.std.specs.Prelude.{◌≡◌, ◌↔◌, ◌<◌, ℕ, length, IsTrue, IfSome, IfNone, IfOk, OnOk};
ghost use Rattle.geo_model.specs.Prices.{price_of};
ghost use Rattle.geo_model.specs.Network.{IsNetwork};
ghost use Rattle.limit_stacks.specs.Kept.{IsVerdictsOf};
ghost use Rattle.bound_log.specs.LogTree.{IsNodeRefutedBy};
ghost use Rattle.branch_bound.specs.Cuts.{AreCutsFor, GotCuts, IsWritable, log_line_of};
ghost use Rattle.branch_bound.specs.Explored.{IsNode, IsLineAt};
ghost use Rattle.branch_bound.specs.Found.{IsTrueBest, IsCovered, IsBelow, IsOffered, best_bound};
ghost use Rattle.branch_bound.specs.Searched.{IsCertified};
ghost use Rattle.branch_bound.specs.Inherited.{IsInherited, IsUnmetAt};
ghost use Rattle.std.specs.Option.{ForSome};

use crate::best::Best;
use crate::branch::branch_candidate;
use crate::cuts::Cuts;
use crate::inherited::Inherited;
use crate::limit_verdicts::{is_owned_by, refutes};
use crate::node_line::NodeLine;
use geo_base::NoMemory;
use geo_model::{Network, Node, Plan, cost};
use limit_stacks::SearchVerdicts;
use std::alloc::Global;

/// Whether a limit refutes a node, where the node may inherit the candidate that owns each limit that does.
fn refutes_now(
    verdicts: &mut SearchVerdicts,
    network: &Network,
    node: &Node,
    inherited: &Inherited,
    limit: u32,
) -> Result<bool, NoMemory>
    requires verdicts { IsVerdictsOf network.now verdicts.old }
    requires node { IsNode network.now node.now }
    requires inherited { IsInherited network.now node.now inherited.now }
    requires limit { limit < length network.now.limits }
    ensures refuted { IfOk result (λ refuted. IsTrue refuted ↔ IsNodeRefutedBy network.now node.now limit) }
    ensures verdicts { IsVerdictsOf network.now verdicts.new }
{
    if let Some(candidate) = inherited.chosen {
        if !is_owned_by(network, limit, candidate) {
            return Ok(false);
        }
    }
    refutes(verdicts, network, node, limit)
}

/// The number of the first limit that refutes a node.
fn refuting_limit(
    verdicts: &mut SearchVerdicts,
    network: &Network,
    node: &Node,
    inherited: &Inherited,
) -> Result<Option<u32>, NoMemory>
    requires verdicts { IsVerdictsOf network.now verdicts.old }
    requires node { IsNode network.now node.now }
    requires inherited { IsInherited network.now node.now inherited.now }
    ensures found { IfOk result (λ found. IfSome found (λ limit. IsNodeRefutedBy network.now node.now limit)) }
    ensures none { IfOk result (λ found. IfNone found ((k : ℕ) → IsNodeRefutedBy network.now node.now k → ⊥)) }
    ensures bounds { IsNetwork network.now }
    ensures verdicts { IsVerdictsOf network.now verdicts.new }
{
    for limit in 0..network.limits().len() as u32 {
        if refutes_now(verdicts, network, node, inherited, limit)? {
            return Ok(Some(limit));
        }
    }
    Ok(None)
}

/// The number of a limit in force for a plan on which it isn't met: the one that is known already, or
/// else the first one. There is none where the plan is certified.
fn unmet_limit(
    verdicts: &mut SearchVerdicts,
    network: &Network,
    plan: &Plan,
    known: Option<u32>,
) -> Result<Option<u32>, NoMemory>
    requires verdicts { IsVerdictsOf network.now verdicts.old }
    requires plan { length plan.now ≡ length network.now.candidates }
    requires known { ForSome known (λ limit. IsUnmetAt network.now plan.now limit) }
    ensures unmet { IfOk result (λ found. IfSome found (λ limit. IsUnmetAt network.now plan.now limit)) }
    ensures none { IfOk result (λ found. IfNone found (IsCertified network.now plan.now)) }
    ensures verdicts { IsVerdictsOf network.now verdicts.new }
{
    if known.is_some() {
        return Ok(known);
    }
    for limit in 0..network.limits().len() as u32 {
        if !verdicts.is_met(network, plan, limit)? {
            return Ok(Some(limit));
        }
    }
    Ok(None)
}

/// Whether the best plan so far makes a certified plan of this price, or a higher one, needless: it
/// costs no more, and where it is unsettled it costs less.
fn is_cut_off(network: &Network, plan: &Plan, best: &Best) -> bool
    requires plan { length plan.now ≡ length network.now.candidates }
    requires kept { IsTrueBest network.now best.now }
    ensures { IsTrue result ↔ IsCovered network.now best.now plan.now }
{
    let price = cost(network, plan);
    match best {
        Best::NoPlan => false,
        Best::Certified(best) => cost(network, best) <= price,
        Best::Unsettled(best) => cost(network, best) < price,
    }
}

/// Whether a plan is cheaper than the best one so far, or there is none.
fn is_cheaper(network: &Network, plan: &Plan, best: &Best) -> bool
    requires plan { length plan.now ≡ length network.now.candidates }
    requires kept { IsTrueBest network.now best.now }
    ensures { IsTrue result ↔ IsBelow (price_of network.now plan.now) (best_bound network.now best.now) }
{
    let price = cost(network, plan);
    match best {
        Best::NoPlan => true,
        Best::Certified(best) => price < cost(network, best),
        Best::Unsettled(best) => price < cost(network, best),
    }
}

/// The line of a node: a leaf, or a split on an open candidate. At a leaf the inner plan becomes the
/// best one, where it is certified and not cut off, or where it is the node's only plan, unsettled,
/// and cheaper than the best one. `inherited` is what the node inherits, and takes what it finds besides.
pub fn line_at(
    alloc: Global,
    verdicts: &mut SearchVerdicts,
    network: &Network,
    node: &Node,
    inherited: &mut Inherited,
    best: &mut Best,
    cuts: &mut Cuts,
) -> Result<NodeLine, NoMemory>
    requires verdicts { IsVerdictsOf network.now verdicts.old }
    requires node { IsNode network.now node.now }
    requires inherited { IsInherited network.now node.now inherited.old }
    requires kept { IsTrueBest network.now best.old }
    requires cuts { AreCutsFor network.now cuts.old }
    ensures line { IfOk result (λ line. IsLineAt network.now node.now best.old best.new (log_line_of cuts.new.pool line)) }
    ensures writable { IfOk result (IsWritable network.now cuts.new.pool) }
    ensures inherited { ForSome inherited.new.unmet (λ limit. IsUnmetAt network.now node.now.inside limit) }
    ensures verdicts { IsVerdictsOf network.now verdicts.new }
    ensures cuts { OnOk result (GotCuts network.now cuts.old cuts.new) }
{
    // The price is asked first, since it needs no verdict. The log is no longer for it: both answers
    // are leaves. At equal price a node is cut off only where the best plan is certified.
    if is_cut_off(network, &node.inside, best) {
        return Ok(NodeLine::Cost);
    }
    // A cut is asked before the verdicts, since it takes less to test.
    if let Some(number) = cuts.first_broken(network, node, inherited) {
        return Ok(NodeLine::Cut(number));
    }
    // So no split is idle: where a unit cut shows that the node costs more than the best plan, the node
    // ends here.
    if let Some(share) = cuts.dear_share(network, node, best) {
        return Ok(NodeLine::UnitDual(share));
    }
    cuts.visit(alloc, network, node)?;
    if let Some(number) = cuts.refuting_cut(alloc, network, node, inherited)? {
        return Ok(NodeLine::Cut(number));
    }
    // A dual bound ends the node without a verdict; before a split they are asked.
    if let Some(dual) = cuts.dual_past(alloc, network, node, best)? {
        return Ok(NodeLine::Dual(dual));
    }
    if let Some(limit) = refuting_limit(verdicts, network, node, inherited)? {
        return Ok(NodeLine::Pivot(limit));
    }
    let Some(limit) = unmet_limit(verdicts, network, &node.inside, inherited.unmet)? else {
        *best = Best::Certified(node.inside.copy(alloc)?);
        return Ok(NodeLine::Cost);
    };
    inherited.unmet = Some(limit);
    if let Some(candidate) = cuts.split_candidate(alloc, network, node, best)? {
        return Ok(NodeLine::Split(candidate));
    }
    let none_shut = &mut inherited.none_shut;
    if let Some(candidate) = branch_candidate(verdicts, network, node, none_shut, limit)? {
        return Ok(NodeLine::Split(candidate));
    }
    // An unsettled plan is offered only where it is its node's only one. At equal price the first one
    // stays, and a certified plan takes its place.
    if !is_cheaper(network, &node.inside, best) {
        return Ok(NodeLine::Cost);
    }
    *best = Best::Unsettled(node.inside.copy(alloc)?);
    Ok(NodeLine::Cost)
}

/// Takes a proposed plan as the best one, where it is certified and cheaper. Refused for want of memory
/// alone.
pub fn take_offer(
    alloc: Global,
    verdicts: &mut SearchVerdicts,
    network: &Network,
    best: &mut Best,
    cuts: &mut Cuts,
) -> Result<(), NoMemory>
    requires verdicts { IsVerdictsOf network.now verdicts.old }
    requires kept { IsTrueBest network.now best.old }
    ensures offered { OnOk result (IsOffered network.now best.old best.new) }
    ensures verdicts { IsVerdictsOf network.now verdicts.new }
    ensures cuts { cuts.new ≡ cuts.old }
{
    let Some(plan) = cuts.offered_plan(alloc, network, best)? else {
        return Ok(());
    };
    if !is_cheaper(network, &plan, best) {
        return Ok(());
    }
    if unmet_limit(verdicts, network, &plan, None)?.is_some() {
        return Ok(());
    }
    *best = Best::Certified(plan);
    Ok(())
}
