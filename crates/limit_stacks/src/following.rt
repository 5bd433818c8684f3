//! A stack that follows the upper plan of a node along the tree of a search.
ghost use Rattle.std.specs.Prelude.{◌≡◌, ◌+◌, ◌<◌, ◌≤◌, ◌^◌, false, length, slice_set, IsTrue, OnOk};
ghost use Rattle.factor_stack.specs.Stack.{IsStackOf};

use factor_stack::{FactorStack, Steps};
use geo_base::NoMemory;
use geo_model::{Network, Plan};
use std::marker::Brand;
use std::sync::ledger::{Blank, Ledger};

/// A path of the tree leaves each candidate out but once, so it has no more changes.
const MOST_CHANGES: u32 = 256;

/// A change costs more than a verdict from nothing that is Met, which has no upper chain, and is of use
/// to the nodes below. So a stack takes the one step of a node from its parent, and no more: counted on
/// three searches, two changes cost 3 to 5 hundredths more than one (docs/GATE.md).
const FEW_CHANGES: u32 = 1;

// Whether a plan has a candidate that the plan of a stack hasn't.
#[tactic(auto, using(crate::proofs::Brought::stack_places))]
fn lacks_some(stack: &FactorStack, network: &Network, plan: &Plan) -> bool
    requires made { IsStackOf network.now stack.now }
    requires plan { length plan.now ≡ length network.now.candidates }
{
    for i in 0..network.candidates().len() as u32 {
        if plan.has(i) && !stack.has(i) {
            return true;
        }
    }
    false
}

// Whether the latest change of a stack leads away from a plan.
fn has_left(stack: &FactorStack, network: &Network, plan: &Plan) -> bool
    requires made { IsStackOf network.now stack.now }
    requires plan { length plan.now ≡ length network.now.candidates }
    ensures some { IsTrue result → 0 < length stack.now.before }
    ensures few { result ≡ false → length stack.now.before ≤ 256 }
{
    if stack.depth() == 0 {
        return false;
    }
    stack.depth() > MOST_CHANGES || lacks_some(stack, network, plan)
}

// Takes back the changes of a stack, from the latest on, as long as it lacks a candidate of a plan:
// what is left is the part of its path that the plan shares.
pub(crate) fn take_back(stack: &mut FactorStack, network: &Network, plan: &Plan)
    requires made { IsStackOf network.now stack.old }
    requires plan { length plan.now ≡ length network.now.candidates }
    ensures made { IsStackOf network.now stack.new }
    ensures limit { stack.new.limit ≡ stack.old.limit }
    ensures few { length stack.new.before ≤ 256 }
{
    'changes: while has_left(stack, network, plan) {
        stack.undo();
    }
}

// Whether it takes more than a few changes to bring a stack to a plan.
#[tactic(auto, using(crate::proofs::Brought::stack_places))]
pub(crate) fn is_far(stack: &FactorStack, network: &Network, plan: &Plan) -> bool
    requires made { IsStackOf network.now stack.now }
    requires plan { length plan.now ≡ length network.now.candidates }
{
    let mut changes = 0u32;
    for i in 0..network.candidates().len() as u32 {
        if plan.has(i) != stack.has(i) {
            changes = changes.saturating_add(1);
        }
    }
    changes > FEW_CHANGES
}

// Brings a stack to a plan, candidate by candidate. Refused for want of memory alone.
pub(crate) fn bring(stack: &mut FactorStack, network: &Network, plan: &Plan) -> Result<(), NoMemory>
    requires made { IsStackOf network.now stack.old }
    requires few { length stack.old.before ≤ 256 }
    requires plan { length plan.now ≡ length network.now.candidates }
    ensures made { IsStackOf network.now stack.new }
    ensures limit { stack.new.limit ≡ stack.old.limit }
    ensures plan { OnOk result (stack.new.now.plan ≡ plan.now) }
{
    bring_counted::<Brand>(stack, network, plan, Blank::new(1))
}

// The same, with a count of the steps that it takes.
fn bring_counted<L: Ledger>(
    stack: &mut FactorStack,
    network: &Network,
    plan: &Plan,
    blank: Blank,
) -> Result<(), NoMemory>
    requires name { blank.name ≡ L.name }
    requires parts { blank.parts ≡ L.parts }
    requires some { 0 < blank.parts }
    requires made { IsStackOf network.now stack.old }
    requires few { length stack.old.before ≤ 256 }
    requires plan { length plan.now ≡ length network.now.candidates }
    ensures made { IsStackOf network.now stack.new }
    ensures limit { stack.new.limit ≡ stack.old.limit }
    ensures plan { OnOk result (stack.new.now.plan ≡ plan.now) }
{
    let mut steps = Steps::<L>::new(blank);
    for i in 0..network.candidates().len() as u32 {
        choose(stack, network, i, plan.has(i), &mut steps)?;
    }
    Ok(())
}

// Takes a candidate into the plan of a stack, or leaves it out, unless it is so.
#[tactic(auto, using(crate::proofs::Brought::stack_places))]
fn choose<L: Ledger>(
    stack: &mut FactorStack,
    network: &Network,
    i: u32,
    chosen: bool,
    steps: &mut Steps<L>,
) -> Result<(), NoMemory>
    requires made { IsStackOf network.now stack.old }
    requires inside { i < length network.now.candidates }
    requires few { length stack.old.before < 2 ^ 31 }
    ensures made { IsStackOf network.now stack.new }
    ensures limit { stack.new.limit ≡ stack.old.limit }
    ensures few { OnOk result (length stack.new.before ≤ length stack.old.before + 1) }
    ensures plan { OnOk result (stack.new.now.plan ≡ slice_set stack.old.now.plan i chosen) }
{
    if stack.has(i) == chosen {
        return Ok(());
    }
    stack.change(network, i, chosen, steps)
}
