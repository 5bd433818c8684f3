//! A stack of factors that follows plans.
ghost use Rattle.std.specs.Prelude.{◌≡◌, ◌<◌, ◌^◌, not, Some, length, slice_get, slice_set, IfOk, OnOk};
ghost use Rattle.geo_model.specs.Limit.{LimitOf};
ghost use Rattle.geo_model.specs.Network.{NetworkOf, IsNetwork};
ghost use Rattle.pivot_chain.specs.Verdict.{verdict_of};
ghost use Rattle.factor_stack.specs.Stack.{IsStackOf};
ghost use Rattle.verdict_cli.specs.Followers.{IsFollower};

use factor_stack::{FactorStack, Steps};
use geo_base::NoMemory;
use geo_model::{Network, Plan, Verdict};
use std::alloc::Global;
use std::marker::Brand;
use std::sync::ledger::{Blank, Ledger};

/// The most changes that a stack keeps.
const MOST_CHANGES: u32 = 1000000;

/// A stack of factors that follows plans, and the candidates whose changes it can take back, the latest
/// last.
#[derive(Debug, Drop)]
pub struct Follower {
    pub stack: FactorStack,
    pub changed: Vec<u32>,
}

impl Follower {
    /// The follower of a plan under a limit.
    pub fn new(
        alloc: Global,
        network: &Network,
        plan: &Plan,
        limit: u32,
    ) -> Result<Follower, NoMemory>
        requires plan { length plan.now ≡ length network.now.candidates }
        requires limit { limit < length network.now.limits }
        ensures { IfOk result (IsFollower network.now limit) }
    {
        let stack = FactorStack::new(alloc, network, plan, limit)?;
        Ok(Follower {
            stack,
            changed: Vec::new(alloc),
        })
    }

    /// Brings the stack to a plan. The latest change is taken back where the plan lacks it; each other
    /// candidate in which the plans differ is changed.
    pub fn follow(&mut self, network: &Network, plan: &Plan) -> Result<(), NoMemory>
        requires made { IsStackOf network.now self.old.stack }
        requires plan { length plan.now ≡ length network.now.candidates }
        ensures made { OnOk result (IsStackOf network.now self.new.stack) }
        ensures limit { OnOk result (self.new.stack.limit ≡ self.old.stack.limit) }
        ensures plan { OnOk result (self.new.stack.now.plan ≡ plan.now) }
    {
        self.take_back(network, plan);
        for i in 0..network.candidates().len() as u32 {
            self.choose(network, i, plan.has(i))?;
        }
        Ok(())
    }

    // Takes the latest change back, where `plan` lacks it.
    fn take_back(&mut self, network: &Network, plan: &Plan)
        requires made { IsStackOf network.now self.old.stack }
        requires plan { length plan.now ≡ length network.now.candidates }
        ensures made { IsStackOf network.now self.new.stack }
        ensures limit { self.new.stack.limit ≡ self.old.stack.limit }
    {
        let Some(last) = self.changed.last() else {
            return;
        };
        let i = *last;
        if i >= network.candidates().len() as u32 || self.stack.depth() == 0 {
            return;
        }
        if self.stack.has(i) != plan.has(i) {
            self.stack.undo();
            let _taken = self.changed.pop();
        }
    }

    // Takes a candidate into the plan of the stack, or leaves it out, unless it is so already.
    fn choose(&mut self, network: &Network, i: u32, chosen: bool) -> Result<(), NoMemory>
        requires made { IsStackOf network.now self.old.stack }
        requires inside { i < length network.now.candidates }
        ensures made { OnOk result (IsStackOf network.now self.new.stack) }
        ensures limit { OnOk result (self.new.stack.limit ≡ self.old.stack.limit) }
        ensures plan { OnOk result (self.new.stack.now.plan ≡ slice_set self.old.stack.now.plan i chosen) }
    {
        if self.stack.has(i) == chosen {
            return Ok(());
        }
        if self.stack.depth() >= MOST_CHANGES {
            return Err(NoMemory);
        }
        change_counted::<Brand>(&mut self.stack, network, i, chosen, Blank::new(1))?;
        self.changed.push(i)?;
        Ok(())
    }

    /// The verdict of the plan on the limit.
    pub fn verdict(&self) -> Verdict
        ensures { (network : NetworkOf) (limit : LimitOf)
            → IsNetwork network → IsStackOf network self.now.stack → slice_get network.limits self.now.stack.limit ≡ Some limit
            → result ≡ verdict_of network self.now.stack.now.plan limit }
    {
        self.stack.verdict()
    }
}

// Changes a candidate, and counts the steps.
fn change_counted<L: Ledger>(
    stack: &mut FactorStack,
    network: &Network,
    i: u32,
    chosen: bool,
    blank: Blank,
) -> Result<(), NoMemory>
    requires name { blank.name ≡ L.name }
    requires parts { blank.parts ≡ L.parts }
    requires some { 0 < blank.parts }
    requires made { IsStackOf network.now stack.old }
    requires differs { slice_get stack.old.now.plan i ≡ Some (not chosen) }
    requires depth { length stack.old.before < 2 ^ 31 }
    ensures made { OnOk result (IsStackOf network.now stack.new) }
    ensures limit { OnOk result (stack.new.limit ≡ stack.old.limit) }
    ensures plan { OnOk result (stack.new.now.plan ≡ slice_set stack.old.now.plan i chosen) }
{
    let mut steps = Steps::<L>::new(blank);
    stack.change(network, i, chosen, &mut steps)
}
