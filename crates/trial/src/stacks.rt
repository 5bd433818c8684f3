//! A stack of factors for each limit of a network.
ghost use Rattle.std.specs.Prelude.{◌≡◌, ◌<◌, [], All, IfOk, OnOk, length};
ghost use Rattle.std.specs.List.{AllZip};
ghost use Rattle.trial.specs.Stacks.{AreStacks, CanChange, IsChanged, IsUndone};

use factor_stack::{FactorStack, Steps};
use geo_base::NoMemory;
use geo_model::{Network, Plan};
use std::alloc::Global;
use std::marker::Brand;
use std::sync::ledger::{Blank, Ledger};

/// The stacks of a plan under the limits of a network, with no change.
pub fn new_stacks(
    alloc: Global,
    network: &Network,
    plan: &Plan,
) -> Result<Vec<FactorStack>, NoMemory>
    requires { length plan.now ≡ length network.now.candidates }
    ensures { IfOk result (λ stacks. AreStacks network.now plan.now [] (length network.now.limits) stacks.items) }
{
    // The network's bounds, for the proof.
    let _bounds = network.candidates();
    let mut stacks = Vec::new(alloc);
    'limits: for number in 0..network.limits().len() {
        let stack = FactorStack::new(alloc, network, plan, number as u32)?;
        stacks.push(stack)?;
    }
    Ok(stacks)
}

/// Takes a candidate into the plan of each stack, or leaves it out.
pub fn change_stacks(
    stacks: &mut [FactorStack],
    network: &Network,
    i: u32,
    chosen: bool,
) -> Result<(), NoMemory>
    requires { All (CanChange network.now i chosen) stacks.old }
    ensures { OnOk result (AllZip (IsChanged network.now i chosen) stacks.old stacks.new) }
{
    change_counted::<Brand>(stacks, network, i, chosen, Blank::new(1))
}

// The same, with a count of the steps that it takes.
fn change_counted<L: Ledger>(
    stacks: &mut [FactorStack],
    network: &Network,
    i: u32,
    chosen: bool,
    blank: Blank,
) -> Result<(), NoMemory>
    requires name { blank.name ≡ L.name }
    requires parts { blank.parts ≡ L.parts }
    requires some { 0 < blank.parts }
    requires each { All (CanChange network.now i chosen) stacks.old }
    ensures { OnOk result (AllZip (IsChanged network.now i chosen) stacks.old stacks.new) }
{
    let mut steps = Steps::<L>::new(blank);
    for stack in stacks.iter_mut() {
        stack.change(network, i, chosen, &mut steps)?;
    }
    Ok(())
}

/// Takes the latest change of each stack back.
pub fn undo_stacks(stacks: &mut [FactorStack])
    requires { All (λ stack. 0 < length stack.before) stacks.old }
    ensures { AllZip IsUndone stacks.old stacks.new }
{
    for stack in stacks.iter_mut() {
        stack.undo();
    }
}
