//! A stack of factors for the limit on the last height of a levelling line. The limit's order is the
//! last height and then the others, from the fixed point on.
ghost use Rattle.std.specs.Prelude.{◌≡◌, ◌+◌, ◌<◌, ◌^◌, false, true, Some, length, slice_get, slice_set, IfOk};
ghost use Rattle.factor_stack.specs.Stack.{IsStackOf};

use factor_stack::{FactorStack, Steps};
use geo_base::NoMemory;
use geo_model::{Network, Plan, Verdict};
use std::alloc::Global;
use std::marker::Brand;
use std::process::Abort;
use std::sync::ledger::{Blank, Ledger};
use std::test::Fail;
use test_networks::{LEVELLING_LINE, network_of};

// A level of the line that a plan doesn't have, and whether it has the others; the most steps that the
// level's change takes, which are the places from the first one on that it touches; and the verdict
// after it.
struct LevelChange {
    level: u32,
    has_others: bool,
    most_steps: u32,
    verdict: Verdict,
}

// The plan before a change.
fn plan_before(rt: &impl Abort, alloc: Global, change: &LevelChange) -> Result<Plan, Fail>
    ensures { IfOk result (λ plan. length plan ≡ 4) }
{
    if !change.has_others {
        return Ok(Plan::empty(alloc, 4)?);
    }
    assert!(rt; change.level < 4);
    let mut plan = Plan::full(alloc, 4)?;
    plan.set(change.level, false);
    Ok(plan)
}

// The stack before a change, of which a proof here need know no more than this.
fn stack_before(
    rt: &impl Abort,
    alloc: Global,
    network: &Network,
    change: &LevelChange,
) -> Result<FactorStack, Fail>
    requires candidates { length network.now.candidates ≡ 4 }
    requires limits { length network.now.limits ≡ 4 }
    ensures made { IfOk result (IsStackOf network.now) }
    ensures before { IfOk result (λ stack. length stack.before ≡ 0) }
    ensures plan { IfOk result (λ stack. length stack.now.plan ≡ 4) }
{
    let plan = plan_before(rt, alloc, change)?;
    Ok(FactorStack::new(alloc, network, &plan, 3)?)
}

// The verdict of a stack, of which a proof here need know nothing.
fn judged(stack: &FactorStack) -> Verdict {
    stack.verdict()
}

// Takes a level into the plan, and counts the steps of the change.
fn take_counted<L: Ledger>(
    stack: &mut FactorStack,
    network: &Network,
    level: u32,
    blank: Blank,
) -> Result<(), NoMemory>
    requires name { blank.name ≡ L.name }
    requires parts { blank.parts ≡ L.parts }
    requires some { 0 < blank.parts }
    requires made { IsStackOf network.now stack.old }
    requires plan { slice_get stack.old.now.plan level ≡ Some false }
    requires depth { length stack.old.before < 2 ^ 31 }
    ensures made { IsStackOf network.now stack.new }
    ensures before { IfOk result (λ _. length stack.new.before ≡ length stack.old.before + 1) }
    ensures plan { IfOk result (λ _. stack.new.now.plan ≡ slice_set stack.old.now.plan level true) }
{
    let mut steps = Steps::<L>::new(blank);
    stack.change(network, level, true, &mut steps)
}

// Takes a level that isn't in the plan.
fn take(rt: &impl Abort, stack: &mut FactorStack, network: &Network, level: u32) -> Result<(), Fail>
    requires made { IsStackOf network.now stack.old }
    requires inside { level < length stack.old.now.plan }
    requires depth { length stack.old.before < 2 ^ 31 }
    ensures made { IsStackOf network.now stack.new }
    ensures before { IfOk result (λ _. length stack.new.before ≡ length stack.old.before + 1) }
    ensures plan { IfOk result (λ _. length stack.new.now.plan ≡ length stack.old.now.plan) }
{
    assert!(rt; !stack.has(level));
    take_counted::<Brand>(stack, network, level, Blank::new(1))?;
    Ok(())
}

// Makes a change and takes it back, and asserts what comes of both.
fn expect_change(
    rt: &impl Abort,
    alloc: Global,
    network: &Network,
    change: &LevelChange,
) -> Result<(), Fail>
    requires unknowns { length network.now.unknowns ≡ 4 }
    requires candidates { length network.now.candidates ≡ 4 }
    requires limits { length network.now.limits ≡ 4 }
{
    let level = change.level;
    assert!(rt; level < 4);
    let mut stack = stack_before(rt, alloc, network, change)?;
    assert_eq!(rt; judged(&stack), Verdict::Refuted);
    assert_eq!(rt; 4 - stack.first_place(network, level), change.most_steps);
    take(rt, &mut stack, network, level)?;
    assert_eq!(rt; stack.depth(), 1);
    assert!(rt; stack.has(level));
    assert_eq!(rt; judged(&stack), change.verdict);
    stack.undo();
    assert_eq!(rt; stack.depth(), 0);
    assert_eq!(rt; judged(&stack), Verdict::Refuted);
    Ok(())
}

// The verdict of the plan of all levels.
const OPEN: Verdict = Verdict::Open {
    step: 4,
    lo: -1,
    hi: 1,
};

// No level reaches the last height alone.
const CHANGES: [LevelChange; 8] = [
    LevelChange {
        level: 3,
        has_others: false,
        most_steps: 4,
        verdict: Verdict::Refuted,
    },
    LevelChange {
        level: 1,
        has_others: false,
        most_steps: 3,
        verdict: Verdict::Refuted,
    },
    LevelChange {
        level: 2,
        has_others: false,
        most_steps: 2,
        verdict: Verdict::Refuted,
    },
    LevelChange {
        level: 0,
        has_others: false,
        most_steps: 3,
        verdict: Verdict::Refuted,
    },
    LevelChange {
        level: 3,
        has_others: true,
        most_steps: 4,
        verdict: OPEN,
    },
    LevelChange {
        level: 1,
        has_others: true,
        most_steps: 3,
        verdict: OPEN,
    },
    LevelChange {
        level: 2,
        has_others: true,
        most_steps: 2,
        verdict: OPEN,
    },
    LevelChange {
        level: 0,
        has_others: true,
        most_steps: 3,
        verdict: OPEN,
    },
];

#[test]
fn changes_of_a_levelling_line(rt: HostRuntime) -> Result<(), Fail> {
    let network = network_of(rt.alloc(), &LEVELLING_LINE)?;
    for change in &CHANGES {
        expect_change(&rt, rt.alloc(), &network, change)?;
    }
    Ok(())
}
