//! The verdicts of stacks that follow plans.
ghost use Rattle.std.specs.Prelude.{◌≡◌, ◌++◌, Some, length, slice_get, IfOk, OnOk};
ghost use Rattle.geo_model.specs.Limit.{LimitOf};
ghost use Rattle.pivot_chain.specs.Verdict.{verdict_of};
ghost use Rattle.verdict_cli.specs.Answer.{verdict_line, verdict_lines};
ghost use Rattle.verdict_cli.specs.Followers.{AreFollowers, IsFollower};

use crate::follower::Follower;
use crate::verdicts::put_verdict;
use geo_base::NoMemory;
use geo_model::{Network, Plan};
use std::alloc::Global;

/// A follower of the empty plan for each limit of a network.
pub fn followers_of(alloc: Global, network: &Network) -> Result<Vec<Follower>, NoMemory>
    ensures { IfOk result (λ followers. AreFollowers network.now (length network.now.limits) followers.items) }
{
    let plan = Plan::empty(alloc, network.candidates().len() as u32)?;
    let mut followers = Vec::new(alloc);
    'limits: for limit in 0..network.limits().len() as u32 {
        let follower = Follower::new(alloc, network, &plan, limit)?;
        followers.push(follower)?;
    }
    Ok(followers)
}

/// Brings each follower to a plan, and appends the verdicts, a line each.
pub fn put_followed(
    out: &mut Vec<u8>,
    followers: &mut [Follower],
    network: &Network,
    plan: &Plan,
) -> Result<(), NoMemory>
    requires followers { AreFollowers network.now (length network.now.limits) followers.old }
    requires plan { length plan.now ≡ length network.now.candidates }
    ensures lines { OnOk result (out.new.items ≡ out.old.items ++ verdict_lines network.now plan.now) }
    ensures kept { OnOk result (AreFollowers network.now (length network.now.limits) followers.new) }
{
    // The network's bounds, for the proof.
    let _bounds = network.candidates();
    'limits: for limit in 0..followers.len() {
        put_one(out, &mut followers[limit], network, plan, limit as u32)?;
    }
    Ok(())
}

// Brings the follower of a limit to a plan, and appends the verdict.
fn put_one(
    out: &mut Vec<u8>,
    follower: &mut Follower,
    network: &Network,
    plan: &Plan,
    limit: u32,
) -> Result<(), NoMemory>
    requires follower { IsFollower network.now limit follower.old }
    requires plan { length plan.now ≡ length network.now.candidates }
    ensures line { OnOk result ((l : LimitOf) → slice_get network.now.limits limit ≡ Some l → out.new.items ≡ out.old.items ++ verdict_line (verdict_of network.now plan.now l)) }
    ensures kept { OnOk result (IsFollower network.now limit follower.new) }
{
    // The network's bounds, for the proof.
    let _bounds = network.candidates();
    follower.follow(network, plan)?;
    put_verdict(out, follower.verdict())
}
