//! All that is printed for an input.
ghost use Rattle.std.specs.Prelude.{◌≡◌, ◌++◌, ◌≤◌, OnOk, IfOk, IfErr, length};
ghost use Rattle.pivot_chain.specs.Room.{IsRoomOf};
ghost use Rattle.verdict_cli.specs.Request.{request_seen};
ghost use Rattle.verdict_cli.specs.Answer.{IsAnswered, RefusesInput, RefusesPlans, RefusesTables, network_for, plans_lines};

use crate::followers::{followers_of, put_followed};
use crate::plan::read_plan;
use crate::refusal::{InputRefusal, refusal_of};
use crate::request::{Request, read_request};
use crate::verdicts::put_verdicts;
use candidate_tables::read_candidates;
use geo_model::Network;
use lent_parts::lines;
use net_build::build;
use pivot_chain::ChainRoom;
use point_tables::read_points;
use std::alloc::Global;

/// Appends what is printed for an input: for each plan, in their order, its verdict on each limit of the
/// network of both tables, a line each. After a refusal `out` has some of it.
pub fn put_answer(alloc: Global, input: &[u8], out: &mut Vec<u8>) -> Result<(), InputRefusal>
    ensures answer { OnOk result (IsAnswered input.now out.old.items out.new.items) }
    ensures refused { IfErr result (RefusesInput input.now) }
{
    let Some(request) = read_request(input) else {
        return Err(InputRefusal::Request);
    };
    let network = network_of(alloc, &request)?;
    if request.times == 0 {
        return put_followed_plans(alloc, &network, request.plans, out);
    }
    put_plans(alloc, &network, request.plans, request.times, out)
}

// The network of the tables of a request.
fn network_of(alloc: Global, request: &Request<'_>) -> Result<Network, InputRefusal>
    requires { request.now.redundancy ≤ 999 }
    ensures network { IfOk result (λ network. network ≡ network_for (request_seen request.now)) }
    ensures refused { IfErr result (RefusesTables (request_seen request.now)) }
{
    let points = match read_points(alloc, request.points) {
        Ok(points) => points,
        Err(answer) => return Err(refusal_of(answer)),
    };
    let candidates = match read_candidates(alloc, request.candidates, &points) {
        Ok(candidates) => candidates,
        Err(answer) => return Err(refusal_of(answer)),
    };
    match build(alloc, &points, &candidates, request.redundancy) {
        Ok(network) => Ok(network),
        Err(answer) => Err(refusal_of(answer)),
    }
}

// Appends the verdicts of each plan of a text, in a room of their own.
fn put_plans(
    alloc: Global,
    network: &Network,
    plans: &[u8],
    times: u32,
    out: &mut Vec<u8>,
) -> Result<(), InputRefusal>
    ensures lines { OnOk result (out.new.items ≡ out.old.items ++ plans_lines network.now plans.now) }
    ensures refused { IfErr result (RefusesPlans (length network.now.candidates) plans.now) }
{
    let Ok(mut room) = ChainRoom::new(alloc, network) else {
        return Err(InputRefusal::NoMemory);
    };
    put_plans_over(alloc, &mut room, network, plans, times, out)
}

// Appends the verdicts of each plan of a text, over a lent room.
fn put_plans_over(
    alloc: Global,
    room: &mut ChainRoom,
    network: &Network,
    plans: &[u8],
    times: u32,
    out: &mut Vec<u8>,
) -> Result<(), InputRefusal>
    requires { IsRoomOf network.now room.old }
    ensures lines { OnOk result (out.new.items ≡ out.old.items ++ plans_lines network.now plans.now) }
    ensures refused { IfErr result (RefusesPlans (length network.now.candidates) plans.now) }
{
    let m = network.candidates().len() as u32;
    for line in lines(plans) {
        let plan = read_plan(alloc, line.text, m)?;
        let Ok(()) = put_verdicts(out, room, network, &plan, times) else {
            return Err(InputRefusal::NoMemory);
        };
    }
    Ok(())
}

// Appends the verdicts of each plan of a text, as stacks give them that follow the plans.
fn put_followed_plans(
    alloc: Global,
    network: &Network,
    plans: &[u8],
    out: &mut Vec<u8>,
) -> Result<(), InputRefusal>
    ensures lines { OnOk result (out.new.items ≡ out.old.items ++ plans_lines network.now plans.now) }
    ensures refused { IfErr result (RefusesPlans (length network.now.candidates) plans.now) }
{
    let m = network.candidates().len() as u32;
    let Ok(mut followers) = followers_of(alloc, network) else {
        return Err(InputRefusal::NoMemory);
    };
    for line in lines(plans) {
        let plan = read_plan(alloc, line.text, m)?;
        let Ok(()) = put_followed(out, followers.as_mut_slice(), network, &plan) else {
            return Err(InputRefusal::NoMemory);
        };
    }
    Ok(())
}
