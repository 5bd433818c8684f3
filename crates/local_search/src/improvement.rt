ghost use Rattle.std.specs.Prelude.{◌≡◌, ◌≤◌, Ok, None, true, length, replicate, IfOk, IfSome};
ghost use Rattle.geo_model.specs.Prices.{price_of};
ghost use Rattle.pivot_chain.specs.Certified.{IsCertified};
ghost use Rattle.pivot_chain.specs.Room.{IsRoomOf};

use crate::offer::cheaper_plan;
use crate::walk::Walk;
use geo_base::NoMemory;
use geo_model::{Network, Plan};
use greedy_start::start;
use pivot_chain::ChainRoom;
use scaled_network::{Marks, ScaledNetwork};
use std::alloc::Global;

/// A search with the best plan that it found.
#[derive(Drop)]
struct Improved {
    room: ChainRoom,
    walk: Walk,
    best: Plan,
}

// Takes the plan that the walk looks at as the best one, where it is certified and costs less.
fn take_better(alloc: Global, network: &Network, search: &mut Improved) -> Result<(), NoMemory>
    requires room { IsRoomOf network.now search.old.room }
    requires certified { IsCertified network.now search.old.best }
    ensures room { IsRoomOf network.now search.new.room }
    ensures certified { IsCertified network.now search.new.best }
    ensures no_dearer { price_of network.now search.new.best ≤ price_of network.now search.old.best }
{
    if !search.walk.is_cheaper() {
        return Ok(());
    }
    let marks = search.walk.plan();
    let found = cheaper_plan(alloc, &mut search.room, network, marks, &search.best)?;
    if let Some(plan) = found {
        search.best = plan;
        search.walk.keep()?;
    }
    Ok(())
}

// Reduces the plan of all candidates, the dearest first, and then those first that weigh least for
// their price.
fn try_orders(
    alloc: Global,
    network: &Network,
    search: &mut Improved,
    all: &Marks,
) -> Result<(), NoMemory>
    requires room { IsRoomOf network.now search.old.room }
    requires certified { IsCertified network.now search.old.best }
    ensures room { IsRoomOf network.now search.new.room }
    ensures certified { IsCertified network.now search.new.best }
    ensures no_dearer { price_of network.now search.new.best ≤ price_of network.now search.old.best }
{
    search.walk.reduce_by_price(all)?;
    take_better(alloc, network, search)?;
    search.walk.reduce_by_weight(all)?;
    take_better(alloc, network, search)
}

// Makes a move, and takes the plan that it comes to where that is better.
fn try_move(alloc: Global, network: &Network, search: &mut Improved) -> Result<(), NoMemory>
    requires room { IsRoomOf network.now search.old.room }
    requires certified { IsCertified network.now search.old.best }
    ensures room { IsRoomOf network.now search.new.room }
    ensures certified { IsCertified network.now search.new.best }
    ensures no_dearer { price_of network.now search.new.best ≤ price_of network.now search.old.best }
{
    search.walk.step()?;
    take_better(alloc, network, search)?;
    search.walk.accept()
}

// Makes so many moves.
fn try_moves(
    alloc: Global,
    network: &Network,
    search: &mut Improved,
    moves: u32,
) -> Result<(), NoMemory>
    requires room { IsRoomOf network.now search.old.room }
    requires certified { IsCertified network.now search.old.best }
    ensures room { IsRoomOf network.now search.new.room }
    ensures certified { IsCertified network.now search.new.best }
    ensures no_dearer { price_of network.now search.new.best ≤ price_of network.now search.old.best }
{
    'moving: for _ in 0..moves {
        try_move(alloc, network, search)?;
    }
    Ok(())
}

// A search from a plan, which is the best one so far.
fn begin(alloc: Global, network: &Network, plan: Plan) -> Result<Improved, NoMemory>
    requires certified { IsCertified network.now plan }
    ensures room { IfOk result (λ search. IsRoomOf network.now search.room) }
    ensures best { IfOk result (λ search. search.best ≡ plan) }
{
    let room = ChainRoom::new(alloc, network)?;
    let mut marks = Marks::new(alloc);
    marks.read_plan(network, &plan)?;
    let scaled = ScaledNetwork::new(alloc, network)?;
    let walk = Walk::new(alloc, scaled, &marks)?;
    Ok(Improved {
        room,
        walk,
        best: plan,
    })
}

/// A certified plan that costs no more than the one that is given: the plan of all candidates is
/// reduced in two orders, and so many moves are made from the best plan. Refused for want of memory
/// alone; the plan is then dropped.
pub fn improve(alloc: Global, network: &Network, plan: Plan, moves: u32) -> Result<Plan, NoMemory>
    requires certified { IsCertified network.now plan }
    ensures certified { IfOk result (IsCertified network.now) }
    ensures no_dearer { IfOk result (λ found. price_of network.now found ≤ price_of network.now plan) }
{
    let full = Plan::full(alloc, network.candidates().len() as u32)?;
    let mut all = Marks::new(alloc);
    all.read_plan(network, &full)?;
    let mut search = begin(alloc, network, plan)?;
    try_orders(alloc, network, &mut search, &all)?;
    try_moves(alloc, network, &mut search, moves)?;
    let Improved { best, .. } = search;
    Ok(best)
}

/// A certified plan to start a search with: what `greedy_start::start` hands over, improved by so many
/// moves. There is none only where the plan of all candidates isn't certified. Refused for want of
/// memory alone.
pub fn first_plan(alloc: Global, network: &Network, moves: u32) -> Result<Option<Plan>, NoMemory>
    ensures certified { IfOk result (λ found. IfSome found (λ plan. IsCertified network.now plan)) }
    ensures none { result ≡ Ok None → IsCertified network.now (replicate (length network.now.candidates) true) → ⊥ }
{
    match start(alloc, network)? {
        None => Ok(None),
        Some(plan) => Ok(Some(improve(alloc, network, plan, moves)?)),
    }
}
