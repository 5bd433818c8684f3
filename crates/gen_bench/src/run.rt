//! A run over a generated network.
ghost use Rattle.std.specs.Prelude.{◌≡◌, ◌≤◌, IfOk, length};
ghost use Rattle.geo_model.specs.Prices.{price_of};
ghost use Rattle.gen_bench.specs.Bench.{bench_text, IsBench};

use crate::in_memory::search_in_memory;
use crate::network::seed_network;
use crate::text::summary;
use geo_base::NoMemory;
use geo_model::{Answer, Network, Plan, cost};
use log_check::Replayed;
use std::alloc::Global;

/// Whether the plan of a run is certified, or not decided, and the summary of the run.
#[derive(Drop)]
pub struct BenchDone {
    pub is_decided: bool,
    pub text: Vec<u8>,
}

/// The summary of a plan of the network of a seed.
fn shown(
    alloc: Global,
    seed: u32,
    network: &Network,
    plan: &Plan,
    is_decided: bool,
    replayed: &Replayed,
) -> Result<BenchDone, NoMemory>
    requires { length plan.now ≡ length network.now.candidates }
    ensures { IfOk result (λ done. (done.is_decided ≡ is_decided)
        × (done.text.items ≡ bench_text seed is_decided (price_of network.now plan.now) replayed.now)) }
{
    let price = cost(network, plan);
    let text = summary(alloc, seed, is_decided, price, replayed)?;
    Ok(BenchDone { is_decided, text })
}

/// Generates the tables of a seed of at most 999999, builds their network with a redundancy limit of
/// 200 thousandths, searches it with the log kept in memory, and replays that log. The summary has the
/// seed, the size of the network, whether the plan is decided, its price, and the counts and the bound
/// of the replay. Refused for want of memory alone.
pub fn bench(alloc: Global, seed: u32) -> Result<BenchDone, NoMemory>
    requires { seed ≤ 999999 }
    ensures { IfOk result (λ done. IsBench seed done.is_decided done.text.items) }
{
    let network = seed_network(alloc, seed)?;
    let searched = search_in_memory(alloc, &network)?;
    match &searched.answer {
        Answer::Best(plan) => shown(alloc, seed, &network, plan, true, &searched.replayed),
        Answer::NoPlan => unreachable!(),
        Answer::Undecided { plan, .. } => {
            shown(alloc, seed, &network, plan, false, &searched.replayed)
        }
    }
}
