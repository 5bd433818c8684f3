ghost use Rattle.std.specs.Prelude.{◌≡◌, ◌<◌, length, IfOk, IfSome};
ghost use Rattle.geo_model.specs.Prices.{price_of};
ghost use Rattle.pivot_chain.specs.Certified.{IsCertified};
ghost use Rattle.pivot_chain.specs.Room.{IsRoomOf};

use geo_base::NoMemory;
use geo_model::{Network, Plan, cost};
use greedy_start::unmet_limit;
use pivot_chain::ChainRoom;
use scaled_network::Marks;
use std::alloc::Global;

/// The plan of the candidates inside, where it costs less than another one and is certified.
pub fn cheaper_plan(
    alloc: Global,
    room: &mut ChainRoom,
    network: &Network,
    marks: &Marks,
    best: &Plan,
) -> Result<Option<Plan>, NoMemory>
    requires room { IsRoomOf network.now room.old }
    requires best { length best.now ≡ length network.now.candidates }
    ensures certified { IfOk result (λ found. IfSome found (λ plan. IsCertified network.now plan)) }
    ensures cheaper { IfOk result (λ found. IfSome found (λ plan. price_of network.now plan < price_of network.now best.now)) }
    ensures room { IsRoomOf network.now room.new }
{
    let plan = marks.plan(alloc, network)?;
    if cost(network, &plan) >= cost(network, best) {
        return Ok(None);
    }
    if unmet_limit(room, network, &plan, None).is_some() {
        return Ok(None);
    }
    Ok(Some(plan))
}
