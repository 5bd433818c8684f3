ghost use Rattle.std.specs.Prelude.{◌≡◌, Ok, None, true, length, replicate, IfOk, IfSome};
ghost use Rattle.pivot_chain.specs.Certified.{IsCertified};
ghost use Rattle.pivot_chain.specs.Room.{IsRoomOf};

use crate::deletion::take_out_each;
use crate::offer::dearest_first;
use crate::stations::{dearest_stations, take_out_stations};
use crate::unmet::unmet_limit;
use geo_base::NoMemory;
use geo_model::{Network, Plan};
use pivot_chain::ChainRoom;
use std::alloc::Global;

/// The plan of all candidates, where it is certified.
fn certified_whole(
    alloc: Global,
    room: &mut ChainRoom,
    network: &Network,
) -> Result<Option<Plan>, NoMemory>
    requires room { IsRoomOf network.now room.old }
    ensures certified { IfOk result (λ found. IfSome found (λ plan. IsCertified network.now plan)) }
    ensures none { result ≡ Ok None → IsCertified network.now (replicate (length network.now.candidates) true) → ⊥ }
    ensures room { IsRoomOf network.now room.new }
{
    let plan = Plan::full(alloc, network.candidates().len() as u32)?;
    if unmet_limit(room, network, &plan, None).is_some() {
        return Ok(None);
    }
    Ok(Some(plan))
}

/// A certified plan to start a search with: the plan of all candidates, of which first all candidates
/// of a station that costs something, and then one after the other is taken out, the dearest first,
/// where the plan stays certified. There is none only where the plan
/// of all candidates isn't certified. Refused for want of memory alone.
pub fn start(alloc: Global, network: &Network) -> Result<Option<Plan>, NoMemory>
    ensures certified { IfOk result (λ found. IfSome found (λ plan. IsCertified network.now plan)) }
    ensures none { result ≡ Ok None → IsCertified network.now (replicate (length network.now.candidates) true) → ⊥ }
{
    let mut room = ChainRoom::new(alloc, network)?;
    let Some(mut plan) = certified_whole(alloc, &mut room, network)? else {
        return Ok(None);
    };
    let stations = dearest_stations(alloc, network)?;
    take_out_stations(alloc, &mut room, network, &mut plan, stations.as_slice())?;
    let offers = dearest_first(alloc, network)?;
    take_out_each(&mut room, network, &mut plan, offers.as_slice());
    Ok(Some(plan))
}
