ghost use Rattle.std.specs.Prelude.{◌≡◌, length, IfOk};
ghost use Rattle.pivot_chain.specs.Certified.{IsCertified};
ghost use Rattle.pivot_chain.specs.Room.{IsRoomOf};

use crate::unmet::unmet_limit;
use geo_base::NoMemory;
use geo_model::{Network, Plan};
use pivot_chain::ChainRoom;
use std::alloc::Global;
use std::cmp::Reverse;

/// A station by its number, and its price.
#[derive(Clone, Copy, Debug, PartialEq, Eq)]
pub struct StationOffer {
    pub station: u32,
    pub price: u64,
}

/// The stations of a network that cost something, the dearest first; of equal ones the last first.
/// Refused for want of memory alone.
pub fn dearest_stations(alloc: Global, network: &Network) -> Result<Vec<StationOffer>, NoMemory> {
    let mut offers = Vec::new(alloc);
    let mut station = 0u32;
    for price in network.station_prices() {
        if *price > 0 {
            offers.push(StationOffer {
                station,
                price: *price,
            })?;
        }
        station = station.saturating_add(1);
    }
    offers
        .as_mut_slice()
        .sort_unstable_by_key(|offer| Reverse((offer.price, offer.station)));
    Ok(offers)
}

/// A plan without the candidates of a station.
fn plan_without(
    alloc: Global,
    network: &Network,
    plan: &Plan,
    station: u32,
) -> Result<Plan, NoMemory>
    requires plan { length plan.now ≡ length network.now.candidates }
    ensures { IfOk result (λ without. length without ≡ length network.now.candidates) }
{
    let mut without = plan.copy(alloc)?;
    for candidate in 0..network.candidates().len() as u32 {
        if network.station_of(candidate) == Some(station) {
            without.set(candidate, false);
        }
    }
    Ok(without)
}

/// Takes the candidates of a station out of a certified plan, all at once, where it stays certified.
fn take_out_station(
    alloc: Global,
    room: &mut ChainRoom,
    network: &Network,
    plan: &mut Plan,
    station: u32,
) -> Result<(), NoMemory>
    requires room { IsRoomOf network.now room.old }
    requires certified { IsCertified network.now plan.old }
    ensures certified { IsCertified network.now plan.new }
    ensures room { IsRoomOf network.now room.new }
{
    let without = plan_without(alloc, network, plan, station)?;
    if unmet_limit(room, network, &without, None).is_some() {
        return Ok(());
    }
    *plan = without;
    Ok(())
}

/// Takes out of a certified plan one station after the other, with all of its candidates, each where
/// the plan stays certified.
pub fn take_out_stations(
    alloc: Global,
    room: &mut ChainRoom,
    network: &Network,
    plan: &mut Plan,
    offers: &[StationOffer],
) -> Result<(), NoMemory>
    requires room { IsRoomOf network.now room.old }
    requires certified { IsCertified network.now plan.old }
    ensures certified { IsCertified network.now plan.new }
    ensures room { IsRoomOf network.now room.new }
{
    for offer in offers {
        take_out_station(alloc, room, network, plan, offer.station)?;
    }
    Ok(())
}
