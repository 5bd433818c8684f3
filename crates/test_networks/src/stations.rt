ghost use Rattle.std.specs.Prelude.{◌≡◌, IfOk, length};

use crate::case_tables::{ONE_HEIGHT, network_of};
use crate::unfit::Unfit;
use geo_model::Network;
use std::alloc::{AllocError, Global};

// The network of `ONE_HEIGHT`.
fn one_height(alloc: Global) -> Result<Network, Unfit>
    ensures { IfOk result (λ network. length network.candidates ≡ 3) }
{
    network_of(alloc, &ONE_HEIGHT)
}

// Gives the first level one station, and both others another.
fn set_stations(
    alloc: Global,
    network: &mut Network,
    first: u64,
    others: u64,
) -> Result<(), AllocError>
    requires { length network.old.candidates ≡ 3 }
{
    let stations = vec![in alloc; Some(0), Some(1), Some(1)]?;
    let prices = vec![in alloc; first.min(1000), others.min(1000)]?;
    network.set_stations(stations, prices);
    Ok(())
}

/// The network of `ONE_HEIGHT` with two stations: the first level stands at one for `first`, both others
/// at one for `others`, each at most 1000.
pub fn height_at_stations(alloc: Global, first: u64, others: u64) -> Result<Network, Unfit> {
    let mut network = one_height(alloc)?;
    set_stations(alloc, &mut network, first, others)?;
    Ok(network)
}
