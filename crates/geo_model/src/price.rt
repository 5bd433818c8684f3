ghost use Rattle.std.specs.Prelude.{◌≡◌, ◌*◌, ◌≤◌, ◌<◌, None, length, get_or};
ghost use Rattle.geo_model.specs.Cover.{chosen_sum};
ghost use Rattle.geo_model.specs.Prices.{is_station, prices_of, price_of, stations_price, uses_station};

use crate::network::Network;
use crate::plan::Plan;

// Whether the station of a candidate, if any, is this one.
fn has_station(network: &Network, candidate: u32, station: u32) -> bool
    requires { candidate < length network.now.candidates }
    ensures { result ≡ is_station station (get_or network.now.stations candidate None) }
{
    match network.station_of(candidate) {
        Some(own) => own == station,
        None => false,
    }
}

/// Whether a plan uses a station, by its number from 0: whether it chooses a candidate that has it. The
/// plan has an entry for each candidate of the network.
pub fn uses_station(network: &Network, plan: &Plan, station: u32) -> bool
    requires { length plan.now ≡ length network.now.candidates }
    ensures { result ≡ uses_station network.now.stations plan.now station }
{
    for i in 0..network.candidates().len() as u32 {
        if plan.has(i) && has_station(network, i, station) {
            return true;
        }
    }
    false
}

// The sum of the prices of the candidates of a plan.
fn candidates_price(network: &Network, plan: &Plan) -> u64
    requires { length plan.now ≡ length network.now.candidates }
    ensures value { result ≡ chosen_sum (prices_of network.now).candidates plan.now }
    ensures size { result ≤ 256 * 1000000000 }
{
    let candidates = network.candidates();
    let mut sum = 0;
    for (i, candidate) in candidates.iter().enumerate() {
        if plan.has(i as u32) {
            sum += candidate.price;
        }
    }
    sum
}

// The sum of the prices of the stations that a plan uses.
fn stations_price(network: &Network, plan: &Plan) -> u64
    requires { length plan.now ≡ length network.now.candidates }
    ensures value { result ≡ stations_price (prices_of network.now) plan.now }
    ensures size { result ≤ 1000 * 1000000000 }
{
    let prices = network.station_prices();
    let mut sum = 0;
    for (k, price) in prices.iter().enumerate() {
        if uses_station(network, plan, k as u32) {
            sum += *price;
        }
    }
    sum
}

/// The price of a plan: the sum of the prices of its candidates, and of those of the stations that
/// it uses. The plan has an entry for each candidate of the network.
pub fn cost(network: &Network, plan: &Plan) -> u64
    requires { length plan.now ≡ length network.now.candidates }
    ensures { result ≡ price_of network.now plan.now }
{
    candidates_price(network, plan) + stations_price(network, plan)
}
