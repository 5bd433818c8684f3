//! The sums of a dual bound over the candidates and the stations.
ghost use Rattle.std.specs.Prelude.{◌≡◌, ◌*◌, ◌^◌, ◌≤◌, ◌<◌, length, get_or, None, Some, unsigned_abs};
ghost use Rattle.whole_algebra.specs.Matrices.{at};
ghost use Rattle.geo_model.specs.Below.{int_sum_below};
ghost use Rattle.geo_model.specs.Dual.{is_open, inner_sum, open_sum, station_term};
ghost use Rattle.geo_model.specs.Prices.{prices_of};
ghost use Rattle.reduced_sums.specs.Groups.{AreReduced, in_group, is_in_group};

use geo_model::{Network, Node, uses_station};

// Whether some plans of a node choose a candidate and others don't.
fn is_open(node: &Node, candidate: u32) -> bool
    requires inside { candidate < length node.now.inside }
    requires upper { candidate < length node.now.upper }
    ensures { result ≡ is_open node.now candidate }
{
    node.upper.has(candidate) && !node.inside.has(candidate)
}

// Whether a candidate has this station, or none where that is asked.
fn is_in_group(network: &Network, candidate: u32, group: Option<u32>) -> bool
    requires { candidate < length network.now.candidates }
    ensures { result ≡ is_in_group group (get_or network.now.stations candidate None) }
{
    match (group, network.station_of(candidate)) {
        (None, None) => true,
        (Some(station), Some(own)) => own == station,
        (_, _) => false,
    }
}

// The sum of the reduced prices of the inner plan.
pub(crate) fn inner_sum(network: &Network, node: &Node, reduced: &[i128]) -> i128
    requires inside { length node.now.inside ≡ length network.now.candidates }
    requires upper { length node.now.upper ≡ length network.now.candidates }
    requires reduced { AreReduced (length network.now.candidates) reduced.now }
    ensures value { result ≡ inner_sum (at reduced.now) node.now }
    ensures size { unsigned_abs result ≤ 256 * 2 ^ 75 }
{
    let mut sum = 0;
    for i in 0..network.candidates().len() as u32 {
        if node.inside.has(i) {
            sum += reduced[i as usize];
        }
    }
    sum
}

// The sum of the negative reduced prices of the open candidates of a station, or of those that have
// none.
pub(crate) fn open_sum(network: &Network, node: &Node, reduced: &[i128], group: Option<u32>) -> i128
    requires inside { length node.now.inside ≡ length network.now.candidates }
    requires upper { length node.now.upper ≡ length network.now.candidates }
    requires reduced { AreReduced (length network.now.candidates) reduced.now }
    ensures value { result ≡ open_sum (at reduced.now) node.now (in_group network.now.stations group) }
    ensures size { unsigned_abs result ≤ 256 * 2 ^ 75 }
{
    let mut sum = 0;
    for i in 0..network.candidates().len() as u32 {
        if is_open(node, i) && is_in_group(network, i, group) {
            sum += reduced[i as usize].min(0);
        }
    }
    sum
}

// What a station and its open candidates give at least: the divisor times its price and the sum of
// its open candidates, or nothing where that is more and the inner plan doesn't use it.
fn station_term(
    network: &Network,
    node: &Node,
    divisor: u64,
    reduced: &[i128],
    station: u32,
) -> i128
    requires inside { length node.now.inside ≡ length network.now.candidates }
    requires upper { length node.now.upper ≡ length network.now.candidates }
    requires divisor { divisor ≤ 2 ^ 44 }
    requires reduced { AreReduced (length network.now.candidates) reduced.now }
    requires station { station < length network.now.station_prices }
    ensures value { result ≡ station_term (prices_of network.now) divisor (at reduced.now) node.now station }
    ensures size { unsigned_abs result ≤ 257 * 2 ^ 75 }
{
    let prices = network.station_prices();
    let price = u128::from(divisor) * u128::from(prices[station as usize]);
    let whole = price as i128 + open_sum(network, node, reduced, Some(station));
    if uses_station(network, &node.inside, station) {
        whole
    } else {
        whole.min(0)
    }
}

// The sum of what the stations give at least.
pub(crate) fn stations_sum(network: &Network, node: &Node, divisor: u64, reduced: &[i128]) -> i128
    requires inside { length node.now.inside ≡ length network.now.candidates }
    requires upper { length node.now.upper ≡ length network.now.candidates }
    requires divisor { divisor ≤ 2 ^ 44 }
    requires reduced { AreReduced (length network.now.candidates) reduced.now }
    ensures value { result ≡ int_sum_below (station_term (prices_of network.now) divisor (at reduced.now) node.now) (length network.now.station_prices) }
    ensures size { unsigned_abs result ≤ 1000 * (257 * 2 ^ 75) }
{
    let mut sum = 0;
    for k in 0..network.station_prices().len() as u32 {
        sum += station_term(network, node, divisor, reduced, k);
    }
    sum
}
