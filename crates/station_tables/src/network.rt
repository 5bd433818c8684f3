//! The stations of candidates and their prices, as a network takes them.
ghost use Rattle.std.specs.Prelude.{◌≡◌, ◌≤◌, ◌^◌, All, IfOk, length, map};
ghost use Rattle.geo_model.specs.Network.{AreStations};
ghost use Rattle.candidate_tables.specs.Accepted.{AreCandidates};
ghost use Rattle.station_tables.specs.Occupied.{point_prices, station_of, stations_on, stations_seen};

use crate::stations::Stations;
use candidate_tables::{CandidateRecord, Candidates};
use geo_base::NoMemory;
use point_tables::Points;
use std::alloc::Global;

// The point at which an instrument is set up for a candidate, if its kind needs one.
#[tactic(auto, unfolding(crate::specs::Occupied::station_of))]
fn station_of(candidate: &CandidateRecord) -> Option<u32>
    ensures { result ≡ station_of candidate.now }
{
    if candidate.kind.rules().occupies_station {
        return Some(candidate.from);
    }
    None
}

// The station of each candidate that has one, in the order of the candidates.
fn candidate_stations(alloc: Global, candidates: &Candidates) -> Result<Vec<Option<u32>>, NoMemory>
    ensures { IfOk result (λ stations. stations.items ≡ map station_of candidates.now) }
{
    let mut stations = Vec::new(alloc);
    'candidates: for k in 0..candidates.len() {
        stations.push(station_of(candidates.get(k)))?;
    }
    Ok(stations)
}

// The price of each point as a station, in the order of the points.
fn point_prices(alloc: Global, points: &Points, stations: &Stations) -> Result<Vec<u64>, NoMemory>
    ensures value { IfOk result (λ prices. prices.items ≡ point_prices points.now stations.now) }
    ensures few { IfOk result (λ prices. length prices.items ≤ 1000) }
    ensures bound { IfOk result (λ prices. All (λ price. price ≤ 10 ^ 9) prices.items) }
{
    let mut prices = Vec::new(alloc);
    'points: for point in 0..points.len() {
        prices.push(stations.price(point))?;
    }
    Ok(prices)
}

/// The station of each candidate, and the price of each point as a station, as
/// `geo_model::Network::set_stations` takes them. The station of a candidate is the number of its
/// first point, from 0, where its kind is one for which an instrument is set up there: a distance, a
/// direction or an angle. They are within the bounds of networks where the candidates were read
/// against these points. Refused for want of memory alone.
pub fn stations_of(
    alloc: Global,
    points: &Points,
    candidates: &Candidates,
    stations: &Stations,
) -> Result<(Vec<Option<u32>>, Vec<u64>), NoMemory>
    ensures value { IfOk result (λ made. stations_seen made ≡ stations_on points.now candidates.now stations.now) }
    ensures bounds { AreCandidates points.now candidates.now → IfOk result (λ made. AreStations (length candidates.now) made.0.items made.1.items) }
{
    let of_candidates = candidate_stations(alloc, candidates)?;
    let prices = point_prices(alloc, points, stations)?;
    Ok((of_candidates, prices))
}
