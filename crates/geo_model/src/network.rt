ghost use Rattle.std.specs.Prelude.{◌≡◌, ◌<◌, ◌++◌, Some, length, slice_get, OnErr, OnOk};

use crate::candidate::Candidate;
use crate::limit::Limit;
use crate::station_prices::StationPrices;
use geo_base::NoMemory;
use std::marker::Model;

/// What an unknown is of its point: a coordinate in mm, or the orientation of a station in cc.
#[derive(Clone, Copy, Debug, PartialEq, Eq)]
pub enum Component {
    /// The x coordinate, in mm: along bearing 0.
    X,
    /// The y coordinate, in mm: along bearing 100 gon.
    Y,
    /// The height, in mm.
    Z,
    /// The orientation of the station, in cc, that is 10^-4 gon.
    Turn,
}

/// An unknown of a network: a component of a point, by the point's number.
#[derive(Clone, Copy, Debug, PartialEq, Eq)]
pub struct Unknown {
    /// The number of the point, from 0.
    pub point: u32,
    /// What it is of the point.
    pub component: Component,
}

/// A control network with its possible observations: unknowns, candidates and limits, each by its
/// number from 0, and the stations of the candidates. It keeps bounds, so that no sum over it leaves
/// 128 bits.
#[derive(Debug, Drop)]
pub struct Network {
    unknowns: Vec<Unknown>,
    candidates: Vec<Candidate>,
    limits: Vec<Limit>,
    // None: no candidate has a station.
    stations: Option<StationPrices>,
}

impl Model for Network {
    ghost use Rattle.std.specs.Prelude.{length};
    ghost use Rattle.geo_model.specs.Network.{NetworkOf, IsNetwork, network_with, stations_or_none};

    ghost Value = { NetworkOf };

    ghost view = { λ network. network_with network.unknowns.items network.candidates.items network.limits.items (stations_or_none (length network.candidates.items) network.stations) };

    ghost invariant = { λ network. IsNetwork (network_with network.unknowns.items network.candidates.items network.limits.items (stations_or_none (length network.candidates.items) network.stations)) };
}

impl Network {
    ghost use Rattle.geo_model.specs.Network.{IsNetwork, AreStations, network_of_lists};

    /// The network of these lists, without stations. It takes no memory.
    ///
    /// There are at most 64 unknowns, 256 candidates with at most 512 rows together, and 20000
    /// limits. Each column of a row or a square is the number of an unknown.
    ///
    /// The price of a candidate is at most 1000000000, and its rows are as `Row::new` asks.
    ///
    /// The factor of a limit is from 1 to 1000000. Each weight of its squares is from 1 to 10^14;
    /// columns ascend, and no coefficient is 0. The sum over the squares of the weight times the square
    /// of the sum of the coefficients' sizes is below 2^90. At a displacement by 1 in one unknown the
    /// load is at most 2^50, or at most 2^12 times the factor times the energy of all candidates.
    ///
    /// An owner is the number of a candidate. Axis and height limits have no owner, and at most one of
    /// them has a load at a displacement by 1 in one unknown.
    pub fn new(unknowns: Vec<Unknown>, candidates: Vec<Candidate>, limits: Vec<Limit>) -> Network
        requires { IsNetwork (network_of_lists unknowns.items candidates.items limits.items) }
        ensures { result ≡ network_of_lists unknowns.items candidates.items limits.items }
    {
        Network {
            unknowns,
            candidates,
            limits,
            stations: None,
        }
    }

    /// Gives each candidate its station, if any, and each station, by its number from 0, its price.
    /// There is an entry for each candidate, and there are at most 1000 prices, each at most
    /// 1000000000. It takes no memory.
    pub fn set_stations(&mut self, station_of: Vec<Option<u32>>, prices: Vec<u64>)
        requires { AreStations (length self.old.candidates) station_of.items prices.items }
        ensures { self.new ≡ record self.old { stations = station_of.items; station_prices = prices.items } }
    {
        self.stations = Some(StationPrices {
            of_candidates: station_of,
            prices,
        });
    }

    /// Adds limits behind the others. With them the network is within the bounds that `new` asks for.
    /// Refused for want of memory alone, and then as before.
    pub fn add_limits(&mut self, limits: Vec<Limit>) -> Result<(), NoMemory>
        requires { IsNetwork (record self.old { limits = self.old.limits ++ limits.items }) }
        ensures added { OnOk result (self.new ≡ record self.old { limits = self.old.limits ++ limits.items }) }
        ensures refused { OnErr result (self.new ≡ self.old) }
    {
        let mut limits = limits;
        self.limits.append(&mut limits)?;
        Ok(())
    }

    /// The unknowns, each by its number from 0: at most 64.
    pub fn unknowns(&self) -> &[Unknown]
        ensures value { result.now ≡ self.now.unknowns }
        ensures bounds { IsNetwork self.now }
    {
        self.unknowns.as_slice()
    }

    /// The candidates, each by its number from 0: at most 256.
    pub fn candidates(&self) -> &[Candidate]
        ensures value { result.now ≡ self.now.candidates }
        ensures bounds { IsNetwork self.now }
    {
        self.candidates.as_slice()
    }

    /// The limits, each by its number from 0: at most 20000.
    pub fn limits(&self) -> &[Limit]
        ensures value { result.now ≡ self.now.limits }
        ensures bounds { IsNetwork self.now }
    {
        self.limits.as_slice()
    }

    /// The station of candidate `i`, by its number from 0, if it has one.
    pub fn station_of(&self, i: u32) -> Option<u32>
        requires { i < length self.now.candidates }
        ensures { slice_get self.now.stations i ≡ Some result }
    {
        match &self.stations {
            Some(stations) => stations.of_candidates[i as usize],
            None => None,
        }
    }

    /// The price of each station, by its number from 0: at most 1000.
    pub fn station_prices(&self) -> &[u64]
        ensures value { result.now ≡ self.now.station_prices }
        ensures bounds { IsNetwork self.now }
    {
        match &self.stations {
            Some(stations) => stations.prices.as_slice(),
            None => &[],
        }
    }
}
