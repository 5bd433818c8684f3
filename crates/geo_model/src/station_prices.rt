use std::marker::Model;

/// The stations of a network: where instruments are set up, which costs money besides the
/// observations.
#[derive(Debug, Drop)]
pub(crate) struct StationPrices {
    /// The station of each candidate that has one, by its number from 0.
    pub(crate) of_candidates: Vec<Option<u32>>,
    /// The price of each station, at most 1000000000.
    pub(crate) prices: Vec<u64>,
}

impl Model for StationPrices {
    ghost use Rattle.geo_model.specs.Network.{StationsOf};

    ghost Value = { StationsOf };

    ghost view = { λ stations. record { of_candidates = stations.of_candidates.items; prices = stations.prices.items } };
}
