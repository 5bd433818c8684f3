ghost use Rattle.std.specs.Prelude.{◌≡◌};

use candidate_tables::Candidates;
use geo_model::Network;
use point_tables::Points;
use std::marker::Model;

/// What two accepted tables give: the points and the candidates in their order, the redundancy that
/// is asked for, in thousandths, and the network of both.
#[derive(Drop)]
pub struct Tables {
    points: Points,
    candidates: Candidates,
    redundancy: u32,
    network: Network,
}

impl Model for Tables {
    ghost use Rattle.geoplan.specs.Tables.{TablesOf};

    ghost Value = { TablesOf };

    ghost view = { λ tables. record { points = tables.points; candidates = tables.candidates; redundancy = tables.redundancy; network = tables.network } };
}

impl Tables {
    /// Points and candidates with their network for a redundancy.
    pub fn new(points: Points, candidates: Candidates, redundancy: u32, network: Network) -> Tables
        ensures { result ≡ record { points = points; candidates = candidates; redundancy = redundancy; network = network } }
    {
        Tables {
            points,
            candidates,
            redundancy,
            network,
        }
    }

    /// The points, in their order.
    pub fn points(&self) -> &Points
        ensures { result.now ≡ self.now.points }
    {
        &self.points
    }

    /// The candidates, in their order.
    pub fn candidates(&self) -> &Candidates
        ensures { result.now ≡ self.now.candidates }
    {
        &self.candidates
    }

    /// The redundancy that is asked for, in thousandths.
    pub fn redundancy(&self) -> u32
        ensures { result ≡ self.now.redundancy }
    {
        self.redundancy
    }

    /// The network of the tables.
    pub fn network(&self) -> &Network
        ensures { result.now ≡ self.now.network }
    {
        &self.network
    }
}
