ghost use Rattle.std.specs.Prelude.{◌≡◌};

use candidate_tables::Candidates;
use geo_model::Network;
use point_tables::Points;

/// The two tables of a survey, and their network.
#[derive(Clone, Copy)]
pub struct Survey<'a> {
    pub points: &'a Points,
    pub candidates: &'a Candidates,
    pub network: &'a Network,
}
