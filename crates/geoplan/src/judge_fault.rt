ghost use Rattle.std.specs.Prelude.{◌≡◌};
ghost use Rattle.geoplan.specs.Loading.{judged_stations, judged_table};

use point_tables::{TableAnswer, TableFault};
use station_tables::{StationAnswer, StationFault};

/// Why tables were not accepted: points, candidates or the network of both are refused, or a table of
/// stations is, or memory ran out.
#[derive(Clone, Copy)]
pub enum JudgeFault {
    Table(TableFault),
    Stations(StationFault),
    NoMemory,
}

impl JudgeFault {
    /// Why tables were not accepted of which one, or the network, was refused.
    pub fn of_table(why: TableAnswer) -> JudgeFault
        ensures { result ≡ judged_table why }
    {
        match why {
            TableAnswer::Fault(fault) => JudgeFault::Table(fault),
            TableAnswer::NoMemory => JudgeFault::NoMemory,
        }
    }

    /// Why tables were not accepted of which that of stations was refused.
    pub fn of_stations(why: StationAnswer) -> JudgeFault
        ensures { result ≡ judged_stations why }
    {
        match why {
            StationAnswer::Fault(fault) => JudgeFault::Stations(fault),
            StationAnswer::NoMemory => JudgeFault::NoMemory,
        }
    }
}
