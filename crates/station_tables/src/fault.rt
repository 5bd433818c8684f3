ghost use Rattle.std.specs.Prelude.{◌≡◌};
ghost use Rattle.station_tables.specs.declared.fault.StationAnswer.TheVariants as answer;
ghost use Rattle.station_tables.specs.StationTable.{station_answer};

use geo_base::NoMemory as WantOfMemory;
use point_tables::FaultKind;
use std::alloc::{AllocError, AllocFailed};
use table_columns::Refusal;

/// The first fault of a table of stations.
#[derive(Clone, Copy, Debug, PartialEq, Eq)]
pub struct StationFault {
    /// The number of its record, counted from 1 at the header row.
    pub number: u32,
    /// What is wrong there.
    pub kind: FaultKind,
}

/// Why a table of stations was not read.
#[derive(Clone, Copy, Debug, PartialEq, Eq)]
pub enum StationAnswer {
    /// The table has a fault, of which this is the first.
    Fault(StationFault),
    /// Memory ran out.
    NoMemory,
}

impl StationAnswer {
    // The answer of a table that was refused.
    pub(crate) fn of(refusal: Refusal<FaultKind>) -> StationAnswer
        ensures { result ≡ station_answer refusal }
    {
        match refusal {
            Refusal::Broken(number, kind) => StationAnswer::Fault(StationFault { number, kind }),
            Refusal::NoMemory => StationAnswer::NoMemory,
        }
    }
}
