ghost use Rattle.std.specs.Prelude.{◌≡◌};
ghost use Rattle.geoplan.specs.Input.{refused_stations, refused_table};
ghost use Rattle.geoplan.specs.Loading.{IsShownAs, refused_view};

use crate::judge_fault::JudgeFault;
use crate::refusal_text::{kind_word, table_word};
use point_tables::TableFault;
use station_tables::StationFault;

/// A table that is refused: its word, the number of a record, counted from 1, and the word of what is
/// wrong with it.
#[derive(Clone, Copy)]
pub struct RefusedTable {
    pub table: &'static str,
    pub number: u32,
    pub kind: &'static str,
}

impl RefusedTable {
    /// The refusal of tables that were judged. None where memory ran out.
    pub fn judged(why: JudgeFault) -> Option<RefusedTable>
        ensures { IsShownAs why result }
    {
        match why {
            JudgeFault::Table(fault) => Some(RefusedTable::of(fault)),
            JudgeFault::Stations(fault) => Some(RefusedTable::of_stations(fault)),
            JudgeFault::NoMemory => None,
        }
    }

    /// The refusal for a fault.
    fn of(fault: TableFault) -> RefusedTable
        ensures { refused_view result ≡ refused_table fault.table (fault.number, fault.kind) }
    {
        RefusedTable {
            table: table_word(fault.table),
            number: fault.number,
            kind: kind_word(fault.kind),
        }
    }

    /// The refusal of a table of stations for its fault.
    fn of_stations(fault: StationFault) -> RefusedTable
        ensures { refused_view result ≡ refused_stations (fault.number, fault.kind) }
    {
        RefusedTable {
            table: "stations",
            number: fault.number,
            kind: kind_word(fault.kind),
        }
    }
}
