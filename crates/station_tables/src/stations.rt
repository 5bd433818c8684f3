ghost use Rattle.std.specs.Prelude.{◌≡◌, ◌≤◌, ◌^◌, [], All};
ghost use Rattle.station_tables.specs.StationTable.{station_price};

use crate::record::StationRecord;
use std::alloc::Global;
use std::marker::Model;
use table_columns::NamedRecords;

/// The prices of an accepted table of stations. Contracts see them as the list of its records.
#[derive(Drop)]
pub struct Stations {
    records: NamedRecords<StationRecord>,
}

impl Model for Stations {
    ghost use Rattle.std.specs.Prelude.{◌≤◌, ◌^◌, List, All};
    ghost use Rattle.station_tables.specs.declared.record.StationRecord.{StationRecord};

    ghost Value = { List StationRecord };

    ghost view = { λ stations. stations.records };

    ghost invariant = { λ stations. All (λ station. station.price ≤ 10 ^ 9) stations.records };
}

impl Stations {
    // The prices that these records give.
    pub(crate) fn of(records: NamedRecords<StationRecord>) -> Stations
        requires { All (λ station. station.price ≤ 10 ^ 9) records }
        ensures { result ≡ records }
    {
        Stations { records }
    }

    /// No table was given: each station costs nothing. It takes no memory.
    pub fn none(alloc: Global) -> Stations
        ensures { result ≡ [] }
    {
        Stations {
            records: NamedRecords::new(alloc),
        }
    }

    /// The price of setting up an instrument at the point of this number, and 0 where no record names
    /// the point.
    pub fn price(&self, point: u32) -> u64
        ensures value { result ≡ station_price self.now point }
        ensures bound { result ≤ 10 ^ 9 }
    {
        'records: for k in 0..self.records.len() {
            let station = self.records.get(k);
            if station.point == point {
                return station.price;
            }
        }
        0
    }
}
