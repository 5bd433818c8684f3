ghost use Rattle.std.specs.Prelude.{◌≡◌, ◌≤◌, ◌^◌, IfOk, OnOk, true};
ghost use Rattle.table_columns.specs.Names.{is_name};
ghost use Rattle.table_columns.specs.Read.{Reads};
ghost use Rattle.table_columns.specs.Stored.{AreNamed};
ghost use Rattle.candidate_tables.specs.CandidateTable.{known_point_rules, written_price, price_rules};
ghost use Rattle.candidate_tables.specs.Read.{IsPlaceOf};
ghost use Rattle.station_tables.specs.StationTable.{AnswersStations, AreStationRecords, read_station, read_stations, stations_fault, stations_table};

use crate::fault::StationAnswer;
use crate::record::StationRecord;
use crate::stations::Stations;
use point_tables::{FaultKind, NAME_KINDS, NUMBER_KINDS, Points};
use std::alloc::Global;
use table_columns::{Name, NamedRecords, Refusal, Table, read_table};
use table_rows::TableRow;

// The largest number of a record, the header row among them.
const MOST_RECORDS: u16 = 1001;

// The largest price.
const MOST_PRICE: i64 = 1_000_000_000;

// The number of the point of this text, which is then a name.
fn read_point(text: &[u8], points: &Points) -> Result<u32, FaultKind>
    ensures point { Reads (known_point_rules points.now text.now) (IsPlaceOf points.now text.now) result }
    ensures named { OnOk result (is_name text.now ≡ true) }
{
    match points.find(text) {
        Some(place) => {
            let _accepted = points.get(place);
            Ok(place)
        }
        None => Err(FaultKind::NoPoint),
    }
}

// The price.
fn read_price(text: &[u8]) -> Result<u64, FaultKind>
    ensures price { Reads (price_rules text.now) (λ value. value ≡ written_price text.now) result }
    ensures bound { IfOk result (λ value. value ≤ 10 ^ 9) }
{
    match NUMBER_KINDS.read(text, 0, 0, MOST_PRICE) {
        Ok(value) => Ok(value as u64),
        Err(kind) => Err(kind),
    }
}

// The table of stations against the points of an accepted points table.
#[derive(Drop)]
struct StationTable<'a> {
    points: &'a Points,
}

impl<'a> Table for StationTable<'a> {
    type Kind = FaultKind;

    type Record = StationRecord;

    type Records = NamedRecords<StationRecord>;

    ghost asks = { λ table. stations_table table.points.now };

    ghost value_of = { λ table. read_station table.points.now };

    ghost seen = { λ records. records };

    ghost AreRight = { λ table. AreStationRecords table.points.now };

    fn header(&self) -> &'static [&'static str] {
        &["name", "price"]
    }

    fn header_kind(&self) -> FaultKind {
        FaultKind::Header
    }

    fn no_records(&self, alloc: Global) -> NamedRecords<StationRecord> {
        NamedRecords::new(alloc)
    }

    fn add(
        &self,
        alloc: Global,
        row: &TableRow,
        records: &mut NamedRecords<StationRecord>,
    ) -> Result<(), Refusal<FaultKind>> {
        let number = records.len() + 2;
        if let Some(kind) = FaultKind::shape(MOST_RECORDS, 2).broken(number, row) {
            return Err(Refusal::Broken(number, kind));
        }
        let text = row.field(0);
        let point = match read_point(text, self.points) {
            Ok(point) => point,
            Err(kind) => return Err(Refusal::Broken(number, kind)),
        };
        let name = match NAME_KINDS.new_name(text, records.find(text)) {
            Ok(name) => Name::new(alloc, name)?,
            Err(kind) => return Err(Refusal::Broken(number, kind)),
        };
        let price = match read_price(row.field(1)) {
            Ok(price) => price,
            Err(kind) => return Err(Refusal::Broken(number, kind)),
        };
        records.push(alloc, StationRecord { name, point, price })?;
        Ok(())
    }
}

/// Reads a table of stations against the points of an accepted points table: the prices of its
/// records, or its first fault.
pub fn read_stations(
    alloc: Global,
    bytes: &[u8],
    points: &Points,
) -> Result<Stations, StationAnswer>
    ensures answer { AnswersStations (stations_fault points.now bytes.now) (read_stations points.now bytes.now) result }
    ensures accepted { IfOk result (AreStationRecords points.now) }
{
    match read_table(alloc, bytes, &StationTable { points }) {
        Ok(records) => Ok(Stations::of(records)),
        Err(refusal) => Err(StationAnswer::of(refusal)),
    }
}
