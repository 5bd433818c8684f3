ghost use Rattle.std.specs.Prelude.{ℕ, List};
ghost use Rattle.table_rows.specs.Faults.{FindsLeast, asked};
ghost use Rattle.point_tables.specs.declared.record.PointRecord.{PointRecord};
ghost use Rattle.station_tables.specs.StationTable.{stations_fault, stations_table};

/// A law: against any points, the first fault of a table of stations is the least pair of a record
/// and a place in the order of its rules, and there is none exactly where no record breaks a rule.
pub fn first_station_fault_is_least()
    ensures { (points : List PointRecord) (bytes : List ℕ) → FindsLeast (asked (stations_table points) bytes) (stations_fault points bytes) }
{}
