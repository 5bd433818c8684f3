ghost use Rattle.std.specs.Prelude.{IfOk};
ghost use Rattle.point_tables.specs.declared.fault.TableName.TheVariants as table;
ghost use Rattle.point_tables.specs.Accepted.{ArePoints, IsAccepted};
ghost use Rattle.point_tables.specs.Columns.{Answers};
ghost use Rattle.point_tables.specs.PointTable.{point_of, point_of-name, point_rules, points_fault, points_of};

use crate::columns::read_columns;
use crate::fault::{FaultKind, TableAnswer, TableName};
use crate::kinds::NAME_KINDS;
use crate::points::Points;
use crate::record::PointRecord;
use std::alloc::Global;
use table_columns::{Name, NameKinds, NamedTable, Shape, read_named_table};
use table_rows::TableRow;

// The largest number of a record, the header row among them.
const MOST_RECORDS: u16 = 1001;

// The points table.
#[derive(Drop)]
struct PointTable;

impl NamedTable for PointTable {
    type Kind = FaultKind;

    type Record = PointRecord;

    ghost asks = { λ _. point_rules };

    ghost value_of = { λ _. point_of };

    ghost IsRight = { λ _. IsAccepted };

    fn header(&self) -> &'static [&'static str] {
        &["name", "x", "y", "z", "plane", "height"]
    }

    fn shape(&self) -> Shape<FaultKind> {
        FaultKind::shape(MOST_RECORDS, 6)
    }

    fn name_kinds(&self) -> NameKinds<FaultKind> {
        NAME_KINDS
    }

    fn read_columns(&self, row: &TableRow, name: Name) -> Result<PointRecord, FaultKind> {
        match read_columns(row) {
            Ok(columns) => Ok(PointRecord {
                name,
                x: columns.x,
                y: columns.y,
                z: columns.z,
                plane: columns.plane,
                height: columns.height,
            }),
            Err(kind) => Err(kind),
        }
    }

    ghost named = { λ _. point_of-name };
}

/// Reads a points table: the points of its records in their order, or its first fault.
pub fn read_points(alloc: Global, bytes: &[u8]) -> Result<Points, TableAnswer>
    ensures answer { Answers table.Points (points_fault bytes.now) (points_of bytes.now) result }
    ensures accepted { IfOk result ArePoints }
{
    match read_named_table(alloc, bytes, &PointTable) {
        Ok(records) => Ok(Points::of(records)),
        Err(refusal) => Err(TableAnswer::of(TableName::Points, refusal)),
    }
}
