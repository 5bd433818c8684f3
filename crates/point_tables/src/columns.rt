ghost use Rattle.std.specs.Prelude.{◌≡◌, length};
ghost use Rattle.table_columns.specs.Read.{Reads};
ghost use Rattle.point_tables.specs.PointTable.{point_column_rules, coordinate_rules, part_rules};
ghost use Rattle.point_tables.specs.Read.{IsColumns, IsCoordinateOf, IsPartOf, has_missing};

use crate::fault::FaultKind;
use crate::kinds::NUMBER_KINDS;
use crate::part::Part;
use table_rows::TableRow;

// The largest size of a coordinate, in millimetres.
const MOST_SIZE: i64 = 100_000_000_000;
// The largest limit of a part, in tenths of a millimetre.
const MOST_LIMIT: i64 = 1000;

// The columns of a record after its name.
#[derive(Clone, Copy)]
pub(crate) struct PointColumns {
    pub(crate) x: Option<i64>,
    pub(crate) y: Option<i64>,
    pub(crate) z: Option<i64>,
    pub(crate) plane: Part,
    pub(crate) height: Part,
}

impl PointColumns {
    // Whether a part lacks a coordinate that it needs.
    fn has_missing(&self) -> bool
        ensures { result ≡ has_missing self.now }
    {
        let lacks_plane = !self.plane.is_absent() && (self.x.is_none() || self.y.is_none());
        let lacks_height = !self.height.is_absent() && self.z.is_none();
        lacks_plane || lacks_height
    }
}

// A coordinate in millimetres, if there is one.
fn read_coordinate(text: &[u8]) -> Result<Option<i64>, FaultKind>
    ensures { Reads (coordinate_rules text.now) (IsCoordinateOf text.now) result }
{
    if text.is_empty() {
        return Ok(None);
    }
    match NUMBER_KINDS.read(text, 3, -MOST_SIZE, MOST_SIZE) {
        Ok(value) => Ok(Some(value)),
        Err(kind) => Err(kind),
    }
}

// A part of a point, with its limit in tenths of a millimetre.
fn read_part(text: &[u8]) -> Result<Part, FaultKind>
    ensures { Reads (part_rules text.now) (IsPartOf text.now) result }
{
    if text.is_empty() {
        return Ok(Part::Absent);
    }
    if text == b"fixed".as_slice() {
        return Ok(Part::Fixed);
    }
    match NUMBER_KINDS.read(text, 1, 1, MOST_LIMIT) {
        Ok(limit) => Ok(Part::New(limit as u32)),
        Err(kind) => Err(kind),
    }
}

// The columns of a record after its name.
pub(crate) fn read_columns(row: &TableRow) -> Result<PointColumns, FaultKind>
    requires { length row.now ≡ 6 }
    ensures { Reads (point_column_rules row.now) (IsColumns row.now) result }
{
    let x = read_coordinate(row.field(1))?;
    let y = read_coordinate(row.field(2))?;
    let z = read_coordinate(row.field(3))?;
    let plane = read_part(row.field(4))?;
    let height = read_part(row.field(5))?;
    let columns = PointColumns {
        x,
        y,
        z,
        plane,
        height,
    };
    if columns.has_missing() {
        return Err(FaultKind::Missing);
    }
    Ok(columns)
}
