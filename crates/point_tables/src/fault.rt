ghost use Rattle.std.specs.Prelude.{◌≡◌};
ghost use Rattle.point_tables.specs.declared.fault.TableAnswer.TheVariants as answer;
ghost use Rattle.point_tables.specs.Columns.{answer_of};

use geo_base::NoMemory as WantOfMemory;
use std::alloc::{AllocError, AllocFailed};
use table_columns::Refusal;

/// The table that a fault is of.
#[derive(Clone, Copy, Debug, PartialEq, Eq)]
pub enum TableName {
    /// The points table.
    Points,
    /// The candidates table.
    Candidates,
    /// Both tables together, as the network that they make.
    Network,
}

/// What is wrong with a table.
#[derive(Clone, Copy, Debug, PartialEq, Eq)]
pub enum FaultKind {
    /// Record 1 is not the header row.
    Header,
    /// There are too many records: more than 1001 in a points table, more than 257 in a candidates
    /// table, the header row among them.
    TooMany,
    /// A record has another number of fields than the header row.
    Fields,
    /// A field is not UTF-8.
    Utf8,
    /// A name is not one: 1 to 32 bytes without a comma, a double quote or a control byte.
    Name,
    /// An earlier record of the table has the name.
    Twice,
    /// A text is not a number with the places of its column: 3 for a coordinate in metres, 1 for a
    /// limit in millimetres, 2 for a standard deviation in millimetres or cc, none for a price.
    Number,
    /// A number is outside the bounds of its column: a coordinate of more than 100000000 m, a limit
    /// outside 0.1 to 100.0 mm, a standard deviation outside 0.10 to 100.00, a price outside 0 to
    /// 1000000000.
    Range,
    /// A part has no coordinate that it needs: x and y for a plane part, z for a height part.
    Missing,
    /// The kind of a candidate is none of the five kinds.
    Kind,
    /// A candidate names no point.
    NoPoint,
    /// A candidate has a field that its kind has not.
    Extra,
    /// A candidate names a point twice.
    SamePoint,
    /// A point that is named has no plane part.
    NoPlane,
    /// A point that is named has no height part.
    NoHeight,
    /// A line is shorter than 1 m for a distance, or than 10 m for a direction or an angle.
    Near,
    /// A line of a distance, a direction or an angle is longer than 100 km.
    Far,
    /// The network has more than 64 unknowns.
    TooManyUnknowns,
    /// The network has more than 512 rows.
    TooManyRows,
}

/// The first fault of a table.
#[derive(Clone, Copy, Debug, PartialEq, Eq)]
pub struct TableFault {
    /// The table that it is of.
    pub table: TableName,
    /// The number of its record, counted from 1 at the header row; for the network the count of
    /// unknowns or of rows that is too large.
    pub number: u32,
    /// What is wrong there.
    pub kind: FaultKind,
}

/// Why a table was not read.
#[derive(Clone, Copy, Debug, PartialEq, Eq)]
pub enum TableAnswer {
    /// The table has a fault, of which this is the first.
    Fault(TableFault),
    /// Memory ran out.
    NoMemory,
}

impl TableAnswer {
    /// The answer of a table that was refused.
    pub fn of(table: TableName, refusal: Refusal<FaultKind>) -> TableAnswer
        ensures { result ≡ answer_of table refusal }
    {
        match refusal {
            Refusal::Broken(number, kind) => TableAnswer::Fault(TableFault {
                table,
                number,
                kind,
            }),
            Refusal::NoMemory => TableAnswer::NoMemory,
        }
    }
}

impl From<WantOfMemory> for TableAnswer {
    ghost from_gives = { λ _ made. made ≡ answer.NoMemory };

    fn from(_refused: WantOfMemory) -> TableAnswer {
        TableAnswer::NoMemory
    }
}

impl From<AllocError> for TableAnswer {
    ghost from_gives = { λ _ made. made ≡ answer.NoMemory };

    fn from(_refused: AllocError) -> TableAnswer {
        TableAnswer::NoMemory
    }
}

impl<T: Drop> From<AllocFailed<T>> for TableAnswer {
    ghost from_gives = { λ _ made. made ≡ answer.NoMemory };

    fn from(_refused: AllocFailed<T>) -> TableAnswer {
        TableAnswer::NoMemory
    }
}
