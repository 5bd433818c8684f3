ghost use Rattle.std.specs.Prelude.{◌≡◌, length};
ghost use Rattle.table_columns.specs.Read.{Reads};
ghost use Rattle.candidate_tables.specs.CandidateTable.{end_rules, foresight_rules, known_point_rules};
ghost use Rattle.candidate_tables.specs.Read.{IsEnds, IsForesight, IsPlaceOf};

use crate::kind::{Kind, read_kind};
use point_tables::{FaultKind, Points};
use table_rows::TableRow;

// The kind of a record, and the numbers of the points that it names.
#[derive(Clone, Copy)]
pub(crate) struct Ends {
    pub(crate) kind: Kind,
    pub(crate) from: u32,
    pub(crate) to: u32,
    pub(crate) to2: Option<u32>,
}

// The number of the point of this name.
fn read_point(text: &[u8], points: &Points) -> Result<u32, FaultKind>
    ensures { Reads (known_point_rules points.now text.now) (IsPlaceOf points.now text.now) result }
{
    match points.find(text) {
        Some(place) => Ok(place),
        None => Err(FaultKind::NoPoint),
    }
}

// The number of the foresight, if the kind has one.
fn read_foresight(kind: Kind, text: &[u8], points: &Points) -> Result<Option<u32>, FaultKind>
    ensures { Reads (foresight_rules points.now kind text.now) (IsForesight points.now kind text.now) result }
{
    if !kind.rules().has_foresight {
        return Ok(None);
    }
    match read_point(text, points) {
        Ok(place) => Ok(Some(place)),
        Err(broken) => Err(broken),
    }
}

// The kind of a record, and the numbers of the points that it names.
pub(crate) fn read_ends(row: &TableRow, points: &Points) -> Result<Ends, FaultKind>
    requires { length row.now ≡ 8 }
    ensures { Reads (end_rules points.now row.now) (IsEnds points.now row.now) result }
{
    let kind = read_kind(row.field(1))?;
    let from = read_point(row.field(2), points)?;
    let to = read_point(row.field(3), points)?;
    let to2 = read_foresight(kind, row.field(4), points)?;
    Ok(Ends {
        kind,
        from,
        to,
        to2,
    })
}
