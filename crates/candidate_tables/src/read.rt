ghost use Rattle.std.specs.Prelude.{◌≡◌, IfOk, length};
ghost use Rattle.point_tables.specs.declared.fault.TableName.TheVariants as table;
ghost use Rattle.point_tables.specs.Columns.{Answers};
ghost use Rattle.table_columns.specs.Read.{Reads};
ghost use Rattle.candidate_tables.specs.Accepted.{AreCandidates, IsCandidateRecord};
ghost use Rattle.candidate_tables.specs.CandidateTable.{candidate_record_of, candidate_record_of-name, candidate_rules, candidates_fault, candidates_of, candidate_column_rules};
ghost use Rattle.candidate_tables.specs.Read.{AreColumns};

use crate::candidates::Candidates;
use crate::ends::{Ends, read_ends};
use crate::figures::{Figures, read_figures};
use crate::record::CandidateRecord;
use point_tables::{FaultKind, NAME_KINDS, Points, TableAnswer, TableName};
use std::alloc::Global;
use table_columns::{Name, NameKinds, NamedTable, Shape, read_named_table};
use table_rows::TableRow;

// The largest number of a record, the header row among them.
const MOST_RECORDS: u16 = 257;

// The columns of a record after its name.
fn read_columns(row: &TableRow, points: &Points) -> Result<(Ends, Figures), FaultKind>
    requires { length row.now ≡ 8 }
    ensures { Reads (candidate_column_rules points.now row.now (candidate_record_of points.now row.now)) (AreColumns points.now row.now) result }
{
    let ends = read_ends(row, points)?;
    if let Some(broken) = ends.broken_place(row, points) {
        return Err(broken);
    }
    let figures = read_figures(ends.kind, row)?;
    Ok((ends, figures))
}

// The candidates table against the points of an accepted points table.
#[derive(Drop)]
struct CandidateTable<'a> {
    points: &'a Points,
}

impl<'a> NamedTable for CandidateTable<'a> {
    type Kind = FaultKind;

    type Record = CandidateRecord;

    ghost asks = { λ table. candidate_rules table.points.now };

    ghost value_of = { λ table. candidate_record_of table.points.now };

    ghost IsRight = { λ table. IsCandidateRecord table.points.now };

    fn header(&self) -> &'static [&'static str] {
        &["name", "kind", "from", "to", "to2", "sd", "sdh", "price"]
    }

    fn shape(&self) -> Shape<FaultKind> {
        FaultKind::shape(MOST_RECORDS, 8)
    }

    fn name_kinds(&self) -> NameKinds<FaultKind> {
        NAME_KINDS
    }

    fn read_columns(&self, row: &TableRow, name: Name) -> Result<CandidateRecord, FaultKind> {
        match read_columns(row, self.points) {
            Ok((ends, figures)) => Ok(CandidateRecord {
                name,
                kind: ends.kind,
                from: ends.from,
                to: ends.to,
                to2: ends.to2,
                sd: figures.sd,
                sdh: figures.sdh,
                price: figures.price,
            }),
            Err(kind) => Err(kind),
        }
    }

    ghost named = { λ table. candidate_record_of-name table.points.now };
}

/// Reads a candidates table against the points of an accepted points table: the candidates of its
/// records in their order, or its first fault.
pub fn read_candidates(
    alloc: Global,
    bytes: &[u8],
    points: &Points,
) -> Result<Candidates, TableAnswer>
    ensures answer { Answers table.Candidates (candidates_fault points.now bytes.now) (candidates_of points.now bytes.now) result }
    ensures accepted { IfOk result (AreCandidates points.now) }
{
    match read_named_table(alloc, bytes, &CandidateTable { points }) {
        Ok(records) => Ok(Candidates::of(records)),
        Err(refusal) => Err(TableAnswer::of(TableName::Candidates, refusal)),
    }
}
