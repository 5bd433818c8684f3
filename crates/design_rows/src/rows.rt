ghost use Rattle.std.specs.Prelude.{◌≡◌, List, [], ◌∷◌, IfOk};
ghost use Rattle.point_tables.specs.declared.record.PointRecord.{PointRecord};
ghost use Rattle.candidate_tables.specs.declared.kind.Kind.TheVariants as kind;
ghost use Rattle.candidate_tables.specs.Accepted.{IsCandidateRecord};
ghost use Rattle.design_rows.specs.Rows.{IsNumbered, rows_of};

use crate::columns::Columns;
use crate::equations::{angle_row, difference_row, direction_row, distance_row};
use candidate_tables::{CandidateRecord, Kind};
use geo_base::NoMemory;
use geo_model::{Component, Row};
use point_tables::Points;
use std::alloc::Global;

// A list of one row.
fn one_row(alloc: Global, row: Row) -> Result<Vec<Row>, NoMemory>
    ensures { IfOk result (λ rows. rows.items ≡ row ∷ []) }
{
    let mut rows = Vec::new(alloc);
    rows.push(row)?;
    Ok(rows)
}

// The rows of an angle.
fn angle_rows(
    alloc: Global,
    candidate: &CandidateRecord,
    points: &Points,
    columns: &Columns,
) -> Result<Vec<Row>, NoMemory>
    requires accepted { IsCandidateRecord points.now candidate.now }
    requires kind { candidate.now.kind ≡ kind.Angle }
    ensures { IfOk result (λ rows. rows.items ≡ rows_of points.now columns.now candidate.now) }
{
    let Some(foresight) = candidate.to2 else {
        unreachable!()
    };
    let row = angle_row(alloc, candidate, foresight, points, columns)?;
    one_row(alloc, row)
}

// The rows of a vector, wherever its points lie.
fn vector_rows(
    alloc: Global,
    candidate: &CandidateRecord,
    columns: &Columns,
) -> Result<Vec<Row>, NoMemory>
    requires accepted { (points : List PointRecord) × IsCandidateRecord points candidate.now }
    requires kind { candidate.now.kind ≡ kind.Vector }
    ensures { IfOk result (λ rows. (points : List PointRecord) → rows.items ≡ rows_of points columns.now candidate.now) }
{
    let Some(height) = candidate.sdh else {
        unreachable!()
    };
    let (a, b, plane) = (candidate.from, candidate.to, candidate.sd);
    let mut rows = Vec::new(alloc);
    rows.push(difference_row(alloc, Component::X, a, b, plane, columns)?)?;
    rows.push(difference_row(alloc, Component::Y, a, b, plane, columns)?)?;
    rows.push(difference_row(alloc, Component::Z, a, b, height, columns)?)?;
    Ok(rows)
}

/// The weighted rows of a candidate, as many as its kind gives. They are the linearised observation
/// equations of any textbook of plane networks and of levelling. An entry is a column with 10000
/// times the change of the observation, in millimetres or cc, by a millimetre of a coordinate or a
/// cc of an orientation; a weight is 10^8 over the square of the standard deviation in hundredths;
/// both are rounded to the nearest whole number, which is this project's own. Fixed components and
/// entries of 0 are left out. The columns are those of these points and of the candidates table
/// that the candidate is one of. Refused for want of memory alone.
pub fn rows_of(
    alloc: Global,
    candidate: &CandidateRecord,
    points: &Points,
    columns: &Columns,
) -> Result<Vec<Row>, NoMemory>
    requires { IsNumbered points.now columns.now candidate.now }
    ensures { IfOk result (λ rows. rows.items ≡ rows_of points.now columns.now candidate.now) }
{
    let row = match candidate.kind {
        Kind::Distance => distance_row(alloc, candidate, points, columns)?,
        Kind::Direction => direction_row(alloc, candidate, points, columns)?,
        Kind::Level => {
            let (a, b) = (candidate.from, candidate.to);
            difference_row(alloc, Component::Z, a, b, candidate.sd, columns)?
        }
        Kind::Angle => return angle_rows(alloc, candidate, points, columns),
        Kind::Vector => return vector_rows(alloc, candidate, columns),
    };
    one_row(alloc, row)
}
