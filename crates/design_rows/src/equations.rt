//! The rows of the equations of each kind of observation.
ghost use Rattle.std.specs.Prelude.{◌≡◌, ◌≢◌, IfOk, unwrap_or};
ghost use Rattle.candidate_tables.specs.declared.kind.Kind.TheVariants as kind;
ghost use Rattle.candidate_tables.specs.Accepted.{IsBetween, IsCandidateRecord};
ghost use Rattle.design_rows.specs.Equations.{angle_terms, difference_terms, direction_terms, distance_terms, observed};
ghost use Rattle.design_rows.specs.Rows.{row_of};

use crate::columns::Columns;
use crate::entries::row_of;
use crate::line::{direction_parts, distance_parts};
use crate::term::{difference, minus, term_of};
use candidate_tables::CandidateRecord;
use geo_base::NoMemory;
use geo_model::{Component, Row};
use point_tables::Points;
use std::alloc::Global;

// A coefficient of 1, as of an orientation and of each end of a level or a vector, times the scale of
// all coefficients.
const SCALED_ONE: i64 = 10_000;

// The row of a distance.
pub(crate) fn distance_row(
    alloc: Global,
    candidate: &CandidateRecord,
    points: &Points,
    columns: &Columns,
) -> Result<Row, NoMemory>
    requires accepted { IsCandidateRecord points.now candidate.now }
    requires kind { candidate.now.kind ≡ kind.Distance }
    ensures { IfOk result (λ row. row ≡ row_of columns.now (observed (distance_terms points.now candidate.now.from candidate.now.to) candidate.now.sd)) }
{
    let (a, b) = (candidate.from, candidate.to);
    let parts = distance_parts(points, a, b);
    let terms = [
        term_of(minus(parts.x), Component::X, a),
        term_of(minus(parts.y), Component::Y, a),
        term_of(parts.x, Component::X, b),
        term_of(parts.y, Component::Y, b),
    ];
    row_of(alloc, columns, &terms, candidate.sd)
}

// The row of a direction.
pub(crate) fn direction_row(
    alloc: Global,
    candidate: &CandidateRecord,
    points: &Points,
    columns: &Columns,
) -> Result<Row, NoMemory>
    requires accepted { IsCandidateRecord points.now candidate.now }
    requires kind { candidate.now.kind ≡ kind.Direction }
    ensures { IfOk result (λ row. row ≡ row_of columns.now (observed (direction_terms points.now candidate.now.from candidate.now.to) candidate.now.sd)) }
{
    let (a, b) = (candidate.from, candidate.to);
    let parts = direction_parts(points, a, b);
    let terms = [
        term_of(parts.y, Component::X, a),
        term_of(minus(parts.x), Component::Y, a),
        term_of(minus(parts.y), Component::X, b),
        term_of(parts.x, Component::Y, b),
        term_of(minus(SCALED_ONE), Component::Turn, a),
    ];
    row_of(alloc, columns, &terms, candidate.sd)
}

// The row of an angle with this foresight.
pub(crate) fn angle_row(
    alloc: Global,
    candidate: &CandidateRecord,
    foresight: u32,
    points: &Points,
    columns: &Columns,
) -> Result<Row, NoMemory>
    requires accepted { IsCandidateRecord points.now candidate.now }
    requires kind { candidate.now.kind ≡ kind.Angle }
    requires foresight { foresight ≡ unwrap_or candidate.now.to2 0 }
    ensures { IfOk result (λ row. row ≡ row_of columns.now (observed (angle_terms points.now candidate.now.from candidate.now.to foresight) candidate.now.sd)) }
{
    let (a, b, c) = (candidate.from, candidate.to, foresight);
    let back = direction_parts(points, a, b);
    let fore = direction_parts(points, a, c);
    let terms = [
        term_of(difference(fore.y, back.y), Component::X, a),
        term_of(difference(back.x, fore.x), Component::Y, a),
        term_of(back.y, Component::X, b),
        term_of(minus(back.x), Component::Y, b),
        term_of(minus(fore.y), Component::X, c),
        term_of(fore.x, Component::Y, c),
    ];
    row_of(alloc, columns, &terms, candidate.sd)
}

// The row of a difference of two points in one component.
pub(crate) fn difference_row(
    alloc: Global,
    component: Component,
    a: u32,
    b: u32,
    deviation: u32,
    columns: &Columns,
) -> Result<Row, NoMemory>
    requires other { a ≢ b }
    requires deviation { IsBetween deviation }
    ensures { IfOk result (λ row. row ≡ row_of columns.now (observed (difference_terms component a b) deviation)) }
{
    let terms = [
        term_of(minus(SCALED_ONE), component, a),
        term_of(SCALED_ONE, component, b),
    ];
    row_of(alloc, columns, &terms, deviation)
}
