//! The candidates of a network: the price and the rows of each.
ghost use Rattle.std.specs.Prelude.{◌≡◌, map, IfOk};
ghost use Rattle.candidate_tables.specs.Accepted.{AreCandidates};
ghost use Rattle.design_rows.specs.Rows.{IsNumbered};
ghost use Rattle.design_rows.specs.Unknowns.{unknowns_of};
ghost use Rattle.net_build.specs.Build.{candidate_of};

use candidate_tables::{CandidateRecord, Candidates};
use design_rows::{Columns, rows_of};
use geo_base::NoMemory;
use geo_model::Candidate;
use point_tables::Points;
use std::alloc::Global;

// The candidate of a record.
fn candidate_of(
    alloc: Global,
    listed: &CandidateRecord,
    points: &Points,
    columns: &Columns,
) -> Result<Candidate, NoMemory>
    requires { IsNumbered points.now columns.now listed.now }
    ensures { IfOk result (λ candidate. candidate ≡ candidate_of points.now columns.now listed.now) }
{
    let rows = rows_of(alloc, listed, points, columns)?;
    Ok(Candidate {
        price: listed.price,
        rows,
    })
}

// The candidates of a table, in its order.
pub(crate) fn candidates_of(
    alloc: Global,
    points: &Points,
    candidates: &Candidates,
    columns: &Columns,
) -> Result<Vec<Candidate>, NoMemory>
    requires numbered { columns.now ≡ unknowns_of points.now candidates.now }
    requires accepted { AreCandidates points.now candidates.now }
    ensures { IfOk result (λ built. built.items ≡ map (candidate_of points.now columns.now) candidates.now) }
{
    let mut built = Vec::new(alloc);
    'candidates: for place in 0..candidates.len() {
        let candidate = candidate_of(alloc, candidates.get(place), points, columns)?;
        built.push(candidate)?;
    }
    Ok(built)
}
