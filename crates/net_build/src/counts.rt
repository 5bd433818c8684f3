//! How many unknowns and rows a network has, and whether these are too many.
ghost use Rattle.std.specs.Prelude.{ℕ, ◌≡◌, ◌≤◌, List, length};
ghost use Rattle.geo_model.specs.declared.network.Unknown.{Unknown};
ghost use Rattle.point_tables.specs.declared.record.PointRecord.{PointRecord};
ghost use Rattle.design_rows.specs.Rows.{rows_of};
ghost use Rattle.net_build.specs.Build.{count_fault, row_count};

use candidate_tables::{CandidateRecord, Candidates};
use point_tables::FaultKind;

// The largest counts of a network.
const MOST_UNKNOWNS: u32 = 64;

const MOST_ROWS: u32 = 512;

// How many rows a candidate has, wherever its points lie.
fn rows_by(candidate: &CandidateRecord) -> u32
    ensures rows { (points : List PointRecord) (unknowns : List Unknown) → result ≡ length (rows_of points unknowns candidate.now) }
    ensures few { result ≤ 3 }
{
    candidate.kind.rules().rows
}

// How many rows the candidates have, wherever the points lie.
pub(crate) fn count_rows(candidates: &Candidates) -> u32
    ensures { (points : List PointRecord) (unknowns : List Unknown) → result ≡ row_count points unknowns candidates.now }
{
    let mut count = 0;
    'candidates: for place in 0..candidates.len() {
        count += rows_by(candidates.get(place));
    }
    count
}

// The fault of these counts: too many unknowns, or else too many rows, with their count.
pub(crate) fn fault_of(unknowns: u32, rows: u32) -> Option<(u32, FaultKind)>
    ensures { result ≡ count_fault unknowns rows }
{
    if unknowns > MOST_UNKNOWNS {
        return Some((unknowns, FaultKind::TooManyUnknowns));
    }
    if rows > MOST_ROWS {
        return Some((rows, FaultKind::TooManyRows));
    }
    None
}
