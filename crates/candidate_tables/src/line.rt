ghost use Rattle.std.specs.Prelude.{◌≡◌, ◌<◌, length};
ghost use Rattle.table_rows.specs.Faults.{first_broken};
ghost use Rattle.candidate_tables.specs.Lines.{length_squared};
ghost use Rattle.candidate_tables.specs.CandidateTable.{length_rules, line_length_rules};

use crate::kind::Kind;
use coefficient_round::length_squared;
use point_tables::{FaultKind, Points};

// The square of the length of the line between two points, in square millimetres.
fn square_between(points: &Points, from: u32, to: u32) -> u128
    requires from { from < length points.now }
    requires to { to < length points.now }
    ensures { result ≡ length_squared points.now from to }
{
    length_squared(points.x(to) - points.x(from), points.y(to) - points.y(from))
}

// The first rule that the square of a line's length breaks.
#[tactic(auto, unfolding(table_rows::specs::Faults::first_broken, crate::specs::CandidateTable::bound_rules, crate::specs::CandidateTable::length_rules))]
fn broken_length(kind: Kind, square: u128) -> Option<FaultKind>
    ensures { result ≡ first_broken (length_rules kind square) }
{
    let Some(bounds) = kind.rules().line else {
        return None;
    };
    if square < bounds.least {
        return Some(FaultKind::Near);
    }
    if bounds.greatest < square {
        return Some(FaultKind::Far);
    }
    None
}

// The first rule that the line between two points breaks.
pub(crate) fn broken_line(kind: Kind, points: &Points, from: u32, to: u32) -> Option<FaultKind>
    requires from { from < length points.now }
    requires to { to < length points.now }
    ensures { result ≡ first_broken (line_length_rules points.now kind from to) }
{
    broken_length(kind, square_between(points, from, to))
}
