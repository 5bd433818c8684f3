//! The first place that a candidate touches.
ghost use Rattle.std.specs.Prelude.{◌≡◌, ◌≤◌, length};
ghost use Rattle.std.specs.List.{position_or_len};
ghost use Rattle.limit_forms.specs.Grid.{has_column};
ghost use Rattle.factor_stack.specs.Image.{touches};

use geo_model::Candidate;
use limit_forms::LimitGrid;

// Whether a candidate touches an unknown: one of its rows has an entry there.
fn touches(candidate: &Candidate, unknown: u32) -> bool
    ensures { result ≡ touches candidate.now unknown }
{
    let rows = candidate.rows.as_slice();
    for row in rows {
        if names_column(row.entries(), unknown) {
            return true;
        }
    }
    false
}

// Whether a linear form has an entry in a column.
fn names_column(entries: &[(u32, i64)], column: u32) -> bool
    ensures { result ≡ has_column entries.now column }
{
    entries.iter().any(|entry| entry.0 == column)
}

// The first place of `n` in a limit's order whose unknown a candidate touches, and `n` where there is
// none.
pub(crate) fn first_place_in(candidate: &Candidate, grid: &LimitGrid, n: u32) -> u32
    requires { n ≡ length grid.now.order }
    ensures { result ≡ position_or_len (touches candidate.now) grid.now.order }
{
    for place in 0..n {
        if touches(candidate, grid.unknown(place)) {
            return place;
        }
    }
    n
}
