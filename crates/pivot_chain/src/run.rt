//! The two chains of a limit under a plan.
ghost use Rattle.std.specs.Prelude.{◌≡◌, ℕ, ◌<◌, length, IsFalse, IsNone, IfSome, MatchOption};
ghost use Rattle.whole_algebra.specs.Chains.{stops, matrix_after};
ghost use Rattle.whole_algebra.specs.Matrices.{upper_over};
ghost use Rattle.whole_algebra.specs.Grid.{row_at};
ghost use Rattle.lent_parts.specs.Triangle.{tri_row};
ghost use Rattle.chain_step.specs.declared.side.Side.TheVariants.{Lower, Upper};
ghost use Rattle.pivot_chain.specs.Chain.{chain_of, StopsAt};
ghost use Rattle.pivot_chain.specs.Judging.{lower_of, upper_of, IsMade};

use crate::chain::{Stop, step_row};
use crate::gaps::counted_slack;
use crate::grids::{Grids, write_rows, write_upper};
use chain_step::Side;
use lent_parts::Tri;

// Runs the lower chain, and answers where it stops. Up to the row of the step that stops, the rows of
// the upper matrix are written as well.
pub(crate) fn run_lower(
    grids: &Grids<'_>,
    lower: &mut Tri,
    upper: &mut Tri,
    rows: &mut Tri,
    gaps: &mut Tri,
) -> Option<Stop>
    requires made { IsMade grids.now }
    requires lower_room { length lower.old ≡ length grids.now.network.now.unknowns }
    requires upper_room { length upper.old ≡ length grids.now.network.now.unknowns }
    requires rows_room { length rows.old ≡ length grids.now.network.now.unknowns }
    requires gaps_room { length gaps.old ≡ length grids.now.network.now.unknowns }
    ensures stop { MatchOption result (IsFalse (stops (chain_of Lower (lower_of grids.now)))) (λ stop. StopsAt (chain_of Lower (lower_of grids.now)) stop) }
    ensures upper { IfSome result (λ stop. (k : ℕ) → k < stop.step → tri_row upper.new k ≡ row_at (upper_of grids.now) k) }
    ensures lower_size { length lower.new ≡ length lower.old }
    ensures upper_size { length upper.new ≡ length upper.old }
    ensures rows_size { length rows.new ≡ length rows.old }
    ensures gaps_size { length gaps.new ≡ length gaps.old }
{
    // The network's bounds, for the proof.
    let _bounds = grids.network.candidates();
    for k in 0..rows.size() {
        write_rows(grids, k, lower, upper);
        let slack = counted_slack(gaps, k);
        if let Some(value) = step_row(Side::Lower, lower, rows, gaps, slack, k) {
            return Some(Stop { step: k + 1, value });
        }
    }
    None
}

// Runs the upper chain, of which the first `written` rows of the matrix stand in `upper`, and answers
// where it stops. Where it doesn't, `rows` has the first rows of its matrices afterwards.
pub(crate) fn run_upper(
    grids: &Grids<'_>,
    written: u32,
    spare: &mut Tri,
    upper: &mut Tri,
    rows: &mut Tri,
    gaps: &mut Tri,
) -> Option<Stop>
    requires made { IsMade grids.now }
    requires spare_room { length spare.old ≡ length grids.now.network.now.unknowns }
    requires upper_room { length upper.old ≡ length grids.now.network.now.unknowns }
    requires rows_room { length rows.old ≡ length grids.now.network.now.unknowns }
    requires gaps_room { length gaps.old ≡ length grids.now.network.now.unknowns }
    requires written { (k : ℕ) → k < written → tri_row upper.old k ≡ row_at (upper_of grids.now) k }
    ensures stop { MatchOption result (IsFalse (stops (chain_of Upper (upper_of grids.now)))) (λ stop. StopsAt (chain_of Upper (upper_of grids.now)) stop) }
    ensures rows { IsNone result → (k : ℕ) → k < length rows.old → tri_row rows.new k ≡ row_at (matrix_after upper_over k (upper_of grids.now)) 0 }
    ensures spare_size { length spare.new ≡ length spare.old }
    ensures upper_size { length upper.new ≡ length upper.old }
    ensures rows_size { length rows.new ≡ length rows.old }
    ensures gaps_size { length gaps.new ≡ length gaps.old }
{
    // The network's bounds, for the proof.
    let _bounds = grids.network.candidates();
    for k in 0..rows.size() {
        write_upper(grids, k, written, spare, upper);
        let slack = counted_slack(gaps, k);
        if let Some(value) = step_row(Side::Upper, upper, rows, gaps, slack, k) {
            return Some(Stop { step: k + 1, value });
        }
    }
    None
}
