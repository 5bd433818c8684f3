ghost use Rattle.std.specs.Prelude.{◌≡◌, ◌≢◌, ℕ, ◌+◌, ◌-◌, ◌<◌, ◌≤◌, ◌^◌, ℤ, pos, ◌≤ℤ◌, List, length, unsigned_abs, MatchOption};
ghost use Rattle.whole_algebra.specs.Matrices.{at, IsTriangle};
ghost use Rattle.whole_algebra.specs.Chains.{step_of, stop, matrix_after};
ghost use Rattle.whole_algebra.specs.Grid.{row_at};
ghost use Rattle.lent_parts.specs.Triangle.{IsTri, tri_row};
ghost use Rattle.chain_step.specs.Step.{over_of, IsPivotRow, left_slack, gap_count};

use chain_step::{Side, stop_of, take_steps};
use lent_parts::Tri;

/// Where a chain stops.
#[derive(Clone, Copy, Debug, PartialEq, Eq)]
pub struct Stop {
    /// The step, counted from 1.
    pub step: u32,
    /// The number that stops it, at most 0: the head of the step's row, or `- 2^61` where the head is
    /// above 0 and a number beside it is too large.
    pub value: i128,
}

/// Takes on row `k` of a matrix the steps of the rows before it, puts it in its place in `rows`, and
/// answers the value with which the chain stops there: None where it goes on. Where the rows before it
/// in `rows` are the first rows of the matrices that the steps of a chain leave, so is this one
/// afterwards. No other row changes; what `matrix` holds in row `k` is of no use afterwards.
///
/// `slack` says how many of the row's quotients left of the diagonal aren't whole, over all these
/// steps. In row `k` of `gaps` the steps are counted whose quotient right of the diagonal isn't, for
/// the slack of later rows.
pub fn step_row(
    side: Side,
    matrix: &mut Tri,
    rows: &mut Tri,
    gaps: &mut Tri,
    slack: i128,
    k: u32,
) -> Option<i128>
    requires within { k < length rows.old }
    requires same { length matrix.old ≡ length rows.old }
    requires few { length rows.old ≤ 64 }
    requires pivots { (j : ℕ) → j < k → IsPivotRow (tri_row rows.old j) }
    requires size { (m : ℕ) → unsigned_abs (at (tri_row matrix.old k) m) < 2 ^ 109 }
    requires head { at (tri_row matrix.old k) 0 ≤ℤ pos (2 ^ 60 + 64) }
    requires counted { length gaps.old ≡ length rows.old }
    requires slack { slack ≡ left_slack rows.old (length rows.old - k) k }
    ensures exact { (first : List (List ℤ)) → IsTriangle (length rows.old) first
        → ((j : ℕ) → j < k → tri_row rows.old j ≡ row_at (matrix_after (over_of side) j first) 0)
        → tri_row matrix.old k ≡ row_at first k → tri_row rows.new k ≡ row_at (matrix_after (over_of side) k first) 0 }
    ensures others { (j : ℕ) → j ≢ k → tri_row rows.new j ≡ tri_row rows.old j }
    ensures places { length rows.new ≡ length rows.old }
    ensures shape { IsTri (length rows.new) rows.new }
    ensures left { (j : ℕ) → j ≢ k → tri_row matrix.new j ≡ tri_row matrix.old j }
    ensures left_places { length matrix.new ≡ length matrix.old }
    ensures gaps { (m : ℕ) → 1 ≤ m → k + m < length rows.old → at (tri_row gaps.new k) m ≡ gap_count rows.old (length rows.old - k) m k }
    ensures gap_others { (j : ℕ) → j ≢ k → tri_row gaps.new j ≡ tri_row gaps.old j }
    ensures gap_places { length gaps.new ≡ length gaps.old }
    ensures answer { MatchOption result (IsPivotRow (tri_row rows.new k)) (λ value. step_of (tri_row rows.new k) ≡ stop value) }
{
    let (before, _place) = rows.rows_before(k);
    take_steps(side, matrix.row_mut(k), gaps.row_mut(k), &before, slack);
    copy_row(matrix.row(k), rows.row_mut(k));
    stop_of(rows.row(k))
}

// Writes one row over another of the same length.
fn copy_row(from: &[i128], to: &mut [i128])
    requires { length from.now ≡ length to.old }
    ensures { to.new ≡ from.now }
{
    to.copy_from_slice(from);
}
