//! The steps of a chain on one row, one after another.
ghost use Rattle.std.specs.Prelude.{◌≡◌, ℕ, ◌+◌, ◌-◌, ◌<◌, ◌≤◌, ◌^◌, ℤ, pos, ◌≤ℤ◌, List, length, unsigned_abs};
ghost use Rattle.whole_algebra.specs.Matrices.{at, IsTriangle};
ghost use Rattle.whole_algebra.specs.Chains.{matrix_after};
ghost use Rattle.whole_algebra.specs.Grid.{row_at};
ghost use Rattle.lent_parts.specs.Triangle.{tri_row};
ghost use Rattle.chain_step.specs.Step.{over_of, IsPivotRow, left_slack, gap_count};

use crate::Side;
use crate::step::{add_slack, take_part};
use lent_parts::Rows;

/// Takes on a row, from its diagonal on, the steps of the rows before it: the first rows of the
/// matrices that the steps of a chain leave, in their order. The row of place `k` after `t` steps is
/// row `k - t` of the matrix that the chain has after `t` steps.
///
/// `slack` says how many of the row's quotients left of the diagonal aren't whole, over all these
/// steps: the rows before it took them, and counted them. `gaps[m]` becomes the number of steps whose
/// quotient `m` places right of the diagonal isn't whole.
pub fn take_steps(side: Side, row: &mut [i128], gaps: &mut [i128], before: &Rows<'_>, slack: i128)
    requires some { 0 < length row.old }
    requires shorter { (t : ℕ) → t < length before.now → length row.old < length (tri_row before.now t) }
    requires pivots { (t : ℕ) → t < length before.now → IsPivotRow (tri_row before.now t) }
    requires same { length gaps.old ≡ length row.old }
    requires size { (m : ℕ) → unsigned_abs (at row.old m) < 2 ^ 109 }
    requires head { at row.old 0 ≤ℤ pos (2 ^ 60 + 64) }
    requires slack { slack ≡ left_slack before.now (length row.old) (length before.now) }
    ensures exact { (n k : ℕ) (matrix : List (List ℤ)) → IsTriangle n matrix → k + length row.old ≡ n → length before.now ≤ k
        → ((t : ℕ) → t < length before.now → row_at (matrix_after (over_of side) t matrix) 0 ≡ tri_row before.now t)
        → row_at matrix k ≡ row.old
        → row.new ≡ row_at (matrix_after (over_of side) (length before.now) matrix) (k - length before.now) }
    ensures head { at row.new 0 ≤ℤ pos (2 ^ 61) }
    ensures gaps { (m : ℕ) → 1 ≤ m → m < length row.old → at gaps.new m ≡ gap_count before.now (length row.old) m (length before.now) }
{
    gaps.fill(0);
    for t in 0..before.size() {
        take_part(side, row, gaps, before.row(t));
    }
    row[0] = add_slack(side, row[0], 0, slack);
}
