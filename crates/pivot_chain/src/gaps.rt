//! The slack of a row, as the rows before it counted it.
ghost use Rattle.std.specs.Prelude.{◌≡◌, ℕ, ◌-◌, ◌<◌, ◌≤◌, length, unsigned_abs};
ghost use Rattle.whole_algebra.specs.Matrices.{at};
ghost use Rattle.lent_parts.specs.Triangle.{tri_row};
ghost use Rattle.chain_step.specs.Step.{sum_from, left_slack};
ghost use Rattle.pivot_chain.specs.Chain.{HasGaps};

use lent_parts::Tri;

// How many quotients of row `k` left of its diagonal aren't whole, over all steps before it: the sum of
// what the rows before it counted in its column.
pub(crate) fn counted_slack(gaps: &Tri, k: u32) -> i128
    requires within { k < length gaps.now }
    requires few { (j : ℕ) → j < k → unsigned_abs (at (tri_row gaps.now j) (k - j)) ≤ 64 }
    ensures { result ≡ sum_from (λ j. at (tri_row gaps.now j) (k - j)) 0 k }
{
    let mut slack = 0;
    for j in 0..k {
        slack += gaps.row(j)[(k - j) as usize];
    }
    slack
}

/// The same for who keeps rows and their counts apart: how many quotients of row `k` of `rows` left of
/// its diagonal aren't whole, where the rows before it counted theirs in `gaps`, as `step_row` does.
pub fn slack_of_row(rows: &Tri, gaps: &Tri, k: u32) -> i128
    requires within { k < length rows.now }
    requires places { length gaps.now ≡ length rows.now }
    requires counted { HasGaps rows.now gaps.now k }
    ensures { result ≡ left_slack rows.now (length rows.now - k) k }
{
    // The shape of the rows, for the proof.
    let _size = rows.size();
    counted_slack(gaps, k)
}
