//! One step of a chain on one row. The pivot's row is all that it reads, so a row can take the steps
//! of the rows before it one after another. Each quotient is taken once: the row on whose right it
//! stands counts it for the row below, whose slack it belongs to as well.
ghost use Rattle.std.specs.Prelude.{◌≡◌, ℕ, ◌+◌, ◌-◌, ◌<◌, ◌≤◌, ◌^◌, ℤ, pos, neg_ℤ, ◌+ℤ◌, ◌≤ℤ◌, List, length, unsigned_abs};
ghost use Rattle.whole_algebra.specs.Matrices.{at, IsTriangle};
ghost use Rattle.whole_algebra.specs.Chains.{matrix_after};
ghost use Rattle.whole_algebra.specs.Grid.{row_at};
ghost use Rattle.chain_step.specs.Step.{over_of, IsPivotRow, IsDividing, taken, gap_at, sum_from, left_of, right_of, with_slack, with_left};

use crate::Side;
use crate::divisor::PivotDivisor;

/// Takes one step of a chain on a row, from its diagonal on: `pivot` is the first row of a matrix,
/// and `row` a later one. It becomes the same row of the smaller matrix that the step leaves.
/// `gaps[0]` says how many quotients left of the diagonal aren't whole; to `gaps[m]` 1 is added where
/// the one `m` places right of it isn't.
pub fn take_step(side: Side, row: &mut [i128], gaps: &mut [i128], pivot: &[i128])
    requires pivot { IsPivotRow pivot.now }
    requires some { 0 < length row.old }
    requires shorter { length row.old < length pivot.now }
    requires same { length gaps.old ≡ length row.old }
    requires size { (m : ℕ) → unsigned_abs (at row.old m) ≤ 2 ^ 120 }
    requires counts { (m : ℕ) → unsigned_abs (at gaps.old m) ≤ 2 ^ 40 }
    requires left { at gaps.old 0 ≡ left_of pivot.now (length pivot.now - length row.old) }
    ensures exact { (matrix : List (List ℤ))
        → IsTriangle (length pivot.now) matrix → row_at matrix 0 ≡ pivot.now
        → row_at matrix (length pivot.now - length row.old) ≡ row.old
        → row.new ≡ row_at (matrix_after (over_of side) 1 matrix) (length pivot.now - length row.old - 1) }
    ensures gaps { (m : ℕ) → 1 ≤ m → m < length row.old
        → at gaps.new m ≡ at gaps.old m +ℤ gap_at pivot.now (length pivot.now - length row.old) (length pivot.now - length row.old + m) }
{
    let slack = gaps[0];
    take_part(side, row, gaps, pivot);
    row[0] = add_slack(side, row[0], 0, slack);
}

/// Takes one step on a row but for the slack of the quotients left of the diagonal, which the head
/// then lacks, besides what it lacked before. To `gaps[m]` 1 is added where the quotient `m` places
/// right of the diagonal isn't whole. A step adds at most `2^62` in size to an entry, and at most 64
/// to the head.
pub(crate) fn take_part(side: Side, row: &mut [i128], gaps: &mut [i128], pivot: &[i128])
    requires pivot { IsPivotRow pivot.now }
    requires some { 0 < length row.old }
    requires shorter { length row.old < length pivot.now }
    requires same { length gaps.old ≡ length row.old }
    requires size { (m : ℕ) → unsigned_abs (at row.old m) ≤ 2 ^ 120 }
    requires counts { (m : ℕ) → unsigned_abs (at gaps.old m) ≤ 2 ^ 40 }
    ensures exact { (slack : ℤ) (matrix : List (List ℤ))
        → IsTriangle (length pivot.now) matrix → row_at matrix 0 ≡ pivot.now
        → row_at matrix (length pivot.now - length row.old) ≡ with_left side slack row.old
        → with_left side (slack +ℤ left_of pivot.now (length pivot.now - length row.old)) row.new
        ≡ row_at (matrix_after (over_of side) 1 matrix) (length pivot.now - length row.old - 1) }
    ensures gaps { (m : ℕ) → 1 ≤ m → m < length row.old
        → at gaps.new m ≡ at gaps.old m +ℤ gap_at pivot.now (length pivot.now - length row.old) (length pivot.now - length row.old + m) }
    ensures apart { at gaps.new 0 ≡ at gaps.old 0 }
    ensures counted { (m : ℕ) → unsigned_abs (at gaps.new m) ≤ unsigned_abs (at gaps.old m) + 1 }
    ensures size { (m : ℕ) → unsigned_abs (at row.new m) ≤ unsigned_abs (at row.old m) + 2 ^ 62 }
    ensures head { at row.new 0 ≤ℤ (at row.old 0 +ℤ pos 64) }
{
    let column = pivot.len() - row.len();
    if pivot[column] != 0 {
        divide(side, row, gaps, pivot, column);
    }
}

// Takes what the pivot of `pivot` adds to a row whose diagonal is in column `column`, but for the slack
// left of the diagonal.
fn divide(side: Side, row: &mut [i128], gaps: &mut [i128], pivot: &[i128], column: usize)
    requires pivot { IsDividing pivot.now }
    requires some { 0 < length row.old }
    requires column { 1 ≤ column }
    requires room { column + length row.old ≡ length pivot.now }
    requires same { length gaps.old ≡ length row.old }
    requires size { (m : ℕ) → unsigned_abs (at row.old m) ≤ 2 ^ 120 }
    requires counts { (m : ℕ) → unsigned_abs (at gaps.old m) ≤ 2 ^ 40 }
    ensures right { (m : ℕ) → 1 ≤ m → m < length row.old → at row.new m ≡ at row.old m +ℤ taken pivot.now column (column + m) }
    ensures diagonal { at row.new 0 ≡ with_slack side (at row.old 0 +ℤ taken pivot.now column column) (gap_at pivot.now column column) (right_of pivot.now column) }
    ensures gaps { (m : ℕ) → 1 ≤ m → m < length row.old → at gaps.new m ≡ at gaps.old m +ℤ gap_at pivot.now column (column + m) }
    ensures apart { at gaps.new 0 ≡ at gaps.old 0 }
{
    let divisor = PivotDivisor::new(pivot[0], pivot[column]);
    let right = divide_right(row, gaps, pivot, column, divisor);
    let (floor, gap) = divisor.quotient(pivot[column]);
    row[0] = add_slack(side, row[0] + floor, gap, right);
}

// Takes the quotients right of the diagonal, counts each that isn't whole, and answers how many those
// are.
fn divide_right(
    row: &mut [i128],
    gaps: &mut [i128],
    pivot: &[i128],
    column: usize,
    divisor: PivotDivisor,
) -> i128
    requires pivot { IsDividing pivot.now }
    requires divisor { divisor.pivot ≡ at pivot.now 0 }
    requires factor { divisor.factor ≡ neg_ℤ (at pivot.now column) }
    requires some { 0 < length row.old }
    requires room { column + length row.old ≡ length pivot.now }
    requires same { length gaps.old ≡ length row.old }
    requires size { (m : ℕ) → unsigned_abs (at row.old m) ≤ 2 ^ 120 }
    requires counts { (m : ℕ) → unsigned_abs (at gaps.old m) ≤ 2 ^ 40 }
    ensures value { result ≡ sum_from (gap_at pivot.now column) (column + 1) (length row.old - 1) }
    ensures low { pos 0 ≤ℤ result }
    ensures high { result ≤ℤ pos (length row.old) }
    ensures diagonal { at row.new 0 ≡ at row.old 0 }
    ensures right { (m : ℕ) → 1 ≤ m → m < length row.old → at row.new m ≡ at row.old m +ℤ taken pivot.now column (column + m) }
    ensures gaps { (m : ℕ) → 1 ≤ m → m < length row.old → at gaps.new m ≡ at gaps.old m +ℤ gap_at pivot.now column (column + m) }
    ensures apart { at gaps.new 0 ≡ at gaps.old 0 }
{
    let mut slack = 0;
    for m in 1..row.len() {
        let (floor, gap) = divisor.quotient(pivot[column + m]);
        row[m] += floor;
        gaps[m] += gap;
        slack += gap;
    }
    slack
}

/// A number of the diagonal with the gap of its own quotient and the slack of its row.
pub(crate) fn add_slack(side: Side, number: i128, gap: i128, slack: i128) -> i128
    requires number { unsigned_abs number ≤ 2 ^ 125 }
    requires gap { unsigned_abs gap ≤ 1 }
    requires slack { unsigned_abs slack ≤ 2 ^ 40 }
    ensures { result ≡ with_slack side number gap slack }
{
    match side {
        Side::Lower => number - slack,
        Side::Upper => number + (gap + slack),
    }
}
