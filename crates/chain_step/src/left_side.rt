//! The slack left of a diagonal, by dividing: for who keeps no counts of the rows before it.
ghost use Rattle.std.specs.Prelude.{◌≡◌, ◌+◌, ◌<◌, ◌≤◌, pos, ◌≤ℤ◌, length};
ghost use Rattle.chain_step.specs.Step.{IsPivotRow, IsDividing, gap_at, sum_from, left_of};

use crate::divisor::PivotDivisor;

/// How many quotients of a row left of its diagonal, which stands in column `column`, aren't whole in
/// the step of the pivot of `pivot`.
pub fn left_gaps(pivot: &[i128], column: usize) -> i128
    requires pivot { IsPivotRow pivot.now }
    requires right { 1 ≤ column }
    requires inside { column < length pivot.now }
    ensures value { result ≡ left_of pivot.now column }
    ensures low { pos 0 ≤ℤ result }
    ensures high { result ≤ℤ pos 64 }
{
    if pivot[column] == 0 {
        return 0;
    }
    gaps_in_columns(pivot, column, 1, column - 1)
}

// How many of `count` quotients of row `column`, from column `first` on, aren't whole.
fn gaps_in_columns(pivot: &[i128], column: usize, first: usize, count: usize) -> i128
    requires pivot { IsDividing pivot.now }
    requires column { column < length pivot.now }
    requires room { first + count ≤ length pivot.now }
    ensures value { result ≡ sum_from (gap_at pivot.now column) first count }
    ensures low { pos 0 ≤ℤ result }
    ensures high { result ≤ℤ pos count }
{
    let divisor = PivotDivisor::new(pivot[0], pivot[column]);
    let mut sum = 0;
    for i in 0..count {
        let (_floor, gap) = divisor.quotient(pivot[first + i]);
        sum += gap;
    }
    sum
}
