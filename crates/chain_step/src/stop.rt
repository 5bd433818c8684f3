ghost use Rattle.std.specs.Prelude.{◌≡◌, ◌<◌, ◌^◌, pos, ◌≤ℤ◌, length, IsFalse, MatchOption};
ghost use Rattle.whole_algebra.specs.Matrices.{at};
ghost use Rattle.whole_algebra.specs.Chains.{step_of, stop, is_stop};

use crate::PIVOT_SIZE;
use crate::first_row::{are_small, is_zero_row};

/// The value with which a chain stops at the first row of its matrix: None where it goes on, which is
/// so beside a head above 0 where the row's squares are at most `2^61` times the head, and in a row of
/// zeros. The value is `- 2^61` where a square is too large, and else the head, which is at most 0.
pub fn stop_of(row: &[i128]) -> Option<i128>
    requires some { 0 < length row.now }
    requires head { at row.now 0 ≤ℤ pos (2 ^ 61) }
    ensures { MatchOption result (IsFalse (is_stop (step_of row.now))) (λ value. step_of row.now ≡ stop value) }
{
    let head = row[0];
    if head > 0 {
        if are_small(head, &row[1..]) {
            None
        } else {
            Some(0 - PIVOT_SIZE)
        }
    } else if is_zero_row(row) {
        None
    } else {
        Some(head)
    }
}
