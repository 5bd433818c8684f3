//! What is asked of the first row of a matrix before its step is taken.
ghost use Rattle.std.specs.Prelude.{◌≡◌, ◌↔◌, ◌^◌, pos, ◌*ℤ◌, ◌≤ℤ◌, All, IsTrue};
ghost use Rattle.whole_algebra.specs.Chains.{size_limit};

use crate::arithmetic::{PIVOT_SIZE, product};

/// Whether all numbers of a row are 0.
pub fn is_zero_row(row: &[i128]) -> bool
    ensures { IsTrue result ↔ All (λ z. z ≡ pos 0) row.now }
{
    row.iter().all(|z| *z == 0)
}

/// Whether no square of a row is above `2^61` times the head.
pub fn are_small(head: i128, row: &[i128]) -> bool
    requires low { pos 0 ≤ℤ head }
    requires high { head ≤ℤ pos (2 ^ 61) }
    ensures { IsTrue result ↔ All (λ c. (c *ℤ c) ≤ℤ (head *ℤ size_limit)) row.now }
{
    for c in row {
        if !is_small(head, *c) {
            return false;
        }
    }
    true
}

// Whether the square of a number is at most `2^61` times the head. The size of the number is
// tested before it is squared.
fn is_small(head: i128, c: i128) -> bool
    requires low { pos 0 ≤ℤ head }
    requires high { head ≤ℤ pos (2 ^ 61) }
    ensures { IsTrue result ↔ ((c *ℤ c) ≤ℤ (head *ℤ size_limit)) }
{
    if c.unsigned_abs() > PIVOT_SIZE as u128 {
        return false;
    }
    product(c, c) <= product(head, PIVOT_SIZE)
}
