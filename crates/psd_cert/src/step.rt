ghost use Rattle.std.specs.Prelude.{◌≡◌, ℕ, ◌+◌, ◌-◌, ◌<◌, ◌≤◌, ◌^◌, ◌↔◌, ℤ, pos, ◌-ℤ◌, ◌*ℤ◌, ◌≤ℤ◌, ◌<ℤ◌, List, length, suc, unsigned_abs, IsTrue, MatchOption};
ghost use Rattle.whole_algebra.specs.Sums.{int_sum};
ghost use Rattle.whole_algebra.specs.Matrices.{at};
ghost use Rattle.whole_algebra.specs.Chains.{beside};
ghost use Rattle.whole_algebra.specs.Grid.{row_at, above};
ghost use Rattle.lent_parts.specs.Triangle.{tri_row};
ghost use Rattle.psd_cert.specs.Certificate.{StepFrom};
ghost use Rattle.psd_cert.specs.Sizes.{Fits};
ghost use Rattle.psd_cert.specs.LeftOver.{left_over, left_sizes, IsRowDominant, IsScale, IsStep};

use chain_step::{is_zero_row, product};
use lent_parts::Tri;

/// Whether the step from a matrix to a remainder holds. With the first row `a, b` of the current
/// matrix, `C` below it and the remainder `R`, in two cases: where `a > 0`, in each row `i` the
/// number `a (C_ii - R_ii) - b_i^2` is at least the sum of the `|a (C_ij - R_ij) - b_i b_j|`; where
/// `a` and `b` are 0, in each row `C_ii - R_ii` is at least the sum of the `|C_ij - R_ij|`.
pub fn step_holds(current: &Tri, remainder: &Tri) -> bool
    requires size { length current.now ≡ suc (length remainder.now) }
    requires fits { Fits current.now }
    requires remainder_fits { Fits remainder.now }
    ensures { IsTrue result ↔ StepFrom current.now remainder.now }
{
    let Some(scale) = scale_of(current.row(0)) else {
        return false;
    };
    for i in 0..remainder.size() {
        if !is_row_dominant(scale, current, remainder, i) {
            return false;
        }
    }
    true
}

// What the step from a first row multiplies by: None where no step from it holds.
fn scale_of(first: &[i128]) -> Option<i128>
    requires { 0 < length first.now }
    ensures { MatchOption result ((s : ℤ) → IsScale first.now s → ⊥) (λ s. IsScale first.now s) }
{
    let a = first[0];
    if a > 0 {
        Some(a)
    } else if is_zero_row(first) {
        Some(1)
    } else {
        None
    }
}

// Whether the diagonal entry of row `i` of what is left over is at least the sum of the sizes of the
// others in its row.
fn is_row_dominant(scale: i128, current: &Tri, remainder: &Tri, i: u32) -> bool
    requires step { IsStep current.now remainder.now }
    requires scale { IsScale (tri_row current.now 0) scale }
    requires within { i < length remainder.now }
    ensures { IsTrue result ↔ IsRowDominant (left_over scale current.now remainder.now) i }
{
    let room = left_over_at(scale, current, remainder, i, 0);
    if room < 0 {
        return false;
    }
    match room_after_column(scale, current, remainder, i, room) {
        Some(rest) => row_has_room(scale, current, remainder, i, rest),
        None => false,
    }
}

// What is left of `room` when the sizes of the entries above the diagonal in column `i` are taken
// off; None where that would be below 0.
fn room_after_column(
    scale: i128,
    current: &Tri,
    remainder: &Tri,
    i: u32,
    room: i128,
) -> Option<i128>
    requires step { IsStep current.now remainder.now }
    requires scale { IsScale (tri_row current.now 0) scale }
    requires within { i < length remainder.now }
    requires low { pos 0 ≤ℤ room }
    requires size { unsigned_abs room ≤ 2 ^ 125 }
    ensures { let sum = above (left_sizes scale current.now remainder.now) i i in
        MatchOption result (room <ℤ sum) (λ rest. (rest ≡ room -ℤ sum) × (pos 0 ≤ℤ rest) × (unsigned_abs rest ≤ 2 ^ 125)) }
{
    let mut rest = room;
    for j in 0..i {
        let size = left_over_at(scale, current, remainder, j, i - j).abs();
        if rest < size {
            return None;
        }
        rest -= size;
    }
    Some(rest)
}

// Whether `room` is at least the sum of the sizes of the entries right of the diagonal in row `i`.
fn row_has_room(scale: i128, current: &Tri, remainder: &Tri, i: u32, room: i128) -> bool
    requires step { IsStep current.now remainder.now }
    requires scale { IsScale (tri_row current.now 0) scale }
    requires within { i < length remainder.now }
    requires low { pos 0 ≤ℤ room }
    requires size { unsigned_abs room ≤ 2 ^ 125 }
    ensures { IsTrue result ↔ int_sum (beside (row_at (left_sizes scale current.now remainder.now) i)) ≤ℤ room }
{
    let mut rest = room;
    for k in 0..remainder.size() - i - 1 {
        let size = left_over_at(scale, current, remainder, i, k + 1).abs();
        if rest < size {
            return false;
        }
        rest -= size;
    }
    true
}

// The entry of what is left over in row `i`, `k` places right of the diagonal.
fn left_over_at(scale: i128, current: &Tri, remainder: &Tri, i: u32, k: u32) -> i128
    requires step { IsStep current.now remainder.now }
    requires scale { IsScale (tri_row current.now 0) scale }
    requires within { i + k < length remainder.now }
    ensures value { result ≡ at (row_at (left_over scale current.now remainder.now) i) k }
    ensures size { unsigned_abs result ≤ 2 ^ 125 }
{
    let first = current.row(0);
    let beside = first[i as usize + 1];
    let across = first[i as usize + k as usize + 1];
    let entry = current.row(i + 1)[k as usize];
    left_of_entry(scale, entry, remainder.row(i)[k as usize], beside, across)
}

// `s (c - r) - p q`, for numbers of at most `2^61` in size.
fn left_of_entry(s: i128, c: i128, r: i128, p: i128, q: i128) -> i128
    requires s { unsigned_abs s ≤ 2 ^ 61 }
    requires c { unsigned_abs c ≤ 2 ^ 61 }
    requires r { unsigned_abs r ≤ 2 ^ 61 }
    requires p { unsigned_abs p ≤ 2 ^ 61 }
    requires q { unsigned_abs q ≤ 2 ^ 61 }
    ensures value { result ≡ s *ℤ (c -ℤ r) -ℤ p *ℤ q }
    ensures size { unsigned_abs result ≤ 2 ^ 125 }
{
    product(s, c - r) - product(p, q)
}
