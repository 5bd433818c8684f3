//! What a pivot takes off the entries of a row: quotients by one number, all with one factor. What
//! proposes them is made once for the row; the remainder of each decides.
ghost use Rattle.std.specs.Prelude.{◌≡◌, ◌≤◌, ◌^◌, cond, pos, neg_ℤ, ◌*ℤ◌, ◌≤ℤ◌, ◌<ℤ◌, unsigned_abs};
ghost use Rattle.whole_algebra.specs.Rounding.{is_zero, floor_over, gap_over};

use crate::arithmetic::{long_product, slow_quotient};

// The lower half of 128 bits.
const LOWER_HALF: u128 = 0xffff_ffff_ffff_ffff;

/// A pivot, and the number of its row that stands in the column of another row's diagonal.
#[derive(Clone, Copy)]
pub struct PivotDivisor {
    pivot: i64,
    // The number, with the other sign.
    factor: i64,
    // The factor over the pivot with `shift` fractional bits. Nothing is proved of it.
    ratio: i64,
    shift: u32,
    ghost above: { pos 0 <ℤ pivot },
    ghost size: { unsigned_abs pivot ≤ 2 ^ 61 },
}

impl PivotDivisor {
    /// The divisor of the pivot `a`, for the row whose diagonal stands below `p`.
    #[inline(always)]
    pub fn new(a: i128, p: i128) -> PivotDivisor
        requires above { pos 0 <ℤ a }
        requires a { unsigned_abs a ≤ 2 ^ 61 }
        requires p { unsigned_abs p ≤ 2 ^ 61 }
        ensures pivot { result.pivot ≡ a }
        ensures factor { result.factor ≡ neg_ℤ p }
    {
        let factor = 0 - p as i64;
        let pivot = a as i64;
        let shift = ratio_shift(pivot, factor);
        PivotDivisor {
            pivot,
            factor,
            ratio: ratio_of(pivot, factor, shift),
            shift,
        }
    }

    /// The factor times `q` over the pivot, rounded down, and 1 where it isn't whole, else 0.
    #[inline(always)]
    pub fn quotient(self, q: i128) -> (i128, i128)
        requires { unsigned_abs q ≤ 2 ^ 61 }
        ensures floor { result.0 ≡ floor_over self.pivot (self.factor *ℤ q) }
        ensures gap { result.1 ≡ gap_over self.pivot (self.factor *ℤ q) }
        ensures size { unsigned_abs result.0 ≤ 2 ^ 124 }
        ensures low { pos 0 ≤ℤ result.1 }
        ensures high { result.1 ≤ℤ pos 1 }
    {
        let entry = q as i64;
        judged(
            long_product(self.factor, entry),
            self.pivot,
            self.guess(entry),
        )
    }

    // Nearly the quotient. Whatever it is, the remainder that it leaves is looked at.
    #[inline(always)]
    fn guess(self, entry: i64) -> i64 {
        let wide = (self.ratio as i128).wrapping_mul(entry as i128);
        lower_half(wide.wrapping_shr(self.shift & 63))
    }
}

// `number / a` rounded down, and 1 where it isn't whole, else 0, by a guess: it is the quotient
// where what it leaves of the number is below `a` and not below 0.
#[inline(always)]
fn judged(number: i128, a: i64, guess: i64) -> (i128, i128)
    requires above { pos 0 <ℤ a }
    requires a { unsigned_abs a ≤ 2 ^ 61 }
    requires number { unsigned_abs number ≤ 2 ^ 124 }
    ensures floor { result.0 ≡ floor_over a number }
    ensures gap { result.1 ≡ gap_over a number }
    ensures size { unsigned_abs result.0 ≤ 2 ^ 124 }
    ensures low { pos 0 ≤ℤ result.1 }
    ensures high { result.1 ≤ℤ pos 1 }
{
    let rest = number - long_product(guess, a);
    if 0 <= rest && rest < a as i128 {
        (guess as i128, gap_of_rest(rest))
    } else {
        slow_quotient(number, a as i128)
    }
}

// 1 where something is left, else 0.
#[inline(always)]
fn gap_of_rest(rest: i128) -> i128
    ensures value { result ≡ cond (is_zero rest) (pos 0) (pos 1) }
    ensures low { pos 0 ≤ℤ result }
    ensures high { result ≤ℤ pos 1 }
{
    if rest == 0 { 0 } else { 1 }
}

// How many fractional bits the ratio is given: as many as its 64 bits hold, and at most 63.
#[inline(always)]
fn ratio_shift(pivot: i64, factor: i64) -> u32 {
    let room = factor.unsigned_abs().leading_zeros().wrapping_add(62);
    room.saturating_sub(pivot.unsigned_abs().leading_zeros())
        .min(63)
}

// The factor over the pivot, with that many fractional bits.
#[inline(always)]
fn ratio_of(pivot: i64, factor: i64, shift: u32) -> i64
    requires { pos 0 <ℤ pivot }
{
    let scaled = (factor as i128).wrapping_shl(shift);
    lower_half(scaled.wrapping_div(pivot as i128))
}

#[inline(always)]
fn lower_half(wide: i128) -> i64 {
    ((wide.cast_unsigned() & LOWER_HALF) as u64).cast_signed()
}
