//! Products of numbers of at most `PIVOT_SIZE` in size, and their quotients, rounded down.
ghost use Rattle.std.specs.Prelude.{◌≡◌, ◌≤◌, ◌^◌, pos, ◌*ℤ◌, ◌≤ℤ◌, ◌<ℤ◌, unsigned_abs};
ghost use Rattle.whole_algebra.specs.Rounding.{floor_over, gap_over};

use geo_base::floor_div;

/// The greatest size of a pivot, and of what it divides, `2^61`: products of two such numbers, and
/// sums of those over a row, stay in 128 bits.
pub const PIVOT_SIZE: i128 = 0x2000_0000_0000_0000;

/// The product of two numbers of at most `2^62` in size.
#[inline(always)]
pub fn product(p: i128, q: i128) -> i128
    requires p { unsigned_abs p ≤ 2 ^ 62 }
    requires q { unsigned_abs q ≤ 2 ^ 62 }
    ensures value { result ≡ p *ℤ q }
    ensures size { unsigned_abs result ≤ 2 ^ 124 }
{
    p * q
}

/// The product of two numbers of 64 bits, of which the second is at most `2^61` in size.
#[inline(always)]
pub fn long_product(p: i64, q: i64) -> i128
    requires { unsigned_abs q ≤ 2 ^ 61 }
    ensures value { result ≡ p *ℤ q }
    ensures size { unsigned_abs result ≤ 2 ^ 124 }
{
    p as i128 * q as i128
}

/// `number / a` rounded down, and 1 where it isn't whole, else 0.
#[cold]
#[inline(never)]
pub fn slow_quotient(number: i128, a: i128) -> (i128, i128)
    requires above { pos 0 <ℤ a }
    requires a { unsigned_abs a ≤ 2 ^ 61 }
    requires number { unsigned_abs number ≤ 2 ^ 124 }
    ensures floor { result.0 ≡ floor_over a number }
    ensures gap { result.1 ≡ gap_over a number }
    ensures size { unsigned_abs result.0 ≤ 2 ^ 124 }
    ensures low { pos 0 ≤ℤ result.1 }
    ensures high { result.1 ≤ℤ pos 1 }
{
    let floor = floor_div(number, a);
    (floor, gap_of(number, a, floor))
}

// 1 where `number / a`, with the floor that was found, isn't whole, else 0.
#[inline(always)]
fn gap_of(number: i128, a: i128, floor: i128) -> i128
    requires above { pos 0 <ℤ a }
    requires a { unsigned_abs a ≤ 2 ^ 61 }
    requires number { unsigned_abs number ≤ 2 ^ 124 }
    requires floor { floor ≡ floor_over a number }
    ensures value { result ≡ gap_over a number }
    ensures low { pos 0 ≤ℤ result }
    ensures high { result ≤ℤ pos 1 }
{
    if floor * a == number { 0 } else { 1 }
}
