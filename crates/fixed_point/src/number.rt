/// One.
pub const ONE: i64 = 1 << 32;

// The bits of the lower half of 128.
const LOWER_HALF: u128 = 0xffff_ffff_ffff_ffff;

// The bits of the lower half of 64.
const LOWER_QUARTER: u64 = 0xffff_ffff;

// What a quotient is at most in size.
const GREATEST: i128 = 1 << 62;

/// The product of two numbers, rounded down. What doesn't fit 64 bits is cut off.
#[inline(always)]
pub fn product(a: i64, b: i64) -> i64 {
    let wide = (a as i128).wrapping_mul(b as i128) >> 32;
    ((wide.cast_unsigned() & LOWER_HALF) as u64).cast_signed()
}

/// The quotient of two numbers, rounded toward zero, and at most 2^30 in size; 0 where the divisor
/// is 0. It is fast for a dividend below a half in size.
pub fn quotient(a: i64, b: i64) -> i64 {
    if b == 0 {
        return 0;
    }
    if a.unsigned_abs() < 1 << 31 {
        return (a << 32).wrapping_div(b).clamp(-(1 << 62), 1 << 62);
    }
    let wide = ((a as i128) << 32).wrapping_div(b as i128);
    nearest_within(wide)
}

/// The quotient of two numbers that aren't negative, rounded down, and at most 2^30; that much where
/// the divisor is 0. It is fast for a dividend below a half.
pub fn ratio(a: u64, b: u64) -> i64 {
    if b == 0 {
        return GREATEST as i64;
    }
    if a < 1 << 31 {
        ((a << 32) / b).min(1 << 62) as i64
    } else {
        (((a as u128) << 32) / b as u128).min(1 << 62) as i64
    }
}

/// The square root of the quotient of two whole numbers, at most 2^30; 0 where the divisor is 0. It
/// is rounded down, and above that by at most 2^-32 where the dividend is 2^64 or more.
pub fn root_of_ratio(dividend: u128, divisor: u128) -> i64 {
    if divisor == 0 {
        return 0;
    }
    let whole = dividend / divisor;
    if whole >= 1 << 60 {
        return GREATEST as i64;
    }
    let part = part_of(dividend % divisor, divisor);
    root(whole.wrapping_shl(64).wrapping_add(part)).min(1 << 62) as i64
}

/// The square root of a whole number, rounded down: by Newton's rule, on the number shifted so that its
/// highest bits are in use.
pub fn root(number: u128) -> u64 {
    if number == 0 {
        return 0;
    }
    let half_shift = (number.leading_zeros() / 2).min(63);
    let normal = number.wrapping_shl(half_shift).wrapping_shl(half_shift);
    let first = root_above((normal >> 64) as u64).min(LOWER_QUARTER);
    let above = first.wrapping_shl(32) | LOWER_QUARTER;
    let mean = (above as u128).wrapping_add(normal / (above as u128).max(1)) >> 1;
    let near = mean.min(LOWER_HALF) as u64;
    let square = (near as u128).wrapping_mul(near as u128);
    let floor = near.wrapping_sub((square > normal) as u64);
    floor.wrapping_shr(half_shift)
}

// The root of a number from 2^62 on, or a little more.
fn root_above(number: u64) -> u64 {
    let mut root = (number >> 33).wrapping_add(1 << 31);
    for _ in 0..4 {
        root = root.wrapping_add(number / root.max(1)) >> 1;
    }
    root
}

// A remainder over its divisor, with 64 fractional bits. Where the remainder has no room for them,
// the last bits of the divisor are left out: 64 bits of it or more stay.
fn part_of(remainder: u128, divisor: u128) -> u128 {
    let shift = remainder.leading_zeros().min(64);
    remainder.wrapping_shl(shift) / divisor.wrapping_shr(64 - shift).max(1)
}

// The number nearest to `wide` that a quotient may be.
pub(crate) fn nearest_within(wide: i128) -> i64 {
    wide.clamp(-GREATEST, GREATEST) as i64
}
