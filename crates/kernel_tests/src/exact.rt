//! Exact fractions, which numbers in fixed point are compared with.

/// A fraction: what is divided, and by what, which is above 0.
#[derive(Clone, Copy)]
pub struct Exact(pub i64, pub i64);

impl Exact {
    /// How far a number in fixed point lies above the fraction, in units of 2^-32 over the divisor.
    fn excess(self, number: i64) -> i128 {
        let above = (number as i128).wrapping_mul(self.1 as i128);
        above.wrapping_sub((self.0 as i128).wrapping_shl(32))
    }

    /// Whether a number in fixed point lies within `most` units of 2^-32 of the fraction.
    pub fn is_near(self, number: i64, most: i64) -> bool {
        let excess = self.excess(number).unsigned_abs();
        excess <= (most as i128).wrapping_mul(self.1 as i128).unsigned_abs()
    }

    /// Whether a number in fixed point lies within 2^-16 of the fraction, times its size. What is
    /// found by a factor has that: there is 2^-22 more on the diagonal.
    pub fn is_close(self, number: i64) -> bool {
        let excess = self.excess(number).unsigned_abs();
        excess <= (self.0.unsigned_abs() as u128).wrapping_shl(16)
    }

    /// Whether a number in fixed point is the fraction rounded down.
    pub fn is_floor(self, number: i64) -> bool {
        let excess = self.excess(number);
        excess <= 0 && excess.wrapping_add(self.1 as i128) > 0
    }

    /// The fraction rounded down, in fixed point.
    pub fn floor(self) -> i64 {
        self.0.wrapping_shl(32).div_euclid(self.1.max(1))
    }
}
