use crate::number::nearest_within;

/// A number that many are divided by: its inverse is computed once, and each quotient is a product
/// and a shift.
#[derive(Clone, Copy)]
pub struct Divisor {
    // 2^126 over the size of the number, whose highest bit was shifted to place 63; signed.
    inverse: i128,
    // How far a product is shifted.
    shift: u32,
}

impl Divisor {
    /// The divisor of this number. Each quotient by 0 is 0.
    pub fn new(number: i64) -> Divisor {
        if number == 0 {
            return Divisor {
                inverse: 0,
                shift: 0,
            };
        }
        let size = number.unsigned_abs();
        let lead = size.leading_zeros().min(63);
        let normal = size.wrapping_shl(lead).max(1);
        let inverse = ((1u128 << 126) / normal as u128).min(1 << 126) as i128;
        Divisor {
            inverse: if number < 0 {
                inverse.wrapping_neg()
            } else {
                inverse
            },
            shift: 94 - lead,
        }
    }

    /// The quotient of `dividend` by this number, rounded down, right to a part in 2^62, and at most
    /// 2^30 in size.
    pub fn quotient(self, dividend: i64) -> i64 {
        let wide = (dividend as i128).wrapping_mul(self.inverse);
        nearest_within(wide.wrapping_shr(self.shift))
    }
}
