use fixed_point::{ONE, product};

/// A coefficient of a linear form, and the number of its unknown.
#[derive(Clone, Copy)]
pub struct FormTerm {
    pub unknown: u32,
    pub coefficient: i64,
}

/// A linear form in scaled unknowns, in fixed point: a row of a candidate times the root of its
/// weight, or a square of a limit.
#[derive(Drop)]
pub struct Form {
    pub(crate) terms: Vec<FormTerm>,
}

impl Form {
    /// The coefficients, each with its unknown.
    pub fn terms(&self) -> &[FormTerm] {
        self.terms.as_slice()
    }

    /// The value of the form over 2^shift at these numbers, one for each unknown.
    pub fn at(&self, numbers: &[i64], shift: u32) -> i64 {
        let mut sum = 0i64;
        for term in self.terms.as_slice() {
            let number = numbers.get(term.unknown as usize).copied().unwrap_or(0);
            let coefficient = term.coefficient.wrapping_shr(shift);
            sum = sum.wrapping_add(product(coefficient, number));
        }
        sum
    }

    // Writes the coefficients, over 2^shift, to their places.
    pub(crate) fn spread(&self, places: &mut [i64], shift: u32) {
        for place in places.iter_mut() {
            *place = 0;
        }
        for term in self.terms.as_slice() {
            if let Some(place) = places.get_mut(term.unknown as usize) {
                *place = term.coefficient.wrapping_shr(shift);
            }
        }
    }

    // By how many bits the largest coefficient passes 1 in size.
    fn bits_above_one(&self) -> u32 {
        let mut joined = 0u64;
        for term in self.terms.as_slice() {
            joined |= term.coefficient.unsigned_abs();
        }
        ONE.unsigned_abs()
            .leading_zeros()
            .saturating_sub(joined.leading_zeros())
    }
}

/// By how many bits squares are shifted so that none has a coefficient of 2 or more in size.
pub fn common_shift(squares: &[Form]) -> u32 {
    let mut shift = 0u32;
    for square in squares {
        shift = shift.max(square.bits_above_one());
    }
    shift
}

/// What a load over an energy is for squares that were shifted before it was found.
pub fn lifted(strength: i64, shift: u32) -> i64 {
    strength.saturating_mul(1i64 << shift.saturating_mul(2).min(62))
}
