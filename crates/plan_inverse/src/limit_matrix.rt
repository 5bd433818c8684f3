use fixed_point::{Divisor, product};
use weak_direction::{greatest_value, has_value_above, lifted};

/// A limit of one or two squares, with the inverse of a normal matrix between them: a matrix of two
/// rows, whose greatest eigenvalue is the load over the energy in the direction that bears the limit
/// worst.
#[derive(Clone, Copy)]
pub struct LimitMatrix {
    first: i64,
    mixed: i64,
    second: i64,
    // By how many bits the squares were shifted.
    shift: u32,
}

impl LimitMatrix {
    /// That of squares without a load, shifted by so many bits.
    pub fn zero(shift: u32) -> LimitMatrix {
        LimitMatrix {
            first: 0,
            mixed: 0,
            second: 0,
            shift,
        }
    }

    /// By how many bits the squares were shifted.
    pub fn shift(self) -> u32 {
        self.shift
    }

    /// The load over the energy in the direction that bears the limit worst: above 1, it is broken.
    pub fn strength(self) -> i64 {
        if self.mixed == 0 {
            return lifted(self.first.max(self.second), self.shift);
        }
        let value = greatest_value(self.first, self.mixed, self.second);
        lifted(value, self.shift)
    }

    /// Whether that is more than a number.
    pub fn is_above(self, number: i64) -> bool {
        let lowered = number >> self.shift.saturating_mul(2).min(62);
        has_value_above(self.first, self.mixed, self.second, lowered)
    }

    // Adds numbers on the diagonal and beside it.
    pub(crate) fn plus(self, first: i64, mixed: i64, second: i64) -> LimitMatrix {
        LimitMatrix {
            first: self.first.wrapping_add(first),
            mixed: self.mixed.wrapping_add(mixed),
            second: self.second.wrapping_add(second),
            shift: self.shift,
        }
    }

    // Adds the products of two numbers, those of the squares at a vector, over a pivot.
    pub(crate) fn plus_products(self, first: i64, second: i64, pivot: Divisor) -> LimitMatrix {
        let part = pivot.quotient(first);
        let other = pivot.quotient(second);
        self.plus(
            product(part, first),
            product(part, second),
            product(other, second),
        )
    }
}
