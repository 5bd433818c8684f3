use fixed_point::{ONE, quotient, root};

/// The greatest eigenvalue of a symmetric matrix of two rows and a direction that has it, whose
/// greater entry is 1 in size: numbers in fixed point.
#[derive(Clone, Copy)]
pub struct Greatest {
    pub value: i64,
    pub first: i64,
    pub second: i64,
}

/// That of the matrix with `a` and `c` on the diagonal and `b` beside it: half the sum of `a` and `c`
/// plus the root of half their difference squared and `b` squared.
pub fn greatest_eigenvalue(a: i64, b: i64, c: i64) -> Greatest {
    let half_difference = (a >> 1).wrapping_sub(c >> 1);
    let half_sum = (a >> 1).wrapping_add(c >> 1);
    let squares = square(half_difference).saturating_add(square(b));
    let root = root(squares).min(1 << 62) as i64;
    let (first, second) = if half_difference < 0 {
        (b, root.wrapping_sub(half_difference))
    } else {
        (root.wrapping_add(half_difference), b)
    };
    let most = first.saturating_abs().max(second.saturating_abs());
    let value = half_sum.wrapping_add(root);
    if most == 0 {
        return Greatest {
            value,
            first: ONE,
            second: 0,
        };
    }
    Greatest {
        value,
        first: quotient(first, most),
        second: quotient(second, most),
    }
}

/// The greatest eigenvalue of that matrix alone.
pub fn greatest_value(a: i64, b: i64, c: i64) -> i64 {
    let half_difference = (a >> 1).wrapping_sub(c >> 1);
    let half_sum = (a >> 1).wrapping_add(c >> 1);
    let squares = square(half_difference).saturating_add(square(b));
    half_sum.wrapping_add(root(squares).min(1 << 62) as i64)
}

/// Whether the greatest eigenvalue of that matrix is above a number: no root is taken.
pub fn has_value_above(a: i64, b: i64, c: i64, number: i64) -> bool {
    let first = number.saturating_sub(a);
    let second = number.saturating_sub(c);
    if first < 0 || second < 0 {
        return true;
    }
    let product = (first as i128).wrapping_mul(second as i128);
    product < (b as i128).wrapping_mul(b as i128)
}

fn square(number: i64) -> u128 {
    let size = number.unsigned_abs() as u128;
    size.saturating_mul(size)
}
