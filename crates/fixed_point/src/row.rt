use crate::divisor::Divisor;
use crate::number::product;
use crate::sizes::Sizes;

/// Subtracts `factor` times `other` from `row`, place by place up to the end of the shorter one, and
/// answers how large the new entries are. Entries go in fours, which keeps the loop free of calls and
/// of vector instructions, which are slower here.
pub fn subtract_scaled(row: &mut [i64], factor: i64, other: &[i64]) -> Sizes {
    let width = row.len().min(other.len());
    let (fours, rest) = row[..width].as_chunks_mut::<4>();
    let (other_fours, other_rest) = other[..width].as_chunks::<4>();
    let mut sizes = Sizes::new();
    for (four, other_four) in fours.iter_mut().zip(other_fours) {
        sizes = subtract_part(four, factor, other_four, sizes);
    }
    subtract_part(rest, factor, other_rest, sizes)
}

// Subtracts `factor` times `other` from `part`, and joins the sizes of the new entries to `sizes`.
#[inline(always)]
fn subtract_part(part: &mut [i64], factor: i64, other: &[i64], sizes: Sizes) -> Sizes {
    let mut joined = sizes;
    for (entry, subtracted) in part.iter_mut().zip(other) {
        *entry = entry.wrapping_sub(product(factor, *subtracted));
        joined = joined.with(*entry);
    }
    joined
}

/// Divides each entry by `divisor`.
pub fn divide_row(row: &mut [i64], divisor: Divisor) {
    for entry in row.iter_mut() {
        *entry = divisor.quotient(*entry);
    }
}

/// Writes the entries of `other` with the other sign to `row`, up to the end of the shorter one, and
/// answers how large they are.
pub fn negate_row(row: &mut [i64], other: &[i64]) -> Sizes {
    let mut sizes = Sizes::new();
    for (entry, negated) in row.iter_mut().zip(other) {
        *entry = negated.wrapping_neg();
        sizes = sizes.with(*entry);
    }
    sizes
}

/// The sum of the products of two rows, place by place up to the end of the shorter one. Each place of
/// four has a sum of its own, so that no product waits for the one before.
pub fn dot(a: &[i64], b: &[i64]) -> i64 {
    let width = a.len().min(b.len());
    let (fours, rest) = a[..width].as_chunks::<4>();
    let (other_fours, other_rest) = b[..width].as_chunks::<4>();
    let mut sums = [0i64; 4];
    for (four, other_four) in fours.iter().zip(other_fours) {
        sums = sums_with(sums, *four, *other_four);
    }
    let [first, second, third, fourth] = sums;
    let all = first.wrapping_add(second).wrapping_add(third);
    all.wrapping_add(fourth)
        .wrapping_add(dot_part(rest, other_rest))
}

// Four sums with one product more each.
#[inline(always)]
fn sums_with(sums: [i64; 4], four: [i64; 4], other: [i64; 4]) -> [i64; 4] {
    let [first, second, third, fourth] = sums;
    let [a, b, c, d] = four;
    let [e, f, g, h] = other;
    [
        first.wrapping_add(product(a, e)),
        second.wrapping_add(product(b, f)),
        third.wrapping_add(product(c, g)),
        fourth.wrapping_add(product(d, h)),
    ]
}

// The sum of the products of two short rows.
#[inline(always)]
fn dot_part(a: &[i64], b: &[i64]) -> i64 {
    let mut sum = 0i64;
    for (x, y) in a.iter().zip(b) {
        sum = sum.wrapping_add(product(*x, *y));
    }
    sum
}
