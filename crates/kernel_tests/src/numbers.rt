//! Numbers in fixed point: products, quotients, roots and rows.

use crate::exact::Exact;
use fixed_point::{
    Divisor, ONE, Sizes, divide_row, dot, negate_row, product, quotient, ratio, root,
    root_of_ratio, subtract_scaled,
};

// What quotients are at most: 2^30.
const GREATEST: i64 = 1 << 62;

// Two numbers over 4, and their product and their quotient.
const PAIRS: [(i64, i64, Exact, Exact); 6] = [
    (3, 4, Exact(3, 4), Exact(3, 4)),
    (-3, 2, Exact(-3, 8), Exact(-3, 2)),
    (5, -12, Exact(-15, 4), Exact(-5, 12)),
    (-7, -28, Exact(49, 4), Exact(1, 4)),
    (400000, 12, Exact(300000, 1), Exact(100000, 3)),
    (1, 400000, Exact(25000, 1), Exact(1, 400000)),
];

#[test]
fn products_and_quotients_are_those_of_fractions(rt: HostRuntime) {
    for (first, second, times, over) in PAIRS {
        let a = Exact(first, 4).floor();
        let b = Exact(second, 4).floor();
        assert!(rt; times.is_floor(product(a, b)), "{first} times {second}");
        assert!(rt; over.is_near(quotient(a, b), 1), "{first} over {second}");
        assert!(rt;
            over.is_near(Divisor::new(b).quotient(a), 1),
            "{first} over {second}"
        );
        if first > 0 && second > 0 {
            assert!(rt; over.is_floor(ratio(a.unsigned_abs(), b.unsigned_abs())));
        }
    }
}

#[test]
fn quotients_stop_at_the_greatest_number(rt: HostRuntime) {
    assert_eq!(rt; quotient(ONE, 1), GREATEST);
    assert_eq!(rt; quotient(ONE, 8), 1 << 61);
    assert_eq!(rt; quotient(GREATEST, 3), GREATEST);
    assert_eq!(rt; quotient(GREATEST, -3), GREATEST.wrapping_neg());
    assert_eq!(rt; quotient(ONE, 0), 0);
    assert_eq!(rt;
        Divisor::new(-3).quotient(GREATEST),
        GREATEST.wrapping_neg()
    );
    assert_eq!(rt; Divisor::new(0).quotient(ONE), 0);
    assert_eq!(rt; ratio(GREATEST.unsigned_abs(), 3), GREATEST);
    assert_eq!(rt; ratio(0, 0), GREATEST);
    assert_eq!(rt; root_of_ratio(1, 0), 0);
    assert_eq!(rt; root_of_ratio(u128::MAX, 1), GREATEST);
    assert_eq!(rt; root_of_ratio(1 << 60, 1), GREATEST);
}

// Two whole numbers, and the root of their quotient times 2^32, rounded down: by the whole roots of
// Python, whose numbers have no greatest one.
const ROOTS: [(u128, u128, i64); 10] = [
    (0, 5, 0),
    (9, 16, 3221225472),
    (2, 1, 6074000999),
    (1, 3, 2479700524),
    (100000000000000, 81000000000000, 4772185884),
    (1 << 90, 1 << 99, 189812531),
    (3 << 100, 1 << 100, 7439101573),
    (1 << 127, 3 << 70, 941356466589540094),
    (u128::MAX, u128::MAX - 1, 4294967296),
    (1 << 64, u128::MAX, 1),
];

#[test]
fn roots_are_those_of_whole_numbers(rt: HostRuntime) {
    for (dividend, divisor, root) in ROOTS {
        assert_eq!(rt;
            root_of_ratio(dividend, divisor),
            root,
            "{dividend} over {divisor}"
        );
    }
}

// Whole numbers and their roots, rounded down: squares, and what lies beside them.
const WHOLE_ROOTS: [(u128, u64); 14] = [
    (0, 0),
    (1, 1),
    (3, 1),
    (4, 2),
    (24, 4),
    (25, 5),
    (999999, 999),
    (1000000, 1000),
    ((1 << 62) - 1, (1 << 31) - 1),
    (1 << 62, 1 << 31),
    (2 << 64, 6074000999),
    ((1 << 126) - 1, (1 << 63) - 1),
    (1 << 126, 1 << 63),
    (u128::MAX, u64::MAX),
];

#[test]
fn whole_roots_are_rounded_down(rt: HostRuntime) {
    for (number, wanted) in WHOLE_ROOTS {
        assert_eq!(rt; root(number), wanted, "{number}");
    }
}

// Rows of eight and of six numbers: the shorter one has a rest beside its four.
const ROW: [i64; 8] = [
    ONE,
    2 * ONE,
    3 * ONE,
    4 * ONE,
    5 * ONE,
    6 * ONE,
    7 * ONE,
    8 * ONE,
];

const OTHER: [i64; 6] = [2 * ONE, 0, -2 * ONE, 4 * ONE, 6 * ONE, -8 * ONE];

#[test]
fn rows_are_combined_place_by_place(rt: HostRuntime) {
    let mut row = ROW;
    let sizes = subtract_scaled(row.as_mut_slice(), ONE / 2, OTHER.as_slice());
    assert!(rt; !sizes.is_passed());
    assert_eq!(rt; row, [0, 2, 4, 2, 2, 10, 7, 8].map(whole));
    assert_eq!(rt; dot(row.as_slice(), OTHER.as_slice()), -68 * ONE);
    divide_row(row.as_mut_slice(), Divisor::new(-ONE));
    assert_eq!(rt; row, [0, -2, -4, -2, -2, -10, -7, -8].map(whole));
    let _sizes = negate_row(row.as_mut_slice(), OTHER.as_slice());
    assert_eq!(rt; row, [-2, 0, 2, -4, -6, 8, -7, -8].map(whole));
    let mut shorter = OTHER;
    let _sizes = subtract_scaled(shorter.as_mut_slice(), ONE, ROW.as_slice());
    assert_eq!(rt; shorter, [1, -2, -5, 0, 1, -14].map(whole));
}

// A whole number in fixed point.
fn whole(number: i64) -> i64 {
    number.wrapping_shl(32)
}

#[test]
fn sizes_tell_of_numbers_above_their_limit(rt: HostRuntime) {
    for (number, is_passed) in [
        (0, false),
        ((1 << 60) - 1, false),
        (1 << 60, true),
        (-(1 << 60), false),
        (-(1 << 60) - 1, true),
        (i64::MAX, true),
    ] {
        let sizes = Sizes::new().with(ONE).join(Sizes::new().with(number));
        assert!(rt; sizes.is_passed() == is_passed, "{number}");
    }
}
