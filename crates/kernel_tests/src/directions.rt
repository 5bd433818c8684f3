//! Weak directions of limits, and the eigenvalues they rest on.

use crate::exact::Exact;
use crate::networks::{CHAIN, PAIR, POINT, SmallNetwork, SmallRow, forms};
use fixed_point::ONE;
use geo_base::NoMemory;
use std::alloc::Global;
use std::test::Fail;
use weak_direction::{Weakest, greatest_eigenvalue};

// The squares of single unknowns.
const FIRST: &[SmallRow] = &[SmallRow(1, &[(0, 1)])];

const MIDDLE: &[SmallRow] = &[SmallRow(1, &[(1, 1)])];

const BOTH: &[SmallRow] = &[SmallRow(1, &[(0, 1)]), SmallRow(1, &[(1, 1)])];

const ENDS: &[SmallRow] = &[SmallRow(1, &[(0, 1)]), SmallRow(1, &[(2, 1)])];

// The square of a difference.
const APART: &[SmallRow] = &[SmallRow(1, &[(0, 1), (2, -1)])];

const LARGE: &[SmallRow] = &[
    SmallRow(1000000000000, &[(0, 1)]),
    SmallRow(1000000000000, &[(1, 1)]),
];

const HUGE: &[SmallRow] = &[
    SmallRow(10000000000000000, &[(0, 1)]),
    SmallRow(10000000000000000, &[(1, 1)]),
];

// A limit of some squares over a factor, with half of each row or the whole row. By the inverses at
// the networks: the greatest load over the energy, and the direction that has it, with a greatest
// entry of 32768.
#[derive(Clone, Copy)]
struct DirectionCase {
    network: &'static SmallNetwork,
    share: i64,
    factor: i64,
    squares: &'static [SmallRow],
    strength: Exact,
    direction: &'static [i32],
}

const CASES: [DirectionCase; 9] = [
    DirectionCase {
        network: &PAIR,
        share: ONE,
        factor: 1,
        squares: FIRST,
        strength: Exact(5, 9),
        direction: &[32768, -26214],
    },
    DirectionCase {
        network: &PAIR,
        share: ONE / 2,
        factor: 1,
        squares: FIRST,
        strength: Exact(10, 9),
        direction: &[32768, -26214],
    },
    DirectionCase {
        network: &PAIR,
        share: ONE,
        factor: 3,
        squares: BOTH,
        strength: Exact(1, 3),
        direction: &[32768, -32768],
    },
    DirectionCase {
        network: &CHAIN,
        share: ONE,
        factor: 1,
        squares: MIDDLE,
        strength: Exact(1, 1),
        direction: &[16384, 32768, 16384],
    },
    DirectionCase {
        network: &CHAIN,
        share: ONE,
        factor: 1,
        squares: ENDS,
        strength: Exact(1, 1),
        direction: &[32768, 32768, 32768],
    },
    DirectionCase {
        network: &CHAIN,
        share: ONE / 2,
        factor: 5,
        squares: APART,
        strength: Exact(2, 5),
        direction: &[32768, 0, -32768],
    },
    DirectionCase {
        network: &POINT,
        share: ONE,
        factor: 3,
        squares: LARGE,
        strength: Exact(4, 3),
        direction: &[32768, -24576],
    },
    DirectionCase {
        network: &POINT,
        share: ONE,
        factor: 3,
        squares: HUGE,
        strength: Exact(40000, 3),
        direction: &[32768, -24576],
    },
    DirectionCase {
        network: &PAIR,
        share: ONE,
        factor: 1,
        squares: &[],
        strength: Exact(0, 1),
        direction: &[0, 0],
    },
];

// Whether entries are those of a direction or of the opposite one, each within 1.
fn is_along(entries: &[i32], direction: &[i32]) -> bool {
    let are_close = |(entry, wanted): (&i32, &i32)| entry.abs_diff(*wanted) <= 1;
    let are_opposite = |(entry, wanted): (&i32, &i32)| entry.abs_diff(wanted.wrapping_neg()) <= 1;
    entries.len() == direction.len()
        && (entries.iter().zip(direction).all(are_close)
            || entries.iter().zip(direction).all(are_opposite))
}

// Whether a limit has its strength and its direction.
fn is_right(alloc: Global, case: &DirectionCase) -> Result<bool, NoMemory> {
    let scaling = case.network.scaling(alloc)?;
    let factor = case.network.factor(alloc, &scaling, case.share)?;
    let squares = forms(alloc, &scaling, case.factor, case.squares)?;
    let mut weakest = Weakest::new(alloc);
    let strength = weakest.find(&factor, squares.as_slice())?;
    let mut entries = Vec::new(alloc);
    let units = scaling.units(alloc)?;
    weakest.round(units.as_slice(), 32768, &mut entries)?;
    Ok(case.strength.is_close(strength) && is_along(entries.as_slice(), case.direction))
}

#[test]
fn limits_are_weakest_in_known_directions(rt: HostRuntime) -> Result<(), Fail> {
    let mut at = 0u32;
    for case in CASES {
        assert!(rt; is_right(rt.alloc(), &case)?, "case {at}");
        at = at.saturating_add(1);
    }
    Ok(())
}

// Matrices of two rows by their entries, the greatest eigenvalue and its direction.
const MATRICES: [([i64; 3], i64, Exact, Exact); 7] = [
    ([2, 1, 2], 3, Exact(1, 1), Exact(1, 1)),
    ([5, 2, 2], 6, Exact(1, 1), Exact(1, 2)),
    ([2, 2, 5], 6, Exact(1, 2), Exact(1, 1)),
    ([1, -2, 1], 3, Exact(1, 1), Exact(-1, 1)),
    ([73, -36, 52], 100, Exact(1, 1), Exact(-3, 4)),
    ([4, 0, 4], 4, Exact(1, 1), Exact(0, 1)),
    ([0, 0, 0], 0, Exact(1, 1), Exact(0, 1)),
];

#[test]
fn eigenvalues_and_their_directions(rt: HostRuntime) {
    for ([a, b, c], value, first, second) in MATRICES {
        let top = greatest_eigenvalue(a << 32, b << 32, c << 32);
        assert!(rt; Exact(value, 1).is_near(top.value, 1), "{a} {b} {c}");
        assert!(rt;
            first.is_near(top.first, 1) && second.is_near(top.second, 1),
            "{a} {b} {c}"
        );
    }
}
