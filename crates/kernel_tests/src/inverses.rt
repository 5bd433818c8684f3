//! Inverses of normal matrices, and what becomes of them where rows are taken out or added.

use crate::exact::Exact;
use crate::networks::{CHAIN, PAIR, SmallNetwork, SmallRow, forms};
use fixed_point::ONE;
use geo_base::NoMemory;
use plan_inverse::{Inverse, InverseChange};
use std::alloc::Global;
use std::test::Fail;
use weak_direction::{Form, Weakest, common_shift};

// A network, the square for each unknown whose form has the coefficient 1, and a share of some rows
// that is taken out; then the inverse of the scaled normal matrix times `divisor`, row after row,
// and the least pivot, at most 1.
#[derive(Clone, Copy)]
struct InverseCase {
    network: &'static SmallNetwork,
    units: &'static [SmallRow],
    share: i64,
    rows: &'static [SmallRow],
    inverse: &'static [i64],
    divisor: i64,
    pivot: Exact,
}

const PAIR_UNITS: &[SmallRow] = &[SmallRow(5, &[(0, 1)]), SmallRow(5, &[(1, 1)])];

const CHAIN_UNITS: &[SmallRow] = &[
    SmallRow(2, &[(0, 1)]),
    SmallRow(2, &[(1, 1)]),
    SmallRow(2, &[(2, 1)]),
];

const CASES: [InverseCase; 7] = [
    InverseCase {
        network: &PAIR,
        units: PAIR_UNITS,
        share: ONE,
        rows: &[],
        inverse: &[25, -20, -20, 25],
        divisor: 9,
        pivot: Exact(1, 1),
    },
    InverseCase {
        network: &PAIR,
        units: PAIR_UNITS,
        share: -ONE,
        rows: &[SmallRow(11, &[(0, 1), (1, 1)])],
        inverse: &[80, -75, -75, 80],
        divisor: 31,
        pivot: Exact(1, 1),
    },
    InverseCase {
        network: &CHAIN,
        units: CHAIN_UNITS,
        share: ONE,
        rows: &[],
        inverse: &[3, 2, 1, 2, 4, 2, 1, 2, 3],
        divisor: 2,
        pivot: Exact(1, 1),
    },
    InverseCase {
        network: &CHAIN,
        units: CHAIN_UNITS,
        share: ONE,
        rows: &[SmallRow(1, &[(0, 1)])],
        inverse: &[6, 4, 2, 4, 4, 2, 2, 2, 2],
        divisor: 1,
        pivot: Exact(1, 4),
    },
    InverseCase {
        network: &CHAIN,
        units: CHAIN_UNITS,
        share: -ONE,
        rows: &[SmallRow(1, &[(0, 1)])],
        inverse: &[6, 4, 2, 4, 12, 6, 2, 6, 10],
        divisor: 7,
        pivot: Exact(1, 1),
    },
    InverseCase {
        network: &CHAIN,
        units: CHAIN_UNITS,
        share: ONE / 2,
        rows: &[SmallRow(1, &[(0, 1), (1, -1)])],
        inverse: &[8, 4, 2, 4, 12, 6, 2, 6, 8],
        divisor: 5,
        pivot: Exact(1, 1),
    },
    InverseCase {
        network: &CHAIN,
        units: CHAIN_UNITS,
        share: ONE / 2,
        rows: &[SmallRow(1, &[(0, 1)]), SmallRow(1, &[(2, 1)])],
        inverse: &[8, 6, 4, 6, 9, 6, 4, 6, 8],
        divisor: 3,
        pivot: Exact(1, 1),
    },
];

// Whether the products of an inverse after a change with the units are the rows of an exact one.
fn has_rows(
    alloc: Global,
    case: &InverseCase,
    inverse: &Inverse,
    units: &[Form],
    change: &InverseChange,
) -> Result<bool, NoMemory> {
    let mut row = Vec::new(alloc);
    let mut are_right = true;
    let size = units.len().max(1);
    for (unit, wanted) in units.iter().zip(case.inverse.chunks_exact(size)) {
        inverse.solution(unit, 0, change, &mut row)?;
        let is_close = |(number, entry): (&i64, &i64)| Exact(*entry, case.divisor).is_close(
            *number,
        );
        are_right = are_right && row.len() == size && row.iter().zip(wanted).all(is_close);
    }
    Ok(are_right)
}

// The inverse of the whole normal matrix of a network.
fn inverse_of(alloc: Global, network: &SmallNetwork) -> Result<Inverse, NoMemory> {
    let scaling = network.scaling(alloc)?;
    let mut inverse = Inverse::new(alloc);
    inverse.find(&network.factor(alloc, &scaling, ONE)?)?;
    Ok(inverse)
}

// The change of an inverse where a share of rows is taken out.
fn change_of(
    alloc: Global,
    network: &SmallNetwork,
    inverse: &Inverse,
    share: i64,
    rows: &[SmallRow],
) -> Result<InverseChange, NoMemory> {
    let taken = forms(alloc, &network.scaling(alloc)?, 1, rows)?;
    let mut change = InverseChange::new(alloc);
    let mut scratch = Vec::new(alloc);
    inverse.change(taken.as_slice(), share, &mut change, &mut scratch)?;
    Ok(change)
}

// Whether the inverse is right when the change is looked at, and when it was made.
fn is_right(alloc: Global, case: &InverseCase) -> Result<bool, NoMemory> {
    let found = inverse_of(alloc, case.network)?;
    let change = change_of(alloc, case.network, &found, case.share, case.rows)?;
    let units = forms(alloc, &case.network.scaling(alloc)?, 1, case.units)?;
    let mut changed = Inverse::new(alloc);
    changed.copy_from(&found)?;
    changed.apply(&change);
    let mut none = InverseChange::new(alloc);
    none.clear(case.network.unknowns);
    Ok(
        case.pivot.is_close(change.least_pivot())
            && found.changes() == 0
            && changed.changes() == 1
            && has_rows(alloc, case, &found, units.as_slice(), &change)?
            && has_rows(alloc, case, &changed, units.as_slice(), &none)?,
    )
}

#[test]
fn inverses_are_those_of_fractions(rt: HostRuntime) -> Result<(), Fail> {
    let mut at = 0u32;
    for case in CASES {
        assert!(rt; is_right(rt.alloc(), &case)?, "case {at}");
        at = at.saturating_add(1);
    }
    Ok(())
}

// Limits, and where the first row of the chain is taken out: their greatest load over the energy,
// and the direction that has it. The inverse of the normal matrix is 3 2 1, 2 2 1, 1 1 1 then. Over
// 16, the forms of the last limit have 6 2, 2 3 with the inverse between them: its greatest
// eigenvalue is 7, and 2 1 has it, which joins the forms to 1 2 2.
const LIMITS: [(&[SmallRow], Exact, &[i32]); 3] = [
    (&[SmallRow(1, &[(1, 1)])], Exact(2, 1), &[2, 2, 1]),
    (
        &[SmallRow(1, &[(0, 1), (1, -1)]), SmallRow(3, &[(2, 1)])],
        Exact(3, 1),
        &[1, 1, 1],
    ),
    (
        &[
            SmallRow(16, &[(0, 1), (2, 1)]),
            SmallRow(16, &[(0, -1), (1, 2)]),
        ],
        Exact(112, 1),
        &[9, 8, 5],
    ),
];

// The load over the energy of a limit after a change, by its direction, which is written with a
// greatest entry of this size.
fn direction_of(
    alloc: Global,
    inverse: &Inverse,
    change: &InverseChange,
    limit: &[Form],
    entries: &mut Vec<i32>,
    greatest: i32,
) -> Result<i64, NoMemory> {
    let shift = common_shift(limit);
    let mut first = Vec::new(alloc);
    let mut second = Vec::new(alloc);
    if let Some(square) = limit.first() {
        inverse.solution(square, shift, change, &mut first)?;
    }
    if let Some(square) = limit.get(1) {
        inverse.solution(square, shift, change, &mut second)?;
    }
    let mut weakest = Weakest::new(alloc);
    let strength = weakest.find_from(limit, shift, first.as_slice(), second.as_slice())?;
    let units = CHAIN.scaling(alloc)?.units(alloc)?;
    weakest.round(units.as_slice(), greatest as i64, entries)?;
    Ok(strength)
}

#[test]
fn limits_without_a_row(rt: HostRuntime) -> Result<(), Fail> {
    let alloc = rt.alloc();
    let inverse = inverse_of(alloc, &CHAIN)?;
    let first = &[SmallRow(1, &[(0, 1)])];
    let change = change_of(alloc, &CHAIN, &inverse, ONE, first)?;
    let scaling = CHAIN.scaling(alloc)?;
    let mut entries = Vec::new(alloc);
    for (squares, strength, wanted) in LIMITS {
        let limit = forms(alloc, &scaling, 1, squares)?;
        assert!(rt; strength.is_close(inverse.strength(limit.as_slice(), &change)));
        let greatest = wanted.first().copied().unwrap_or(0);
        let limit = limit.as_slice();
        let found = direction_of(alloc, &inverse, &change, limit, &mut entries, greatest)?;
        assert!(rt; strength.is_close(found));
        assert_eq!(rt; entries.as_slice(), wanted);
    }
    Ok(())
}

#[test]
fn rows_that_are_the_last_in_a_direction_have_a_pivot_near_0(rt: HostRuntime) -> Result<(), Fail> {
    let inverse = inverse_of(rt.alloc(), &CHAIN)?;
    let both = &[SmallRow(1, &[(0, 1)]), SmallRow(1, &[(2, 1)])];
    let change = change_of(rt.alloc(), &CHAIN, &inverse, ONE, both)?;
    assert!(rt; change.least_pivot() < 1 << 16);
    Ok(())
}
