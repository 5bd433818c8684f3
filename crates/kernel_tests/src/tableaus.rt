//! Tableaus that are started, changed, copied and run again.

use crate::covers::{Cover, FOUR, STEPS, TOLERANCE, TRIANGLE};
use crate::exact::Exact;
use dual_simplex::{RunEnd, Tableau};
use fixed_point::ONE;
use geo_base::NoMemory;
use std::alloc::Global;
use std::test::Fail;
use strong_branch::Branching;

// Whether a run ends with this least price, or with none as infeasible.
fn ends_at(tableau: &mut Tableau, price: Option<Exact>) -> Result<bool, NoMemory> {
    Ok(match (tableau.run(STEPS)?, price) {
        (RunEnd::Solved, Some(least)) => least.is_near(tableau.objective(), TOLERANCE),
        (RunEnd::Infeasible, None) => true,
        _ => false,
    })
}

// A candidate of a cover that is fixed at 1 or at 0, and the least price then.
type Fixed = (&'static Cover, u32, bool, Option<Exact>);

const FIXED: [Fixed; 9] = [
    (&TRIANGLE, 0, true, Some(Exact(2, 1))),
    (&TRIANGLE, 2, false, Some(Exact(2, 1))),
    (&FOUR, 0, true, Some(Exact(651, 74))),
    (&FOUR, 0, false, Some(Exact(11, 1))),
    (&FOUR, 1, true, Some(Exact(184, 19))),
    (&FOUR, 1, false, Some(Exact(9, 1))),
    (&FOUR, 2, true, Some(Exact(277, 35))),
    (&FOUR, 2, false, None),
    (&FOUR, 3, false, Some(Exact(10, 1))),
];

#[test]
fn a_fixed_candidate_is_in_the_price(rt: HostRuntime) -> Result<(), Fail> {
    let mut shares = [0i64; 4];
    for (cover, candidate, is_in, price) in FIXED {
        let mut before = cover.tableau(rt.alloc())?;
        before.fix(candidate, is_in);
        assert!(rt; ends_at(&mut before, price)?, "{candidate} {is_in}");
        let mut after = cover.tableau(rt.alloc())?;
        let _outcome = after.run(STEPS)?;
        after.fix(candidate, is_in);
        assert!(rt; ends_at(&mut after, price)?, "{candidate} {is_in}");
        if price.is_some() {
            after.values(shares.as_mut_slice());
            let share = shares.get(candidate as usize).copied();
            assert!(rt;
                share == Some(if is_in { ONE } else { 0 }),
                "{candidate} {is_in}"
            );
        }
    }
    Ok(())
}

// A tableau of candidates of these prices, in fixed point, and one cut of coefficients 1 over 2.
fn halves(alloc: Global, prices: &[i64]) -> Result<Tableau, NoMemory> {
    let mut tableau = Tableau::new(alloc);
    tableau.start(prices)?;
    tableau.add_cut(5, [ONE / 2; 2].as_slice())?;
    Ok(tableau)
}

#[test]
fn runs_end_by_their_steps_and_by_their_sizes(rt: HostRuntime) -> Result<(), Fail> {
    let mut tableau = halves(rt.alloc(), [ONE; 2].as_slice())?;
    assert!(rt; matches!(tableau.run(0)?, RunEnd::OutOfSteps));
    assert_eq!(rt; tableau.objective(), 0);
    assert!(rt; ends_at(&mut tableau, Some(Exact(2, 1)))?);
    assert_eq!(rt; tableau.pivots(), 1);
    let mut large = halves(rt.alloc(), [1 << 61; 2].as_slice())?;
    assert!(rt; matches!(large.run(STEPS)?, RunEnd::Lost));
    Ok(())
}

#[test]
fn cuts_are_added_and_dropped_between_runs(rt: HostRuntime) -> Result<(), Fail> {
    let mut tableau = halves(rt.alloc(), [ONE, 3 * ONE].as_slice())?;
    tableau.add_cut(6, [3 * ONE; 2].as_slice())?;
    assert!(rt; ends_at(&mut tableau, Some(Exact(4, 1)))?);
    let mut ray = Vec::new(rt.alloc());
    tableau.ray(&mut ray)?;
    assert_eq!(rt; ray.len(), 0);
    tableau.drop_slack_cuts(ONE);
    let mut numbers = Vec::new(rt.alloc());
    tableau.cuts(&mut numbers)?;
    assert_eq!(rt; numbers.as_slice(), [5].as_slice());
    let mut other = Tableau::new(rt.alloc());
    other.copy_from(&tableau)?;
    other.add_cut(7, [ONE / 4; 2].as_slice())?;
    assert!(rt; ends_at(&mut other, None)?);
    assert!(rt; ends_at(&mut tableau, Some(Exact(4, 1)))?);
    Ok(())
}

// A triangle of covers with candidates for 2 each, and a station for 3 of the first two, whose share is
// the fourth. The least price is 3 where no link asks for the station.
fn at_a_station(alloc: Global) -> Result<Tableau, NoMemory> {
    let mut tableau = Tableau::new(alloc);
    tableau.start([2 * ONE, 2 * ONE, 2 * ONE, 3 * ONE].as_slice())?;
    tableau.add_cut(0, [ONE, ONE, 0].as_slice())?;
    tableau.add_cut(1, [0, ONE, ONE].as_slice())?;
    tableau.add_cut(2, [ONE, 0, ONE].as_slice())?;
    Ok(tableau)
}

// Adds the links of the first two candidates with the station.
fn link_both(tableau: &mut Tableau) -> Result<(), NoMemory> {
    let less = ONE.wrapping_neg();
    tableau.add_link(0, [less, 0, 0, ONE].as_slice())?;
    tableau.add_link(1, [0, less, 0, ONE].as_slice())
}

// With the links all shares are a half, for 9/2. Where the first candidate is taken, the second covers
// what is left, for 7 with the station; without the station nothing covers the first side.
#[test]
fn links_pay_a_station(rt: HostRuntime) -> Result<(), Fail> {
    let mut tableau = at_a_station(rt.alloc())?;
    assert!(rt; ends_at(&mut tableau, Some(Exact(3, 1)))?);
    link_both(&mut tableau)?;
    assert!(rt; ends_at(&mut tableau, Some(Exact(9, 2)))?);
    let mut links = Vec::new(rt.alloc());
    tableau.links(&mut links)?;
    links.as_mut_slice().sort_unstable();
    assert_eq!(rt; links.as_slice(), [0, 1].as_slice());
    let mut inside = Tableau::new(rt.alloc());
    inside.copy_from(&tableau)?;
    inside.fix(0, true);
    assert!(rt; ends_at(&mut inside, Some(Exact(7, 1)))?);
    tableau.fix(3, false);
    assert!(rt; ends_at(&mut tableau, None)?);
    Ok(())
}

#[test]
fn the_side_that_takes_a_candidate_pays_its_station(rt: HostRuntime) -> Result<(), Fail> {
    let mut tableau = at_a_station(rt.alloc())?;
    let _outcome = tableau.run(STEPS)?;
    let mut branching = Branching::new(rt.alloc());
    let free = branching.probe(&tableau, 0, None, STEPS)?;
    assert!(rt; Exact(1, 1).is_near(free.inside.rise, TOLERANCE));
    let paid = branching.probe(&tableau, 0, Some(3), STEPS)?;
    assert!(rt; Exact(4, 1).is_near(paid.inside.rise, TOLERANCE));
    assert!(rt; Exact(1, 1).is_near(paid.outside.rise, TOLERANCE));
    Ok(())
}
