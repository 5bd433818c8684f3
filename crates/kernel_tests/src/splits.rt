//! Strong branching: how much a bound rises on both sides of a split, and which split is the best.

use crate::covers::{Cover, EQUAL, FOUR, STEPS, TOLERANCE, TRIANGLE};
use crate::exact::Exact;
use dual_simplex::Tableau;
use geo_base::NoMemory;
use std::alloc::Global;
use std::test::Fail;
use strong_branch::{Branching, SplitSide};

// A candidate of a cover that is split on: how much the least price rises where it is taken and
// where it is left out, by the corners of the shares in exact fractions; none where no shares are
// left.
#[derive(Clone, Copy)]
struct Split {
    cover: &'static Cover,
    candidate: u32,
    inside: Option<Exact>,
    outside: Option<Exact>,
}

const SPLITS: [Split; 6] = [
    Split {
        cover: &TRIANGLE,
        candidate: 0,
        inside: Some(Exact(1, 2)),
        outside: Some(Exact(1, 2)),
    },
    Split {
        cover: &FOUR,
        candidate: 0,
        inside: Some(Exact(133, 148)),
        outside: Some(Exact(459, 148)),
    },
    Split {
        cover: &FOUR,
        candidate: 1,
        inside: Some(Exact(5021, 2812)),
        outside: Some(Exact(163, 148)),
    },
    Split {
        cover: &FOUR,
        candidate: 2,
        inside: Some(Exact(81, 5180)),
        outside: None,
    },
    Split {
        cover: &FOUR,
        candidate: 3,
        inside: Some(Exact(0, 1)),
        outside: Some(Exact(311, 148)),
    },
    Split {
        cover: &FOUR,
        candidate: 4,
        inside: Some(Exact(0, 1)),
        outside: Some(Exact(0, 1)),
    },
];

// The tableau of a cover after a run.
fn solved(alloc: Global, cover: &Cover) -> Result<Tableau, NoMemory> {
    let mut node = cover.tableau(alloc)?;
    let _outcome = node.run(STEPS)?;
    Ok(node)
}

// Whether a side has such a rise.
fn has_rise(side: SplitSide, rise: Option<Exact>) -> bool {
    match rise {
        Some(rise) => !side.is_infeasible && rise.is_near(side.rise, TOLERANCE),
        None => side.is_infeasible,
    }
}

#[test]
fn sides_rise_by_their_least_price(rt: HostRuntime) -> Result<(), Fail> {
    for split in SPLITS {
        let node = solved(rt.alloc(), split.cover)?;
        let mut branching = Branching::new(rt.alloc());
        branching.start(1);
        let probe = branching.probe(&node, split.candidate, None, STEPS)?;
        assert!(rt;
            has_rise(probe.inside, split.inside),
            "inside of {}",
            split.candidate
        );
        assert!(rt;
            has_rise(probe.outside, split.outside),
            "outside of {}",
            split.candidate
        );
    }
    Ok(())
}

// The best of some candidates that are tried one after another, if any.
fn best_of(
    branching: &mut Branching,
    node: &Tableau,
    candidates: &[u32],
) -> Result<Option<u32>, NoMemory> {
    branching.start(1 << 20);
    for candidate in candidates {
        let _probe = branching.probe(node, *candidate, None, STEPS)?;
    }
    Ok(branching.best().map(|probe| probe.candidate))
}

#[test]
fn the_best_split_lifts_both_sides(rt: HostRuntime) -> Result<(), Fail> {
    let mut branching = Branching::new(rt.alloc());
    let triangle = solved(rt.alloc(), &TRIANGLE)?;
    assert!(rt; best_of(&mut branching, &triangle, &[1, 0, 2])? == Some(1));
    // The rises are 0 and 8/3, 4/3 and 2/3, 10/3 and 0.
    let equal = solved(rt.alloc(), &EQUAL)?;
    assert!(rt; best_of(&mut branching, &equal, &[0, 1, 2])? == Some(1));
    let four = solved(rt.alloc(), &FOUR)?;
    assert!(rt; best_of(&mut branching, &four, &[])?.is_none());
    assert!(rt; best_of(&mut branching, &four, &[3, 1])? == Some(1));
    assert!(rt; best_of(&mut branching, &four, &[3, 1, 0, 2])? == Some(2));
    assert!(rt; best_of(&mut branching, &four, &[3, 1, 0])? == Some(0));
    assert!(rt; Exact(651, 74).is_near(branching.inside().objective(), TOLERANCE));
    assert!(rt; Exact(11, 1).is_near(branching.outside().objective(), TOLERANCE));
    Ok(())
}
