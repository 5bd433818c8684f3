//! What the cuts that are looked at first reach under plans and under shares.

use crate::exact::Exact;
use cut_columns::{Broken, CutColumns};
use geo_base::NoMemory;
use std::alloc::Global;
use std::test::Fail;

// Three cuts over four candidates, in as many places.
fn three_cuts(alloc: Global) -> Result<CutColumns, NoMemory> {
    let mut cuts = CutColumns::new(alloc, 3, 4)?;
    let _is_first_in = cuts.push(7, &[3, 1, 2, 4], 6)?;
    let _is_second_in = cuts.push(8, &[5, 2, 0, 3], 4)?;
    let _is_third_in = cuts.push(9, &[0, 6, 4, 1], 5)?;
    Ok(cuts)
}

// Plans, the first cut that each breaks, and the first one where the first cut was taken out.
const PLANS: [([bool; 4], Option<u32>, Option<u32>); 6] = [
    ([true, true, true, true], None, None),
    ([true, false, true, true], None, None),
    ([true, true, false, false], Some(7), None),
    ([true, false, false, true], Some(9), Some(9)),
    ([false, false, true, true], Some(8), Some(8)),
    ([false, false, false, false], Some(7), Some(9)),
];

#[test]
fn plans_break_the_first_cut_that_lacks_a_part(rt: HostRuntime) -> Result<(), Fail> {
    let mut cuts = three_cuts(rt.alloc())?;
    let mut others = three_cuts(rt.alloc())?;
    others.remove(0);
    for (plan, broken, other) in PLANS {
        assert!(rt; cuts.first_broken(plan.as_slice())? == broken, "{plan:?}");
        assert!(rt; others.first_broken(plan.as_slice())? == other, "{plan:?}");
    }
    Ok(())
}

#[test]
fn cuts_have_as_many_places_as_there_are(rt: HostRuntime) -> Result<(), Fail> {
    let mut cuts = three_cuts(rt.alloc())?;
    assert!(rt; !cuts.push(10, &[1, 1, 1, 1], 9)?);
    assert_eq!(rt; cuts.len(), 3);
    cuts.remove(3);
    assert_eq!(rt; cuts.len(), 3);
    cuts.remove(1);
    assert_eq!(rt; cuts.len(), 2);
    assert!(rt; cuts.push(10, &[1, 1, 1, 1], 9)?);
    let plan = [true; 4];
    assert!(rt; cuts.first_broken(plan.as_slice())? == Some(10));
    Ok(())
}

// Shares in eighths, the least part that counts in eighths, and the cuts that lack more of their
// bound, with the part.
const SHARES: [([i64; 4], i64, &[(u32, Exact)]); 5] = [
    ([4, 4, 4, 4], 0, &[(7, Exact(1, 6))]),
    (
        [2, 1, 4, 0],
        0,
        &[(7, Exact(11, 16)), (8, Exact(5, 8)), (9, Exact(9, 20))],
    ),
    ([2, 1, 4, 0], 4, &[(7, Exact(11, 16)), (8, Exact(5, 8))]),
    ([8, 0, 0, 4], 0, &[(9, Exact(9, 10)), (7, Exact(1, 6))]),
    ([8, 8, 8, 8], 0, &[]),
];

// Whether cuts are those, in their order, that lack such parts.
fn are_those(broken: &[Broken], wanted: &[(u32, Exact)]) -> bool {
    let is_that = |(cut, (number, part)): (&Broken, &(u32, Exact))| {
        cut.cut == *number && part.is_near(cut.lacking, 1 << 12)
    };
    broken.len() == wanted.len() && broken.iter().zip(wanted).all(is_that)
}

#[test]
fn shares_break_the_cuts_that_lack_most_first(rt: HostRuntime) -> Result<(), Fail> {
    let mut cuts = three_cuts(rt.alloc())?;
    let mut broken = Vec::new(rt.alloc());
    for (eighths, least, wanted) in SHARES {
        let shares = eighths.map(|share| Exact(share, 8).floor());
        cuts.most_broken(shares.as_slice(), Exact(least, 8).floor(), &mut broken)?;
        assert!(rt; are_those(broken.as_slice(), wanted), "{eighths:?} {least}");
    }
    Ok(())
}
