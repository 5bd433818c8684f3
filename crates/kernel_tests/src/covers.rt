//! Covers: the least price of shares of candidates under cuts, by the dual simplex.

use crate::exact::Exact;
use dual_simplex::{CutMultiplier, RunEnd, Tableau};
use fixed_point::{ONE, product};
use geo_base::NoMemory;
use std::alloc::Global;
use std::test::Fail;

// How far a price may lie from the exact one: 2^-20.
pub const TOLERANCE: i64 = 1 << 12;

// More pivots than any cover here takes.
pub const STEPS: u32 = 50;

// A cut: its coefficients, and what their sum with the shares is at least.
pub struct CoverCut(&'static [i64], i64);

// Candidates by their prices, and cuts that their shares have to meet.
pub struct Cover {
    prices: &'static [i64],
    cuts: &'static [CoverCut],
}

// Each pair of three candidates has to hold one of them.
pub const TRIANGLE: Cover = Cover {
    prices: &[1, 1, 1],
    cuts: &[
        CoverCut(&[1, 1, 0], 1),
        CoverCut(&[0, 1, 1], 1),
        CoverCut(&[1, 0, 1], 1),
    ],
};

// Four cuts over four candidates.
pub const FOUR: Cover = Cover {
    prices: &[3, 5, 2, 4],
    cuts: &[
        CoverCut(&[9, 4, 7, 2], 11),
        CoverCut(&[1, 8, 3, 6], 10),
        CoverCut(&[5, 5, 2, 7], 12),
        CoverCut(&[6, 1, 9, 3], 13),
    ],
};

// One cut, to which each candidate gives as much.
pub const EQUAL: Cover = Cover {
    prices: &[5, 7, 9],
    cuts: &[CoverCut(&[3, 3, 3], 4)],
};

const HALF: Cover = Cover {
    prices: &[3, 2],
    cuts: &[CoverCut(&[1, 1], 1), CoverCut(&[2, 0], 1)],
};

// Only both candidates together meet the cuts.
const WHOLE: Cover = Cover {
    prices: &[5, 7],
    cuts: &[CoverCut(&[1, 1], 2), CoverCut(&[3, 1], 2)],
};

const THIRDS: Cover = Cover {
    prices: &[7, 3, 5, 4],
    cuts: &[
        CoverCut(&[3, 1, 2, 4], 7),
        CoverCut(&[5, 2, 0, 3], 4),
        CoverCut(&[0, 6, 4, 1], 5),
        CoverCut(&[2, 2, 7, 3], 9),
    ],
};

// The first cut asks for more than its candidates have.
const SHORT: Cover = Cover {
    prices: &[1, 1, 1],
    cuts: &[CoverCut(&[1, 1, 0], 3), CoverCut(&[0, 1, 2], 2)],
};

const FREE: Cover = Cover {
    prices: &[5, 7, 9],
    cuts: &[],
};

// Covers and their least prices, by the corners of their shares in exact fractions; none where no
// shares meet the cuts.
const COVERS: [(&Cover, Option<Exact>); 8] = [
    (&TRIANGLE, Some(Exact(3, 2))),
    (&FOUR, Some(Exact(1169, 148))),
    (&EQUAL, Some(Exact(22, 3))),
    (&HALF, Some(Exact(5, 2))),
    (&WHOLE, Some(Exact(12, 1))),
    (&THIRDS, Some(Exact(34, 3))),
    (&SHORT, None),
    (&FREE, Some(Exact(0, 1))),
];

impl CoverCut {
    // The coefficients over the bound, in fixed point.
    fn row(&self, alloc: Global) -> Result<Vec<i64>, NoMemory> {
        let mut row = Vec::new(alloc);
        for coefficient in self.0 {
            row.push(Exact(*coefficient, self.1).floor())?;
        }
        Ok(row)
    }

    // What shares reach of the bound.
    fn reach(&self, shares: &[i64]) -> i64 {
        let mut sum = 0i64;
        for (coefficient, share) in self.0.iter().zip(shares) {
            sum = sum.wrapping_add(product(Exact(*coefficient, self.1).floor(), *share));
        }
        sum
    }
}

impl Cover {
    // The tableau of the prices, without cuts.
    fn prices(&self, alloc: Global) -> Result<Tableau, NoMemory> {
        let mut prices = Vec::new(alloc);
        for price in self.prices {
            prices.push(price.wrapping_shl(32))?;
        }
        let mut tableau = Tableau::new(alloc);
        tableau.start(prices.as_slice())?;
        Ok(tableau)
    }

    // The tableau of the prices and the cuts, before a run.
    pub fn tableau(&self, alloc: Global) -> Result<Tableau, NoMemory> {
        let mut tableau = self.prices(alloc)?;
        let mut number = 0u32;
        for cut in self.cuts {
            tableau.add_cut(number, cut.row(alloc)?.as_slice())?;
            number = number.saturating_add(1);
        }
        Ok(tableau)
    }

    // The price of shares.
    fn price(&self, shares: &[i64]) -> i64 {
        let mut sum = 0i64;
        for (price, share) in self.prices.iter().zip(shares) {
            sum = sum.wrapping_add(price.wrapping_mul(*share));
        }
        sum
    }

    // Whether shares meet the cuts, each within the tolerance.
    fn is_met(&self, shares: &[i64]) -> bool {
        for cut in self.cuts {
            if cut.reach(shares) < ONE - TOLERANCE {
                return false;
            }
        }
        true
    }

    // What the cuts with multipliers take of a candidate.
    fn taken(&self, multipliers: &[CutMultiplier], candidate: usize) -> i64 {
        let mut sum = 0i64;
        for share in multipliers {
            if let Some(cut) = self.cuts.get(share.cut as usize) {
                let coefficient = cut.0.get(candidate).copied().unwrap_or(0);
                let part = product(Exact(coefficient, cut.1).floor(), share.multiplier);
                sum = sum.wrapping_add(part);
            }
        }
        sum
    }

    // The price that multipliers prove: their sum, less what they take of each candidate above
    // `counted` times its price.
    fn proved_price(&self, multipliers: &[CutMultiplier], counted: i64) -> i64 {
        let mut sum = 0i64;
        for share in multipliers {
            sum = sum.wrapping_add(share.multiplier);
        }
        for (candidate, price) in self.prices.iter().enumerate() {
            let held = price.wrapping_shl(32).wrapping_mul(counted);
            let excess = self.taken(multipliers, candidate).wrapping_sub(held);
            sum = sum.wrapping_sub(excess.max(0));
        }
        sum
    }
}

// Whether shares are from 0 to 1, within the tolerance.
fn are_shares(shares: &[i64]) -> bool {
    for share in shares {
        if *share < -TOLERANCE || *share > ONE + TOLERANCE {
            return false;
        }
    }
    true
}

// Whether a tableau after a run has shares of this price that meet the cuts, and multipliers that
// prove it.
fn is_solved(
    alloc: Global,
    cover: &Cover,
    tableau: &Tableau,
    least: Exact,
) -> Result<bool, NoMemory> {
    let mut shares = Vec::new(alloc);
    shares.resize(cover.prices.len(), 0)?;
    tableau.values(shares.as_mut_slice());
    let mut multipliers = Vec::new(alloc);
    tableau.multipliers(&mut multipliers)?;
    let proved = cover.proved_price(multipliers.as_slice(), 1);
    Ok(
        least.is_near(tableau.objective(), TOLERANCE)
            && least.is_near(proved, TOLERANCE)
            && least.is_near(cover.price(shares.as_slice()), TOLERANCE)
            && cover.is_met(shares.as_slice()),
    )
}

// Whether the ray of a tableau proves that no shares meet the cuts.
fn is_refuted(alloc: Global, cover: &Cover, tableau: &Tableau) -> Result<bool, NoMemory> {
    let mut multipliers = Vec::new(alloc);
    tableau.ray(&mut multipliers)?;
    Ok(cover.proved_price(multipliers.as_slice(), 0) > TOLERANCE)
}

#[test]
fn covers_have_their_least_price(rt: HostRuntime) -> Result<(), Fail> {
    for (cover, price) in COVERS {
        let mut tableau = cover.tableau(rt.alloc())?;
        let is_right = match (tableau.run(STEPS)?, price) {
            (RunEnd::Solved, Some(least)) => is_solved(rt.alloc(), cover, &tableau, least)?,
            (RunEnd::Infeasible, None) => is_refuted(rt.alloc(), cover, &tableau)?,
            _ => false,
        };
        assert!(rt; is_right, "prices {:?}", cover.prices);
    }
    Ok(())
}
