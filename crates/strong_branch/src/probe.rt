use dual_simplex::RunEnd;

/// What a rise is where a side has no shares at all: above that of any price.
const INFEASIBLE: i64 = 1 << 60;

/// One side of a split: by how much the bound rises there within the steps, and whether no shares
/// are left. Numbers that got too large count as no rise.
#[derive(Clone, Copy)]
pub struct SplitSide {
    pub rise: i64,
    pub is_infeasible: bool,
}

impl SplitSide {
    /// The side whose run ended so, with the price before and after.
    pub(crate) fn of(outcome: RunEnd, before: i64, after: i64) -> SplitSide {
        match outcome {
            RunEnd::Infeasible => SplitSide {
                rise: INFEASIBLE,
                is_infeasible: true,
            },
            RunEnd::Lost => SplitSide {
                rise: 0,
                is_infeasible: false,
            },
            RunEnd::Solved | RunEnd::OutOfSteps => SplitSide {
                rise: after.wrapping_sub(before).max(0),
                is_infeasible: false,
            },
        }
    }
}

/// A candidate that was tried: the side that takes it and the side that leaves it out.
#[derive(Clone, Copy)]
pub struct Probe {
    pub candidate: u32,
    pub inside: SplitSide,
    pub outside: SplitSide,
}

impl Probe {
    /// The product of both rises, each at least `least`: the larger, the better the split.
    pub fn score(self, least: i64) -> i128 {
        let inside = self.inside.rise.max(least) as i128;
        inside.wrapping_mul(self.outside.rise.max(least) as i128)
    }
}
