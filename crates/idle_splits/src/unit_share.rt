/// What shows that a node costs more than a bound: the cut of a limit and of the displacement by 1
/// in one unknown, its multiplier, and the divisor of the dual bound.
#[derive(Clone, Copy, Debug, PartialEq, Eq)]
pub struct UnitShare {
    /// The number of the limit, from 0.
    pub limit: u32,
    /// The number of the unknown that moves, from 0.
    pub unknown: u32,
    /// The number of the candidate, from 0, whose coefficient and price are the next two.
    pub candidate: u32,
    /// The divisor, from 1 to 2^24.
    pub d: u64,
    /// The multiplier, from 1 to 1000000000.
    pub y: u64,
}
