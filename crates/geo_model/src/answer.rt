ghost use Rattle.std.specs.Prelude.{◌≡◌};

use crate::plan::Plan;

/// How many lines of each kind a log has.
#[derive(Clone, Copy, Debug, PartialEq, Eq)]
pub struct Counts {
    /// Lines that split a node on a candidate.
    pub splits: u64,
    /// Lines that close a node by its cost.
    pub costs: u64,
    /// Lines that close a node by a refuted limit.
    pub pivots: u64,
    /// Lines that close a node by a cut.
    pub cuts: u64,
    /// Lines that close a node by a dual bound.
    pub duals: u64,
}

impl Counts {
    /// The counts of a log with no line.
    pub fn none() -> Counts
        ensures { result ≡ record { splits = 0; costs = 0; pivots = 0; cuts = 0; duals = 0 } }
    {
        Counts {
            splits: 0,
            costs: 0,
            pivots: 0,
            cuts: 0,
            duals: 0,
        }
    }
}

/// What a search found.
#[derive(Debug, Drop)]
pub enum Answer {
    /// A cheapest plan that meets the limits.
    Best(Plan),
    /// No plan meets the limits.
    NoPlan,
    /// A plan of which it isn't known whether it meets the limits. Each certified plan costs more.
    Undecided {
        /// The plan: no limit in force is refuted for it, and not each is met.
        plan: Plan,
        /// The number, from 0, of the first limit in force that is open for it.
        limit: u32,
        /// The step, from 1, at which the lower chain of that limit stops.
        step: u32,
        /// The stop's value, at most 0, in units of the limit's grid.
        lo: i128,
        /// The upper chain's pivot at that step, at least 0, in units of the limit's grid.
        hi: i128,
    },
}

/// The answer of a search, with the lines of its log counted.
#[derive(Debug, Drop)]
pub struct SearchDone {
    /// What the search found.
    pub answer: Answer,
    /// How many lines of each kind it wrote.
    pub counts: Counts,
}
