use crate::cut_text::CutText;
use crate::dual_text::Shares;

/// A leaf of a log: why its node needs no further lines.
#[derive(Debug, Drop)]
pub enum LogLeaf<'a> {
    /// Its bound is the price of what its node chooses.
    Cost,
    /// It has no plan, since this limit refutes its node.
    Pivot(u64),
    /// It has no plan, since this displacement breaks its limit under the node's upper plan.
    Cut(CutText<'a>),
    /// Its bound is the dual bound of this divisor and these shares of cuts.
    Dual(u64, Shares<'a>),
}
