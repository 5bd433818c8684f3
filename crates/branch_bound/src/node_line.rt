ghost use Rattle.std.specs.Prelude.{◌≡◌, ℕ, List, IfSome, IfNone};
ghost use Rattle.cut_pool.specs.Cut.{CutOf};
ghost use Rattle.bound_log.specs.Lines.{kind_of};
ghost use Rattle.branch_bound.specs.Cuts.{log_line_of};
ghost use Rattle.branch_bound.specs.declared.node_line.NodeLine.TheVariants as node_line;

use bound_log::LineKind;
use dual_ascent::Dual;
use idle_splits::UnitShare;

/// The line that the search writes at a node. A cut is told by its number in the search's pool.
#[derive(Debug, Drop)]
pub enum NodeLine {
    Split(u32),
    Cost,
    Pivot(u32),
    Cut(u32),
    /// The dual bound of one share of a unit cut.
    UnitDual(UnitShare),
    /// The dual bound of shares of cuts of the pool.
    Dual(Dual),
}

impl NodeLine {
    /// The kind of the line.
    pub fn kind(&self) -> LineKind
        ensures { (pool : List CutOf) → result ≡ kind_of (log_line_of pool self.now) }
    {
        match self {
            NodeLine::Split(_) => LineKind::Split,
            NodeLine::Cost => LineKind::Cost,
            NodeLine::Pivot(_) => LineKind::Pivot,
            NodeLine::Cut(_) => LineKind::Cut,
            NodeLine::UnitDual(_) => LineKind::Dual,
            NodeLine::Dual(_) => LineKind::Dual,
        }
    }

    /// The candidate on which the line splits its node; a leaf splits none.
    pub fn split_candidate(&self) -> Option<u32>
        ensures some { IfSome result (λ candidate. self.now ≡ node_line.Split candidate) }
        ensures none { IfNone result ((candidate : ℕ) → self.now ≡ node_line.Split candidate → ⊥) }
    {
        match self {
            NodeLine::Split(candidate) => Some(*candidate),
            NodeLine::Cost => None,
            NodeLine::Pivot(_) => None,
            NodeLine::Cut(_) => None,
            NodeLine::UnitDual(_) => None,
            NodeLine::Dual(_) => None,
        }
    }
}
