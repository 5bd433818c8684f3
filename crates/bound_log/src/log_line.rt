ghost use Rattle.std.specs.Prelude.{◌≡◌};
ghost use Rattle.bound_log.specs.Lines.{kind_of};

use crate::line_kind::LineKind;
use crate::log_leaf::LogLeaf;

/// A line of a log, lent from its text. Candidates, limits and unknowns are told by their numbers,
/// counted from 0, as they stand in the line, in their range or not.
#[derive(Debug, Drop)]
pub enum LogLine<'a> {
    /// A split on this candidate: the next lines are those of the child that chooses it, and then
    /// those of the child that leaves it out.
    Split(u64),
    /// A leaf, which ends its node.
    Leaf(LogLeaf<'a>),
}

impl<'a> LogLine<'a> {
    /// The kind of the line, as its first letter tells it.
    pub fn kind(&self) -> LineKind
        ensures { result ≡ kind_of self.now }
    {
        match self {
            LogLine::Split(_) => LineKind::Split,
            LogLine::Leaf(LogLeaf::Cost) => LineKind::Cost,
            LogLine::Leaf(LogLeaf::Pivot(_)) => LineKind::Pivot,
            LogLine::Leaf(LogLeaf::Cut(_)) => LineKind::Cut,
            LogLine::Leaf(LogLeaf::Dual(_, _)) => LineKind::Dual,
        }
    }
}
