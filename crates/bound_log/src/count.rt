//! Counting the lines of a log.
ghost use Rattle.std.specs.Prelude.{◌≡◌, List, [], ◌∷◌, ◌++◌, map};
ghost use Rattle.bound_log.specs.Counted.{counts_of, counts_with};
ghost use Rattle.bound_log.specs.Lines.{kind_of};
ghost use Rattle.bound_log.specs.declared.log_line.LogLine.{LogLine as LineOf};

use crate::line_kind::LineKind;
use geo_model::Counts;

/// Counts one more line of a kind. A count that has reached 2^64 - 1 stays there.
pub fn count_line(counts: &mut Counts, kind: LineKind)
    ensures { counts.new ≡ counts_with counts.old (kind ∷ []) }
{
    let (splits, costs, pivots, cuts, duals) = match kind {
        LineKind::Split => (1, 0, 0, 0, 0),
        LineKind::Cost => (0, 1, 0, 0, 0),
        LineKind::Pivot => (0, 0, 1, 0, 0),
        LineKind::Cut => (0, 0, 0, 1, 0),
        LineKind::Dual => (0, 0, 0, 0, 1),
    };
    counts.splits = counts.splits.saturating_add(splits);
    counts.costs = counts.costs.saturating_add(costs);
    counts.pivots = counts.pivots.saturating_add(pivots);
    counts.cuts = counts.cuts.saturating_add(cuts);
    counts.duals = counts.duals.saturating_add(duals);
}

/// The counts of lines with more lines besides are those of all of them.
pub fn lines_are_counted_on()
    ensures { (lines more : List LineOf) → counts_with (counts_of lines) (map kind_of more) ≡ counts_of (lines ++ more) }
{}
