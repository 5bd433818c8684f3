//! Laws of unknowns and rows. Each function is its contract: it does nothing.
ghost use Rattle.design_rows.specs.Bounds.{RowsAreCounted, RowsAreWithinBounds, UnknownsDiffer};

/// The unknowns of any points and candidates all differ.
pub fn unknowns_differ()
    ensures { UnknownsDiffer }
{}

/// Each row of a candidate of an accepted table has at most 6 entries, whose columns are numbers of
/// unknowns, ascend, and whose sizes are below 2^21 and together below 2^23; its weight is from 1
/// to 1000000.
pub fn rows_are_within_bounds()
    ensures { RowsAreWithinBounds }
{}

/// A candidate has as many rows as its kind gives.
pub fn rows_are_counted()
    ensures { RowsAreCounted }
{}
