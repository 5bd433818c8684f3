//! Laws of idle splits. Each function is its contract: it does nothing.
ghost use Rattle.idle_splits.specs.Idle.{IdlenessFalls};
ghost use Rattle.idle_splits.specs.NoIdle.{LogsWithoutIdleSplits};

/// A split that is idle beside an earlier bound is idle beside a lower one.
pub fn idleness_falls()
    ensures { IdlenessFalls }
{}

/// No split of a log's tree is idle, by the recursion on the tree, exactly where none of its lines
/// in preorder is idle beside the bound of a leaf that stands before it.
pub fn logs_without_idle_splits()
    ensures { LogsWithoutIdleSplits }
{}
