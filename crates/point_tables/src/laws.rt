ghost use Rattle.std.specs.Prelude.{ℕ, List};
ghost use Rattle.table_rows.specs.Faults.{FindsLeast, asked};
ghost use Rattle.point_tables.specs.PointTable.{points_fault, points_table};

/// A law: the first fault of a points table is the least pair of a record and a place in the
/// order of its rules, and there is none exactly where no record breaks a rule.
pub fn first_point_fault_is_least()
    ensures { (bytes : List ℕ) → FindsLeast (asked points_table bytes) (points_fault bytes) }
{}
