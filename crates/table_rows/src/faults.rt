ghost use Rattle.table_rows.specs.Faults.{FirstFaultIsLeast};

/// A law: the first fault of a table is the least pair of a record and a place in the order of its rules.
pub fn first_fault_is_least()
    ensures { FirstFaultIsLeast }
{}
