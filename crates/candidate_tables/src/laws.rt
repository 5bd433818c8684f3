ghost use Rattle.std.specs.Prelude.{ℕ, List};
ghost use Rattle.table_rows.specs.Faults.{FindsLeast, asked};
ghost use Rattle.point_tables.specs.declared.record.PointRecord.{PointRecord};
ghost use Rattle.candidate_tables.specs.CandidateTable.{candidates_fault, candidates_table};
ghost use Rattle.candidate_tables.specs.Kinds.{WordsNameKinds};

/// A law: against any points, the first fault of a candidates table is the least pair of a record
/// and a place in the order of its rules, and there is none exactly where no record breaks a rule.
pub fn first_candidate_fault_is_least()
    ensures { (points : List PointRecord) (bytes : List ℕ) → FindsLeast (asked (candidates_table points) bytes) (candidates_fault points bytes) }
{}

/// A law: the word of each kind is read as that kind. So no kind is left out, and no two kinds have
/// the same word.
pub fn words_name_kinds()
    ensures { WordsNameKinds }
{}
