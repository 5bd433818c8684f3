ghost use Rattle.std.specs.Prelude.{◌≡◌, ◌↔◌, ◌≢◌, ◌<◌, ◌≤◌, ℕ, length, Some, IsNone, slice_get};
ghost use Rattle.table_columns.specs.Names.{place_of};
ghost use Rattle.candidate_tables.specs.CandidateTable.{candidate_names};

use crate::record::CandidateRecord;
use std::marker::Model;
use table_columns::NamedRecords;

/// The candidates of an accepted table, in its order. Contracts see them as the list of their
/// records.
#[derive(Drop)]
pub struct Candidates {
    records: NamedRecords<CandidateRecord>,
}

impl Model for Candidates {
    ghost use Rattle.std.specs.Prelude.{◌≤◌, List, length};
    ghost use Rattle.candidate_tables.specs.declared.record.CandidateRecord.{CandidateRecord};

    ghost Value = { List CandidateRecord };

    ghost view = { λ candidates. candidates.records };

    ghost invariant = { λ candidates. length candidates.records ≤ 256 };
}

impl Candidates {
    // The candidates that these records are.
    pub(crate) fn of(records: NamedRecords<CandidateRecord>) -> Candidates
        requires { length records ≤ 256 }
        ensures { result ≡ records }
    {
        Candidates { records }
    }

    /// How many candidates there are.
    pub fn len(&self) -> u32
        ensures value { result ≡ length self.now }
        ensures few { result ≤ 256 }
    {
        self.records.len()
    }

    /// Candidate `k`, counted from 0. What holds of it against the points of the table is said of all
    /// candidates together, by `read_candidates`.
    pub fn get(&self, k: u32) -> &CandidateRecord
        requires { k < length self.now }
        ensures { slice_get self.now k ≡ Some result.now }
    {
        self.records.get(k)
    }

    /// The number of the candidate of this name, counted from 0. None where no candidate has it.
    pub fn find(&self, name: &[u8]) -> Option<u32>
        ensures place { result ≡ place_of name.now (candidate_names self.now) }
        ensures found { (k : ℕ) → (result ≡ Some k) ↔ (slice_get (candidate_names self.now) k ≡ Some name.now) }
        ensures none { IsNone result ↔ ((k : ℕ) → slice_get (candidate_names self.now) k ≢ Some name.now) }
    {
        self.records.find(name)
    }
}
