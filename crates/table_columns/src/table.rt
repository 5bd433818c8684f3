ghost use Rattle.std.specs.Prelude.{◌≡◌, ◌+◌, ℕ, List, [], IfOk, OnOk, drop, length, map};
ghost use Rattle.table_rows.specs.Faults.{TableRules, first_fault};
ghost use Rattle.table_rows.specs.Rows.{table_rows};
ghost use Rattle.table_columns.specs.Read.{Adds, AnswersBy};

use crate::refusal::Refusal;
use std::alloc::Global;
use table_rows::{TableRow, TableRows};

/// A table of any kind of record, with faults of any kind.
pub trait Table {
    /// The kinds of its faults.
    type Kind: Copy;
    /// What a record is read as.
    type Record;
    /// What holds the records that were read.
    type Records: Drop;

    /// What it asks of its records.
    ghost asks: { Self → TableRules Self.Kind };

    /// What a record is read as.
    ghost value_of: { Self → List (List ℕ) → Self.Record };

    /// The records that were read, as a list.
    ghost seen: { Self.Records → List Self.Record };

    /// What holds of the records of a table without a fault.
    ghost AreRight: { Self → List Self.Record → Type 0 };

    /// The texts of its header row.
    fn header(&self) -> &'static [&'static str]
        ensures { map (λ text. text.now) result.now ≡ (asks self.now).header };

    /// The kind of fault where record 1 is another.
    fn header_kind(&self) -> Self::Kind
        ensures { result ≡ (asks self.now).header_kind };

    /// No records yet.
    fn no_records(&self, alloc: Global) -> Self::Records
        ensures none { seen result ≡ [] }
        ensures right { AreRight self.now [] };

    /// Adds what a record is read as to what the records `before` it were read as, or says which of
    /// its rules it breaks first.
    fn add(
        &self,
        alloc: Global,
        row: &TableRow,
        records: &mut Self::Records,
    ) -> Result<(), Refusal<Self::Kind>>
        ensures added { (before : List (List (List ℕ))) → seen records.old ≡ map (value_of self.now) before
            → Adds (length before + 2) ((asks self.now).rules (length before + 2) row.now before) (value_of self.now row.now) (seen records.old) (seen records.new) result }
        ensures right { OnOk result (AreRight self.now (seen records.old) → AreRight self.now (seen records.new)) };
}

/// Reads a table: what its records are read as, in their order, or its first fault.
pub fn read_table<T: Table>(
    alloc: Global,
    bytes: &[u8],
    table: &T,
) -> Result<T::Records, Refusal<T::Kind>>
    ensures answer { AnswersBy T.seen (first_fault (T.asks table.now) bytes.now) (map (T.value_of table.now) (drop 1 (table_rows bytes.now))) result }
    ensures right { IfOk result (λ records. T.AreRight table.now (T.seen records)) }
{
    let Some(mut rows) = TableRows::under_header(alloc, bytes, table.header())? else {
        return Err(Refusal::Broken(1, table.header_kind()));
    };
    let mut row = TableRow::new(alloc);
    let mut records = table.no_records(alloc);
    'rows: while rows.next(&mut row)? {
        table.add(alloc, &row, &mut records)?;
    }
    Ok(records)
}
