ghost use Rattle.std.specs.Prelude.{◌≡◌, ◌-◌, ◌≤◌, ℕ, List, true, IfOk, drop, length, map};
ghost use Rattle.table_rows.specs.Faults.{first_fault};
ghost use Rattle.table_rows.specs.Rows.{table_rows};
ghost use Rattle.table_columns.specs.Columns.{NamedRules, name_at, named_table};
ghost use Rattle.table_columns.specs.Names.{is_name};
ghost use Rattle.table_columns.specs.Read.{AnswersBy, Reads};
ghost use Rattle.table_columns.specs.Stored.{AreNamed};

use crate::kinds::NameKinds;
use crate::name::Name;
use crate::named_records::{NamedRecord, NamedRecords};
use crate::refusal::Refusal;
use crate::shape::Shape;
use crate::table::{Table, read_table};
use std::alloc::Global;
use table_rows::TableRow;

/// A table whose first column is the name of a record, which no other record of it has.
pub trait NamedTable {
    /// The kinds of its faults.
    type Kind: Copy;
    /// What a record is read as.
    type Record: NamedRecord;

    /// What it asks of its records.
    ghost asks: { Self → NamedRules Self.Kind };

    /// What a record is read as.
    ghost value_of: { Self → List (List ℕ) → Self.Record };

    /// What holds of each record of a table without a fault.
    ghost IsRight: { Self → Self.Record → Type 0 };

    /// The texts of its header row.
    fn header(&self) -> &'static [&'static str]
        ensures { map (λ text. text.now) result.now ≡ (asks self.now).header };

    /// What it asks of a record as a whole, and the kinds of fault.
    fn shape(&self) -> Shape<Self::Kind>
        ensures value { result ≡ (asks self.now).shape }
        ensures fields { 1 ≤ result.fields };

    /// The kinds of fault of a name.
    fn name_kinds(&self) -> NameKinds<Self::Kind>
        ensures { result ≡ (asks self.now).name };

    /// Reads the columns after the name.
    fn read_columns(&self, row: &TableRow, name: Name) -> Result<Self::Record, Self::Kind>
        requires fields { length row.now ≡ (asks self.now).shape.fields }
        requires name { name ≡ name_at row.now }
        requires is_name { is_name name ≡ true }
        ensures value { Reads ((asks self.now).columns row.now) (λ read. read ≡ value_of self.now row.now) result }
        ensures right { IfOk result (IsRight self.now) };

    /// The name of a record is the text of its first field.
    ghost named: { (table : Self) (row : List (List ℕ)) → Self.Record.name_of (value_of table row) ≡ name_at row };
}

// A table of named records, read as any table is.
#[derive(Drop)]
struct ByName<'a, T> {
    table: &'a T,
}

impl<'a, T: NamedTable> Table for ByName<'a, T> {
    type Kind = T::Kind;

    type Record = T::Record;

    type Records = NamedRecords<T::Record>;

    ghost asks = { λ by. named_table (T.asks by.table.now) };

    ghost value_of = { λ by. T.value_of by.table.now };

    ghost seen = { λ records. records };

    ghost AreRight = { λ by. AreNamed T.Record.name_of ((T.asks by.table.now).shape.most - 1) (T.IsRight by.table.now) };

    fn header(&self) -> &'static [&'static str] {
        self.table.header()
    }

    fn header_kind(&self) -> T::Kind {
        self.table.shape().header
    }

    fn no_records(&self, alloc: Global) -> NamedRecords<T::Record> {
        NamedRecords::new(alloc)
    }

    fn add(
        &self,
        alloc: Global,
        row: &TableRow,
        records: &mut NamedRecords<T::Record>,
    ) -> Result<(), Refusal<T::Kind>> {
        let number = records.len() + 2;
        if let Some(kind) = self.table.shape().broken(number, row) {
            return Err(Refusal::Broken(number, kind));
        }
        let text = row.field(0);
        let name = match self.table.name_kinds().new_name(text, records.find(text)) {
            Ok(name) => Name::new(alloc, name)?,
            Err(kind) => return Err(Refusal::Broken(number, kind)),
        };
        let added = match self.table.read_columns(row, name) {
            Ok(added) => added,
            Err(kind) => return Err(Refusal::Broken(number, kind)),
        };
        records.push(alloc, added)?;
        Ok(())
    }
}

/// Reads a table of named records: what its records are read as, in their order, or its first fault.
pub fn read_named_table<T: NamedTable>(
    alloc: Global,
    bytes: &[u8],
    table: &T,
) -> Result<NamedRecords<T::Record>, Refusal<T::Kind>>
    ensures answer { AnswersBy (λ records. records) (first_fault (named_table (T.asks table.now)) bytes.now) (map (T.value_of table.now) (drop 1 (table_rows bytes.now))) result }
    ensures right { IfOk result (AreNamed T.Record.name_of ((T.asks table.now).shape.most - 1) (T.IsRight table.now)) }
{
    read_table(alloc, bytes, &ByName { table })
}
