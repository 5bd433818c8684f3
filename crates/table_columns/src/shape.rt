ghost use Rattle.std.specs.Prelude.{◌≡◌, None, length};
ghost use Rattle.table_rows.specs.Faults.{first_broken};

use table_rows::TableRow;

/// What a table asks of each record as a whole, and the kinds of fault where a record breaks it.
#[derive(Clone, Copy)]
pub struct Shape<K> {
    /// The largest number of a record, the header row among them.
    pub most: u16,
    /// How many fields a record has.
    pub fields: usize,
    /// Record 1 is not the header row.
    pub header: K,
    /// The record's number is larger.
    pub too_many: K,
    /// The record has another number of fields.
    pub other_fields: K,
    /// A field is not UTF-8.
    pub not_utf8: K,
}

impl<K: Copy> Shape<K> {
    ghost use Rattle.table_columns.specs.Columns.{record_rules};

    /// The first rule that a record breaks as a whole: its number is at most `most`, it has so many
    /// fields, and each of them is UTF-8.
    #[tactic(auto, unfolding(table_rows::specs::Faults::first_broken, crate::specs::Columns::record_rules))]
    pub fn broken(self, number: u32, row: &TableRow) -> Option<K>
        ensures kind { result ≡ first_broken (record_rules self number row.now) }
        ensures fields { result ≡ None → length row.now ≡ self.fields }
    {
        if number > self.most as u32 {
            return Some(self.too_many);
        }
        if row.len() != self.fields {
            return Some(self.other_fields);
        }
        if !row.is_utf8() {
            return Some(self.not_utf8);
        }
        None
    }
}
