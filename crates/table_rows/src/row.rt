ghost use Rattle.std.specs.Prelude.{◌≡◌, ◌<◌, [], Some, length, map, slice_get};
ghost use Rattle.std.specs.List.{list_all};
ghost use Rattle.std.specs.Str as Text;
ghost use Rattle.table_rows.specs.Header.{same_texts};
ghost use Rattle.table_rows.specs.Rows.{is_blank};

use crate::field_text::text_of;
use csv::ByteRecord;
use std::alloc::Global;
use std::marker::Model;
use std::str;

/// A record of a table, seen as the texts of its fields. One row serves for many records.
#[derive(Drop)]
pub struct TableRow {
    pub(crate) record: ByteRecord,
}

impl Model for TableRow {
    ghost use Rattle.std.specs.Prelude.{List, ℕ};
    ghost use Rattle.csv.specs.Records.{fields_of};
    ghost use Rattle.table_rows.specs.Rows.{texts_of};

    ghost Value = { List (List ℕ) };

    ghost view = { λ a. texts_of (fields_of a.record) };
}

impl TableRow {
    /// A row with no field yet.
    pub fn new(alloc: Global) -> TableRow
        ensures { result ≡ [] }
    {
        TableRow {
            record: ByteRecord::new(alloc),
        }
    }

    // Takes every field away.
    pub(crate) fn clear(&mut self)
        ensures { self.new ≡ [] }
    {
        self.record.clear();
    }

    /// How many fields there are.
    pub fn len(&self) -> usize
        ensures { result ≡ length self.now }
    {
        self.record.len()
    }

    /// The text of the field at this place, counted from 0.
    pub fn field(&self, place: usize) -> &[u8]
        requires { place < length self.now }
        ensures { slice_get self.now place ≡ Some result.now }
    {
        match self.record.get(place) {
            Some(field) => text_of(field),
            None => unreachable!(),
        }
    }

    /// Whether there is a single field, whose text is empty.
    pub fn is_blank(&self) -> bool
        ensures { result ≡ is_blank self.now }
    {
        self.len() == 1 && self.field(0).is_empty()
    }

    /// Whether the texts are exactly these.
    pub fn has_texts(&self, texts: &[&str]) -> bool
        ensures { result ≡ same_texts self.now (map (λ text. text.now) texts.now) }
    {
        if self.len() != texts.len() {
            return false;
        }
        'places: for place in 0..texts.len() {
            if self.field(place) != texts[place].as_bytes() {
                return false;
            }
        }
        true
    }

    /// Whether each text is UTF-8.
    pub fn is_utf8(&self) -> bool
        ensures { result ≡ list_all Text.is_utf8 self.now }
    {
        'places: for place in 0..self.len() {
            if str::from_utf8(self.field(place)).is_err() {
                return false;
            }
        }
        true
    }
}
