ghost use Rattle.std.specs.Prelude.{◌≡◌, ◌∷◌, [], true, false, Some, IfOk, OnErr, Ok, map};
ghost use Rattle.table_rows.specs.Header.{rows_under};
ghost use Rattle.table_rows.specs.Rows.{table_rows};
ghost use Rattle.table_rows.specs.Reading.{StandsBetween, rows_left, texts_left};
ghost use Rattle.csv.specs.Reading.{error_kind, stops_reader};

use crate::mark::has_second_mark;
use crate::row::TableRow;
use csv::{Error, ErrorKind, Reader, ReaderBuilder};
use geo_base::NoMemory;
use std::alloc::Global;
use std::marker::Model;

/// The records of a table that are left, one after the other. What is read is taken off the front.
#[derive(Drop)]
pub struct TableRows<'a> {
    reader: Reader<&'a [u8]>,
    // The end of the text was seen, or memory ran out.
    ended: bool,
}

impl<'a> Model for TableRows<'a> {
    ghost use Rattle.std.specs.Prelude.{◌≡◌, List, ℕ, [], Some, false, if◌then◌else◌};
    ghost use Rattle.table_rows.specs.Reading.{StandsBetween, rows_left};

    ghost Value = { List (List (List ℕ)) };

    ghost view = { λ a. if a.ended then [] else rows_left (λ s. Some s.now) a.reader };

    ghost invariant = { λ a. a.ended ≡ false → StandsBetween (λ s. Some s.now) a.reader };
}

// An error that stops a reader of a slice is want of memory.
fn want_of_memory(error: Error) -> NoMemory
    requires { stops_reader (error_kind error) ≡ true }
{
    match error.into_kind() {
        ErrorKind::Io(_) | ErrorKind::OutOfMemory => NoMemory,
        _ => unreachable!(),
    }
}

// Reads the next record, blank or not.
fn read_row(reader: &mut Reader<&[u8]>, row: &mut TableRow) -> Result<bool, NoMemory>
    requires { StandsBetween (λ s. Some s.now) reader.old }
    ensures stands { result ≡ Ok true → StandsBetween (λ s. Some s.now) reader.new }
    ensures found { result ≡ Ok true → texts_left (λ s. Some s.now) reader.old ≡ row.new ∷ texts_left (λ s. Some s.now) reader.new }
    ensures ended { result ≡ Ok false → texts_left (λ s. Some s.now) reader.old ≡ [] }
{
    reader
        .read_byte_record(&mut row.record)
        .map_err(want_of_memory)
}

// Reads the next record that isn't blank.
fn next_row(reader: &mut Reader<&[u8]>, row: &mut TableRow) -> Result<bool, NoMemory>
    requires { StandsBetween (λ s. Some s.now) reader.old }
    ensures stands { result ≡ Ok true → StandsBetween (λ s. Some s.now) reader.new }
    ensures found { result ≡ Ok true → rows_left (λ s. Some s.now) reader.old ≡ row.new ∷ rows_left (λ s. Some s.now) reader.new }
    ensures ended { result ≡ Ok false → rows_left (λ s. Some s.now) reader.old ≡ [] }
{
    while read_row(reader, row)? {
        if !row.is_blank() {
            return Ok(true);
        }
    }
    Ok(false)
}

impl<'a> TableRows<'a> {
    /// The records of a table: those of its bytes after one byte order mark, without the blank ones.
    pub fn open(alloc: Global, bytes: &'a [u8]) -> TableRows<'a>
        ensures { result ≡ table_rows bytes.now }
    {
        let reader = ReaderBuilder::new()
            .has_headers(false)
            .flexible(true)
            .from_reader(alloc, bytes);
        TableRows {
            reader,
            ended: false,
        }
    }

    /// The records under the header row. None where record 1 isn't this header, where there is no record, or where a
    /// second byte order mark follows the first.
    pub fn under_header(
        alloc: Global,
        bytes: &'a [u8],
        header: &[&str],
    ) -> Result<Option<TableRows<'a>>, NoMemory>
        ensures { IfOk result (λ rows. rows ≡ rows_under (map (λ text. text.now) header.now) bytes.now) }
    {
        if has_second_mark(bytes) {
            return Ok(None);
        }
        let mut rows = TableRows::open(alloc, bytes);
        let mut first = TableRow::new(alloc);
        if rows.next(&mut first)? && first.has_texts(header) {
            Ok(Some(rows))
        } else {
            Ok(None)
        }
    }

    /// Puts the next record into `row`, and says whether there was one. Where there was none, or memory ran out, `row` has
    /// no field; after want of memory no record is left, so each further call says that there is none.
    pub fn next(&mut self, row: &mut TableRow) -> Result<bool, NoMemory>
        ensures found { result ≡ Ok true → self.old ≡ row.new ∷ self.new }
        ensures ended { result ≡ Ok false → (self.old ≡ []) × (self.new ≡ []) × (row.new ≡ []) }
        ensures refused { OnErr result ((self.new ≡ []) × (row.new ≡ [])) }
    {
        if self.ended {
            row.clear();
            return Ok(false);
        }
        let outcome = next_row(&mut self.reader, row);
        if !matches!(outcome, Ok(true)) {
            self.ended = true;
            row.clear();
        }
        outcome
    }
}
