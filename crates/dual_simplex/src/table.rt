ghost use Rattle.std.specs.Prelude.{◌<◌};
ghost use Rattle.std.specs.Slice.Iter.{chunks_exact_size};

use fixed_point::{Sizes, negate_row, product, subtract_scaled};
use geo_base::NoMemory;
use std::alloc::Global;
use std::slice::ChunksExact;

/// The entries of a tableau, row after row, each with places for `stride` columns. Columns that were
/// dropped leave places at the end of each row that nobody reads.
#[derive(Drop)]
pub(crate) struct TableauEntries {
    entries: Vec<i64>,
    stride: usize,
}

impl TableauEntries {
    /// The table of no rows. It takes no memory.
    pub fn new(alloc: Global) -> TableauEntries {
        TableauEntries {
            entries: Vec::new(alloc),
            stride: 1,
        }
    }

    /// Makes it the table of no rows, with places for `stride` columns.
    pub fn clear(&mut self, stride: usize) {
        self.entries.clear();
        self.stride = stride.max(1);
    }

    /// Makes it a copy of the first `width` columns of another.
    pub fn copy_from(&mut self, other: &TableauEntries, width: usize) -> Result<(), NoMemory> {
        self.clear(width);
        for row in other.rows() {
            self.push(row)?;
        }
        Ok(())
    }

    /// Adds a row at the end: cut to the stride, or filled up with zeros.
    pub fn push(&mut self, row: &[i64]) -> Result<(), NoMemory> {
        let end = self.entries.len().saturating_add(self.stride);
        let width = row.len().min(self.stride);
        self.entries.extend_from_slice(&row[..width])?;
        self.entries.resize(end, 0)?;
        Ok(())
    }

    /// The rows, in order.
    pub fn rows(&self) -> ChunksExact<'_, i64>
        ensures { 0 < chunks_exact_size result }
    {
        self.entries.as_slice().chunks_exact(self.stride.max(1))
    }

    /// One row; an empty one where there is none of that number.
    pub fn row(&self, row: usize) -> &[i64] {
        let start = row.saturating_mul(self.stride);
        let end = start.saturating_add(self.stride);
        self.entries.as_slice().get(start..end).unwrap_or(&[])
    }

    /// One entry; 0 where there is none at that place.
    pub fn entry(&self, row: usize, column: usize) -> i64 {
        self.row(row).get(column).copied().unwrap_or(0)
    }

    /// Writes `line` with the other sign over a row.
    pub fn negate_into(&mut self, row: usize, line: &[i64]) -> Sizes {
        let start = row.saturating_mul(self.stride);
        let end = start.saturating_add(self.stride);
        match self.entries.as_mut_slice().get_mut(start..end) {
            Some(places) => negate_row(places, line),
            None => Sizes::new(),
        }
    }

    /// Clears a column in all rows but `row`, by subtracting `line` as often as the row has it there. In
    /// that column `line` has the negative inverse of the pivot.
    pub fn clear_column(&mut self, row: usize, column: usize, line: &[i64]) -> Sizes {
        let mut sizes = Sizes::new();
        let rows = self
            .entries
            .as_mut_slice()
            .chunks_exact_mut(self.stride.max(1));
        for (at, other) in rows.enumerate() {
            if at != row {
                sizes = sizes.join(clear_place(other, column, line));
            }
        }
        sizes
    }

    /// Moves column `last` to the place of a column.
    pub fn replace_column(&mut self, column: usize, last: usize) {
        let rows = self
            .entries
            .as_mut_slice()
            .chunks_exact_mut(self.stride.max(1));
        for row in rows {
            let moved = row.get(last).copied().unwrap_or(0);
            if column < row.len() {
                row[column] = moved;
            }
        }
    }

    /// Takes a row away: the last one is moved to its place.
    pub fn drop_row(&mut self, row: usize) {
        let start = row.saturating_mul(self.stride);
        let end = start.saturating_add(self.stride);
        for at in (start..end).rev() {
            let moved = self.entries.pop().unwrap_or(0);
            if at < self.entries.len() {
                self.entries[at] = moved;
            }
        }
    }
}

/// Clears the place of a column in one row (of the table, or of the costs), by subtracting `line` as
/// often as the row has it there.
pub(crate) fn clear_place(row: &mut [i64], column: usize, line: &[i64]) -> Sizes {
    let factor = row.get(column).copied().unwrap_or(0);
    if factor == 0 {
        return Sizes::new();
    }
    if column < row.len() {
        row[column] = 0;
    }
    subtract_scaled(row, factor, line)
}

/// Adds `factor` times `other` to the entry of a sum.
pub(crate) fn add_scaled(sum: i64, factor: i64, other: i64) -> i64 {
    sum.wrapping_add(product(factor, other))
}
