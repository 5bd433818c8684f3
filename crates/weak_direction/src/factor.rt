use crate::form::{Form, FormTerm};
use fixed_point::{Divisor, divide_row, dot, product, subtract_scaled};
use geo_base::NoMemory;
use std::alloc::Global;

// What is added to the diagonal, and what a pivot is at least: 2^-22.
const REGULAR: i64 = 1 << 10;

/// A scaled normal matrix under shares of the candidates, plus 2^-22 on the diagonal; once it is
/// factored, a unit triangle and the pivots. It keeps its memory when it is started anew.
#[derive(Drop)]
pub struct Factor {
    // The matrix row after row, `size` entries each, of which those from the diagonal on are read.
    entries: Vec<i64>,
    size: usize,
    pivots: Vec<Divisor>,
    // The row of the present pivot, as it was and over the pivot.
    row: Vec<i64>,
    line: Vec<i64>,
}

impl Factor {
    /// The factor of no unknowns. It takes no memory.
    pub fn new(alloc: Global) -> Factor {
        Factor {
            entries: Vec::new(alloc),
            size: 1,
            pivots: Vec::new(alloc),
            row: Vec::new(alloc),
            line: Vec::new(alloc),
        }
    }

    /// Starts with so many unknowns and no candidate.
    pub fn start(&mut self, unknowns: usize) -> Result<(), NoMemory> {
        self.size = unknowns.max(1);
        self.entries.clear();
        self.entries.resize(self.size.saturating_mul(self.size), 0)?;
        self.pivots.clear();
        let rows = self
            .entries
            .as_mut_slice()
            .chunks_exact_mut(self.size.max(1));
        for (at, row) in rows.enumerate() {
            add_to(row, at, REGULAR);
        }
        Ok(())
    }

    /// The number of unknowns; 1 where there are none.
    pub fn unknowns(&self) -> usize {
        self.size
    }

    /// Adds a share of a square: of a row of a candidate.
    pub fn add_square(&mut self, share: i64, form: &Form) {
        for term in form.terms.as_slice() {
            let scaled = product(share, term.coefficient);
            add_terms(
                self.row_mut(term.unknown as usize),
                scaled,
                form.terms.as_slice(),
            );
        }
    }

    /// Factors the matrix: each row is divided by its pivot and subtracted from those below.
    pub fn factor(&mut self) -> Result<(), NoMemory> {
        self.pivots.clear();
        for pivot in 0..self.size {
            let on_diagonal = self.row_at(pivot).get(pivot).copied().unwrap_or(0);
            let divisor = Divisor::new(on_diagonal.max(REGULAR));
            self.copy_row(pivot)?;
            divide_row(self.line.as_mut_slice(), divisor);
            self.clear_below(pivot);
            self.pivots.push(divisor)?;
        }
        Ok(())
    }

    /// Solves for a right side, which is replaced: one number for each unknown.
    pub fn solve(&self, right: &mut [i64]) {
        let rows = self.entries.as_slice().chunks_exact(self.size.max(1));
        for (at, row) in rows.enumerate() {
            let known = right.get(at).copied().unwrap_or(0);
            if known != 0 {
                subtract_tail(right, at.saturating_add(1), known, row);
            }
        }
        for (place, divisor) in right.iter_mut().zip(self.pivots.as_slice()) {
            *place = divisor.quotient(*place);
        }
        for at in (0..self.size).rev() {
            let after = at.saturating_add(1);
            let known = tail_product(right, self.row_at(at), after);
            add_to(right, at, known.wrapping_neg());
        }
    }

    // A row; an empty one where there is none of that number.
    fn row_at(&self, row: usize) -> &[i64] {
        let start = row.saturating_mul(self.size);
        let end = start.saturating_add(self.size);
        self.entries.as_slice().get(start..end).unwrap_or(&[])
    }

    // A row for writing.
    fn row_mut(&mut self, row: usize) -> &mut [i64] {
        let start = row.saturating_mul(self.size);
        let end = start.saturating_add(self.size);
        let entries = self.entries.as_mut_slice();
        entries.get_mut(start..end).unwrap_or(&mut [])
    }

    // Copies a row twice: as it is, and to be divided.
    fn copy_row(&mut self, row: usize) -> Result<(), NoMemory> {
        let start = row.saturating_mul(self.size);
        let end = start.saturating_add(self.size);
        let copied = self.entries.as_slice().get(start..end).unwrap_or(&[]);
        self.row.clear();
        self.row.extend_from_slice(copied)?;
        self.line.clear();
        self.line.extend_from_slice(copied)?;
        Ok(())
    }

    // Subtracts the row of the pivot from those below it, and keeps it over the pivot.
    fn clear_below(&mut self, pivot: usize) {
        let rows = self
            .entries
            .as_mut_slice()
            .chunks_exact_mut(self.size.max(1));
        for ((at, row), factor) in rows.enumerate().zip(self.row.as_slice()) {
            if at == pivot {
                row_over(row, self.line.as_slice());
            }
            if at > pivot && *factor != 0 {
                subtract_tail(row, at, *factor, self.line.as_slice());
            }
        }
    }
}

// Adds `factor` times the terms of a form to a row.
fn add_terms(row: &mut [i64], factor: i64, terms: &[FormTerm]) {
    for term in terms {
        add_to(
            row,
            term.unknown as usize,
            product(factor, term.coefficient),
        );
    }
}

// Adds a number to one place.
fn add_to(row: &mut [i64], at: usize, number: i64) {
    if let Some(place) = row.get_mut(at) {
        *place = place.wrapping_add(number);
    }
}

// Writes the entries of one row over those of another.
fn row_over(row: &mut [i64], line: &[i64]) {
    for (place, entry) in row.iter_mut().zip(line) {
        *place = *entry;
    }
}

// Subtracts `factor` times the entries of `line` from those of `row`, from the place `from` on.
fn subtract_tail(row: &mut [i64], from: usize, factor: i64, line: &[i64]) {
    let subtracted = line.get(from..).unwrap_or(&[]);
    if let Some(places) = row.get_mut(from..) {
        let _sizes = subtract_scaled(places, factor, subtracted);
    }
}

// The sum of the products of two rows, from the place `from` on.
fn tail_product(a: &[i64], b: &[i64], from: usize) -> i64 {
    dot(a.get(from..).unwrap_or(&[]), b.get(from..).unwrap_or(&[]))
}
