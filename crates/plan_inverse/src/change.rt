use crate::limit_matrix::LimitMatrix;
use fixed_point::{Divisor, ONE, subtract_scaled};
use geo_base::NoMemory;
use std::alloc::Global;
use weak_direction::Form;

// What a pivot is at least in size: 2^-22.
const LEAST_PIVOT: i64 = 1 << 10;

/// How an inverse changes where the rows of a candidate are taken out or added: for each row a vector,
/// whose products over a pivot are added. It keeps its memory when it is used for another candidate.
#[derive(Drop)]
pub struct InverseChange {
    // The vectors one after another, `size` numbers each.
    vectors: Vec<i64>,
    size: usize,
    pivots: Vec<Divisor>,
    // The least pivot in size, at most 1.
    least_pivot: i64,
}

impl InverseChange {
    /// The change by no row. It takes no memory.
    pub fn new(alloc: Global) -> InverseChange {
        InverseChange {
            vectors: Vec::new(alloc),
            size: 1,
            pivots: Vec::new(alloc),
            least_pivot: ONE,
        }
    }

    /// Makes it the change by no row, for so many unknowns.
    pub fn clear(&mut self, unknowns: usize) {
        self.vectors.clear();
        self.size = unknowns.max(1);
        self.pivots.clear();
        self.least_pivot = ONE;
    }

    /// The least pivot in size, at most 1: near 0, the rows are the only ones in some direction.
    pub fn least_pivot(&self) -> i64 {
        self.least_pivot
    }

    // Adds a row: `vector` is the inverse times the row, to which the rows before are applied here.
    // `whole` is 1 over the share of it that is taken out, or below 0 added.
    pub(crate) fn push(
        &mut self,
        row: &Form,
        whole: i64,
        vector: &mut [i64],
    ) -> Result<(), NoMemory> {
        self.apply_to(row, 0, vector);
        let pivot = whole.wrapping_sub(row.at(vector, 0));
        let held = if whole < 0 {
            pivot.min(-LEAST_PIVOT)
        } else {
            pivot.max(LEAST_PIVOT)
        };
        let end = self.pivots.len().saturating_add(1);
        self.vectors.extend_from_slice(vector)?;
        self.vectors.resize(end.saturating_mul(self.size), 0)?;
        self.pivots.push(Divisor::new(held))?;
        self.least_pivot = self.least_pivot.min(held.saturating_abs());
        Ok(())
    }

    // Turns the inverse times a form over 2^shift into the changed inverse times it.
    pub(crate) fn apply_to(&self, form: &Form, shift: u32, vector: &mut [i64]) {
        let steps = self.vectors.as_slice().chunks_exact(self.size.max(1));
        for (step, pivot) in steps.zip(self.pivots.as_slice()) {
            let factor = pivot.quotient(form.at(step, shift));
            let _sizes = subtract_scaled(vector, factor.wrapping_neg(), step);
        }
    }

    // Adds the products of each vector over its pivot to a matrix of rows of `size` numbers.
    pub(crate) fn apply_to_rows(&self, entries: &mut [i64]) {
        let steps = self.vectors.as_slice().chunks_exact(self.size.max(1));
        for (step, pivot) in steps.zip(self.pivots.as_slice()) {
            add_products(entries, step, *pivot);
        }
    }

    /// What a limit bears after the change, where this is what it bears before.
    pub fn changed(&self, squares: &[Form], before: LimitMatrix) -> LimitMatrix {
        let Some(first) = squares.first() else {
            return before;
        };
        let shift = before.shift();
        let mut after = before;
        let steps = self.vectors.as_slice().chunks_exact(self.size.max(1));
        for (step, pivot) in steps.zip(self.pivots.as_slice()) {
            let own = first.at(step, shift);
            let other = squares.get(1).map_or(0, |second| second.at(step, shift));
            after = after.plus_products(own, other, *pivot);
        }
        after
    }
}

// Adds the products of a vector's numbers over a pivot to a matrix.
fn add_products(entries: &mut [i64], vector: &[i64], pivot: Divisor) {
    let rows = entries.chunks_exact_mut(vector.len().max(1));
    for (row, number) in rows.zip(vector) {
        let factor = pivot.quotient(*number);
        let _sizes = subtract_scaled(row, factor.wrapping_neg(), vector);
    }
}
