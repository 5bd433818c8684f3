use crate::change::InverseChange;
use crate::limit_matrix::LimitMatrix;
use fixed_point::{ONE, product, quotient, subtract_scaled};
use geo_base::NoMemory;
use std::alloc::Global;
use weak_direction::{Factor, Form, common_shift};

/// The inverse of a scaled normal matrix. Errors grow with each change: past some twelve, or where a
/// pivot was small, find it anew. It keeps its memory when it is found anew or copied over.
#[derive(Drop)]
pub struct Inverse {
    // Row after row, `size` entries each.
    entries: Vec<i64>,
    size: usize,
    changes: u32,
}

impl Inverse {
    /// The inverse of no unknowns. It takes no memory.
    pub fn new(alloc: Global) -> Inverse {
        Inverse {
            entries: Vec::new(alloc),
            size: 1,
            changes: 0,
        }
    }

    /// Finds the inverse of a factored matrix.
    pub fn find(&mut self, factor: &Factor) -> Result<(), NoMemory> {
        self.size = factor.unknowns().max(1);
        self.changes = 0;
        self.entries.clear();
        self.entries.resize(self.size.saturating_mul(self.size), 0)?;
        let rows = self
            .entries
            .as_mut_slice()
            .chunks_exact_mut(self.size.max(1));
        for (at, row) in rows.enumerate() {
            if let Some(place) = row.get_mut(at) {
                *place = ONE;
            }
            factor.solve(row);
        }
        Ok(())
    }

    /// Makes it a copy of another.
    pub fn copy_from(&mut self, other: &Inverse) -> Result<(), NoMemory> {
        self.entries.clear();
        self.entries.extend_from_slice(other.entries.as_slice())?;
        self.size = other.size;
        self.changes = other.changes;
        Ok(())
    }

    /// How many changes were made since it was found.
    pub fn changes(&self) -> u32 {
        self.changes
    }

    /// Writes how it changes where a share of each of these rows is taken out; a share below 0 is
    /// added. `scratch` is overwritten.
    pub fn change(
        &self,
        rows: &[Form],
        share: i64,
        change: &mut InverseChange,
        scratch: &mut Vec<i64>,
    ) -> Result<(), NoMemory> {
        change.clear(self.size);
        let whole = quotient(ONE, share);
        for row in rows {
            self.times(row, 0, scratch)?;
            change.push(row, whole, scratch.as_mut_slice())?;
        }
        Ok(())
    }

    /// Makes a change.
    pub fn apply(&mut self, change: &InverseChange) {
        change.apply_to_rows(self.entries.as_mut_slice());
        self.changes = self.changes.saturating_add(1);
    }

    /// What a limit of one or two squares bears.
    pub fn limit_matrix(&self, squares: &[Form]) -> LimitMatrix {
        let shift = common_shift(squares);
        let none = LimitMatrix::zero(shift);
        let Some(first) = squares.first() else {
            return none;
        };
        let own = self.between(first, first, shift);
        let Some(second) = squares.get(1) else {
            return none.plus(own, 0, 0);
        };
        let mixed = self.between(first, second, shift);
        none.plus(own, mixed, self.between(second, second, shift))
    }

    /// The load over the energy of a limit of one or two squares, in the direction that bears it worst
    /// after a change: above 1, the limit is broken then.
    pub fn strength(&self, squares: &[Form], change: &InverseChange) -> i64 {
        let before = self.limit_matrix(squares);
        change.changed(squares, before).strength()
    }

    /// Writes the inverse after a change times a form over 2^shift: one number for each unknown.
    pub fn solution(
        &self,
        form: &Form,
        shift: u32,
        change: &InverseChange,
        numbers: &mut Vec<i64>,
    ) -> Result<(), NoMemory> {
        self.times(form, shift, numbers)?;
        change.apply_to(form, shift, numbers.as_mut_slice());
        Ok(())
    }

    // Writes the inverse times a form over 2^shift.
    fn times(&self, form: &Form, shift: u32, numbers: &mut Vec<i64>) -> Result<(), NoMemory> {
        numbers.clear();
        numbers.resize(self.size, 0)?;
        for term in form.terms() {
            let factor = term.coefficient.wrapping_shr(shift).wrapping_neg();
            let row = self.row(term.unknown as usize);
            let _sizes = subtract_scaled(numbers.as_mut_slice(), factor, row);
        }
        Ok(())
    }

    // The product of two forms over 2^shift with the inverse between them.
    fn between(&self, first: &Form, second: &Form, shift: u32) -> i64 {
        let mut sum = 0i64;
        for term in first.terms() {
            let part = second.at(self.row(term.unknown as usize), shift);
            sum = sum.wrapping_add(product(term.coefficient.wrapping_shr(shift), part));
        }
        sum
    }

    // A row; an empty one where there is none of that number.
    fn row(&self, row: usize) -> &[i64] {
        let start = row.saturating_mul(self.size);
        let end = start.saturating_add(self.size);
        self.entries.as_slice().get(start..end).unwrap_or(&[])
    }
}
