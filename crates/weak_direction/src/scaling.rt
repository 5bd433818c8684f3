use crate::form::{Form, FormTerm};
use fixed_point::root_of_ratio;
use geo_base::NoMemory;
use std::alloc::Global;

/// How unknowns are scaled: each by the root of its diagonal entry in the normal matrix of all
/// candidates, so that this matrix gets a unit diagonal.
#[derive(Drop)]
pub struct Scaling {
    diagonal: Vec<u128>,
}

impl Scaling {
    /// The scaling of so many unknowns before any row is added.
    pub fn new(alloc: Global, unknowns: usize) -> Result<Scaling, NoMemory> {
        let mut diagonal = Vec::new(alloc);
        diagonal.resize(unknowns, 0)?;
        Ok(Scaling { diagonal })
    }

    /// The number of unknowns.
    pub fn unknowns(&self) -> usize {
        self.diagonal.len()
    }

    /// Adds a row of a candidate, by its weight and its entries: unknowns and coefficients.
    pub fn add_row(&mut self, weight: i64, entries: &[(u32, i64)]) {
        for (unknown, coefficient) in entries {
            if let Some(place) = self.diagonal.as_mut_slice().get_mut(*unknown as usize) {
                let square = weighted_square(weight as i128, *coefficient);
                *place = place.saturating_add(square);
            }
        }
    }

    /// A weighted square in scaled unknowns: `weight` times the square of a linear form over `factor`.
    /// The factor is 1 for a row of a candidate, that of the limit for one of its squares.
    pub fn form(
        &self,
        alloc: Global,
        weight: i128,
        factor: i64,
        entries: &[(u32, i64)],
    ) -> Result<Form, NoMemory> {
        let mut terms = Vec::new(alloc);
        for (unknown, coefficient) in entries {
            let diagonal = self.entry(*unknown as usize);
            let square = weighted_square(weight, *coefficient);
            let divisor = diagonal.saturating_mul(factor.unsigned_abs() as u128);
            let size = root_of_ratio(square, divisor);
            terms.push(FormTerm {
                unknown: *unknown,
                coefficient: if *coefficient < 0 {
                    size.wrapping_neg()
                } else {
                    size
                },
            })?;
        }
        Ok(Form { terms })
    }

    /// The root of the diagonal entry of each unknown over the greatest of them, in fixed point: what
    /// a displacement by 1 in the unknown is in scaled units, up to one factor for all.
    pub fn roots(&self, alloc: Global) -> Result<Vec<i64>, NoMemory> {
        let mut greatest = 0u128;
        for entry in self.diagonal.as_slice() {
            greatest = greatest.max(*entry);
        }
        let mut roots = Vec::new(alloc);
        for entry in self.diagonal.as_slice() {
            roots.push(root_of_ratio(*entry, greatest))?;
        }
        Ok(roots)
    }

    /// The root of the least diagonal entry over that of each unknown, in fixed point: what a scaled
    /// unit is in the unknown, up to one factor for all.
    pub fn units(&self, alloc: Global) -> Result<Vec<i64>, NoMemory> {
        let least = self.least();
        let mut units = Vec::new(alloc);
        for entry in self.diagonal.as_slice() {
            units.push(root_of_ratio(least, *entry))?;
        }
        Ok(units)
    }

    // The least diagonal entry above 0.
    fn least(&self) -> u128 {
        let mut least = u128::MAX;
        for entry in self.diagonal.as_slice() {
            if 0 < *entry {
                least = least.min(*entry);
            }
        }
        least
    }

    // The diagonal entry of an unknown; 0 where there is none.
    fn entry(&self, unknown: usize) -> u128 {
        self.diagonal.get(unknown).copied().unwrap_or(0)
    }
}

// A weight times the square of a coefficient.
fn weighted_square(weight: i128, coefficient: i64) -> u128 {
    let size = coefficient.unsigned_abs() as u128;
    weight
        .unsigned_abs()
        .saturating_mul(size.saturating_mul(size))
}
