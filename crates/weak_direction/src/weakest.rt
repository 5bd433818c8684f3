use crate::eigen::greatest_eigenvalue;
use crate::factor::Factor;
use crate::form::{Form, common_shift, lifted};
use fixed_point::{Divisor, product};
use geo_base::NoMemory;
use std::alloc::Global;

/// The weakest direction of a limit, in scaled unknowns and fixed point. It keeps its memory when
/// another is found.
#[derive(Drop)]
pub struct Weakest {
    direction: Vec<i64>,
    second: Vec<i64>,
    // The direction in the unknowns' own units, up to a factor.
    unscaled: Vec<i64>,
}

impl Weakest {
    /// No direction yet. It takes no memory.
    pub fn new(alloc: Global) -> Weakest {
        Weakest {
            direction: Vec::new(alloc),
            second: Vec::new(alloc),
            unscaled: Vec::new(alloc),
        }
    }

    /// Finds the direction in which a limit of one or two squares is nearest to its bound under the
    /// shares of a factored matrix, and answers the load there over the energy: above 1, the limit is
    /// broken.
    pub fn find(&mut self, factor: &Factor, squares: &[Form]) -> Result<i64, NoMemory> {
        let shift = common_shift(squares);
        clear(&mut self.direction, factor.unknowns())?;
        clear(&mut self.second, factor.unknowns())?;
        if let Some(square) = squares.first() {
            square.spread(self.direction.as_mut_slice(), shift);
            factor.solve(self.direction.as_mut_slice());
        }
        if let Some(square) = squares.get(1) {
            square.spread(self.second.as_mut_slice(), shift);
            factor.solve(self.second.as_mut_slice());
        }
        Ok(self.join(squares, shift))
    }

    /// The same where the inverse of the matrix times each of the squares, shifted by `shift` bits, is
    /// known; `second` has no number where there is one square.
    pub fn find_from(
        &mut self,
        squares: &[Form],
        shift: u32,
        first: &[i64],
        second: &[i64],
    ) -> Result<i64, NoMemory> {
        self.direction.clear();
        self.direction.extend_from_slice(first)?;
        self.second.clear();
        self.second.extend_from_slice(second)?;
        self.second.resize(first.len(), 0)?;
        Ok(self.join(squares, shift))
    }

    // Joins the solutions of both squares to the weakest direction, and answers the load over the energy.
    fn join(&mut self, squares: &[Form], shift: u32) -> i64 {
        let Some(first) = squares.first() else {
            return 0;
        };
        let other = squares.get(1).unwrap_or(first);
        let top = greatest_eigenvalue(
            first.at(self.direction.as_slice(), shift),
            first.at(self.second.as_slice(), shift),
            other.at(self.second.as_slice(), shift),
        );
        let places = self.direction.as_mut_slice().iter_mut();
        for (place, second) in places.zip(self.second.as_slice()) {
            let part = product(top.first, *place);
            *place = part.wrapping_add(product(top.second, *second));
        }
        lifted(top.value, shift)
    }

    /// Writes the direction in the unknowns' own units, rounded so that its greatest entry is
    /// `greatest` in size, from 1 to 32768. All are 0 where no direction was found. `units` are those
    /// of the scaling.
    pub fn round(
        &mut self,
        units: &[i64],
        greatest: i64,
        entries: &mut Vec<i32>,
    ) -> Result<(), NoMemory> {
        self.unscale(units)?;
        let mut most = 0i64;
        for number in self.unscaled.as_slice() {
            most = most.max(number.saturating_abs());
        }
        let divisor = Divisor::new(most);
        entries.clear();
        for number in self.unscaled.as_slice() {
            let part = divisor.quotient(*number).wrapping_mul(greatest);
            let rounded = part.wrapping_add(1 << 31) >> 32;
            entries.push(rounded.clamp(-32768, 32768) as i32)?;
        }
        Ok(())
    }

    // Writes the direction with its scaling taken off.
    fn unscale(&mut self, units: &[i64]) -> Result<(), NoMemory> {
        self.unscaled.clear();
        for (unknown, number) in self.direction.iter().enumerate() {
            let unit = units.get(unknown).copied().unwrap_or(0);
            self.unscaled.push(product(*number, unit))?;
        }
        Ok(())
    }
}

// Makes it so many zeros.
fn clear(numbers: &mut Vec<i64>, count: usize) -> Result<(), NoMemory> {
    numbers.clear();
    numbers.resize(count, 0)?;
    Ok(())
}
