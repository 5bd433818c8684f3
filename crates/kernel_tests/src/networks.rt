//! Small networks for the kernels of normal matrices: rows of candidates over a few unknowns.

use geo_base::NoMemory;
use std::alloc::Global;
use weak_direction::{Factor, Form, Scaling};

/// A row of a candidate or a square of a limit: its weight, and its unknowns, each with its
/// coefficient.
pub struct SmallRow(pub i64, pub &'static [(u32, i64)]);

/// Rows over so many unknowns.
pub struct SmallNetwork {
    pub unknowns: usize,
    pub rows: &'static [SmallRow],
}

/// The normal matrix is 5 4, 4 5, and its inverse 5 -4, -4 5 over 9.
pub const PAIR: SmallNetwork = SmallNetwork {
    unknowns: 2,
    rows: &[
        SmallRow(1, &[(0, 2), (1, 1)]),
        SmallRow(1, &[(0, 1), (1, 2)]),
    ],
};

/// Three heights in a line between two fixed ones. The normal matrix is 2 -1 0, -1 2 -1, 0 -1 2,
/// and its inverse 3 2 1, 2 4 2, 1 2 3 over 4.
pub const CHAIN: SmallNetwork = SmallNetwork {
    unknowns: 3,
    rows: &[
        SmallRow(1, &[(0, 1)]),
        SmallRow(1, &[(0, 1), (1, -1)]),
        SmallRow(1, &[(1, 1), (2, -1)]),
        SmallRow(1, &[(2, 1)]),
    ],
};

/// A point by two distances, with weights and coefficients as tables give them. The inverse of the
/// normal matrix is 73 -36, -36 52 over 25 times 10^12: its eigenvalues are 100 and 25 over that,
/// and the direction of the greater one is 4 -3.
pub const POINT: SmallNetwork = SmallNetwork {
    unknowns: 2,
    rows: &[
        SmallRow(10000, &[(0, 6000), (1, 8000)]),
        SmallRow(2500, &[(0, 8000), (1, -6000)]),
    ],
};

impl SmallNetwork {
    /// How the unknowns are scaled.
    pub fn scaling(&self, alloc: Global) -> Result<Scaling, NoMemory> {
        let mut scaling = Scaling::new(alloc, self.unknowns)?;
        for row in self.rows {
            scaling.add_row(row.0, row.1);
        }
        Ok(scaling)
    }

    /// The factor of the normal matrix with this share of each row.
    pub fn factor(&self, alloc: Global, scaling: &Scaling, share: i64) -> Result<Factor, NoMemory> {
        let mut factor = Factor::new(alloc);
        factor.start(self.unknowns)?;
        for form in forms(alloc, scaling, 1, self.rows)?.as_slice() {
            factor.add_square(share, form);
        }
        factor.factor()?;
        Ok(factor)
    }
}

/// The forms of squares in scaled unknowns, each over `factor`.
pub fn forms(
    alloc: Global,
    scaling: &Scaling,
    factor: i64,
    squares: &[SmallRow],
) -> Result<Vec<Form>, NoMemory> {
    let mut forms = Vec::new(alloc);
    for square in squares {
        forms.push(scaling.form(alloc, square.0 as i128, factor, square.1)?)?;
    }
    Ok(forms)
}
