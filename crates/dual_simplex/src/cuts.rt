use crate::table::add_scaled;
use crate::tableau::Tableau;
use crate::variable::{Basic, Column, Role, Variable};
use fixed_point::{ONE, subtract_scaled};
use geo_base::NoMemory;

impl Tableau {
    /// Adds a cut by its number and its coefficients over its bound, one for each candidate: together
    /// with the shares they sum to at least 1.
    pub fn add_cut(&mut self, cut: u32, coefficients: &[i64]) -> Result<(), NoMemory> {
        self.add_row(Variable::slack(cut), ONE, coefficients)
    }

    /// Adds a link by the number of its candidate: coefficients that together with the shares sum to at
    /// least 0. So the share of one may be held below that of another.
    pub fn add_link(&mut self, candidate: u32, coefficients: &[i64]) -> Result<(), NoMemory> {
        self.add_row(Variable::link(candidate), 0, coefficients)
    }

    // Adds the row of a slack: what coefficients together with the shares sum to, less `least`.
    fn add_row(
        &mut self,
        slack: Variable,
        least: i64,
        coefficients: &[i64],
    ) -> Result<(), NoMemory> {
        let width = self.columns.len();
        self.line.clear();
        self.line.resize(width, 0)?;
        let mut value = self.fixed_part(coefficients).wrapping_sub(least);
        for (place, column) in self
            .line
            .as_mut_slice()
            .iter_mut()
            .zip(self.columns.as_slice())
        {
            let coefficient = coefficient_of(coefficients, column.variable);
            *place = coefficient;
            value = add_scaled(value, coefficient, column.position());
        }
        for (basic, row) in self.basics.iter().zip(self.table.rows()) {
            let coefficient = coefficient_of(coefficients, basic.variable);
            if coefficient != 0 {
                let line = self.line.as_mut_slice();
                let sizes = subtract_scaled(line, coefficient.wrapping_neg(), row);
                self.sizes = self.sizes.join(sizes);
                value = add_scaled(value, coefficient, basic.value);
            }
        }
        self.table.push(self.line.as_slice())?;
        self.basics.push(Basic {
            variable: slack,
            value,
        })?;
        Ok(())
    }

    // What the fixed candidates give to a cut.
    fn fixed_part(&self, coefficients: &[i64]) -> i64 {
        let mut sum = 0i64;
        for (coefficient, share) in coefficients.iter().zip(self.fixed.as_slice()) {
            sum = add_scaled(sum, *coefficient, *share);
        }
        sum
    }

    // Keeps the share of a candidate whose column is dropped.
    pub(crate) fn keep_share(&mut self, column: Column) {
        if let Role::Candidate(candidate) = column.variable.name
            && let Some(place) = self.fixed.as_mut_slice().get_mut(candidate as usize)
        {
            *place = column.position();
        }
    }

    /// Drops the cuts and links whose slack is in a row and above `most`: those that are met by far.
    pub fn drop_slack_cuts(&mut self, most: i64) {
        for row in (0..self.basics.len()).rev() {
            self.drop_slack_cut(row, most);
        }
    }

    // Drops a row where it is that of a slack above `most`. The last row takes its place.
    fn drop_slack_cut(&mut self, row: usize, most: i64) {
        let Some(basic) = self.basics.get(row).copied() else {
            return;
        };
        if basic.variable.is_slack() && basic.value > most && row < self.basics.len() {
            let _dropped = self.basics.swap_remove(row);
            self.table.drop_row(row);
        }
    }
}

// The coefficient of a variable in a cut; that of a slack is 0.
fn coefficient_of(coefficients: &[i64], variable: Variable) -> i64 {
    match variable.name {
        Role::Candidate(candidate) => coefficients.get(candidate as usize).copied().unwrap_or(0),
        Role::Slack(_) | Role::Link(_) => 0,
    }
}
