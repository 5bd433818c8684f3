use crate::leaving::Leaving;
use crate::table::clear_place;
use crate::tableau::Tableau;
use crate::variable::{Basic, Column};
use fixed_point::{Divisor, ONE, divide_row, quotient};
use geo_base::NoMemory;

impl Tableau {
    // Exchanges the variable of a leaving row, which goes to the bound that it passed, and that of a
    // column, which takes what value that asks for.
    pub(crate) fn pivot(&mut self, leaving: Leaving, column: usize) -> Result<(), NoMemory> {
        let Some(entering) = self.columns.get(column).copied() else {
            return Ok(());
        };
        let Some(basic) = self.basics.get(leaving.row).copied() else {
            return Ok(());
        };
        let pivot = self.table.entry(leaving.row, column);
        let gap = self.gap_of(leaving);
        let wanted = if leaving.is_below {
            gap
        } else {
            gap.wrapping_neg()
        };
        let step = quotient(wanted, pivot);
        self.move_column(column, step);
        self.eliminate(leaving.row, column, pivot)?;
        if leaving.row < self.basics.len() && column < self.columns.len() {
            self.basics[leaving.row] = Basic {
                variable: entering.variable,
                value: entering.position().wrapping_add(step),
            };
            self.columns[column] = Column {
                variable: basic.variable,
                is_high: !leaving.is_below,
            };
        }
        self.pivots = self.pivots.saturating_add(1);
        if basic.variable.is_fixed() {
            self.drop_column(column);
        }
        Ok(())
    }

    // Solves a row for the variable of a column and puts that into the other rows and the costs.
    fn eliminate(&mut self, row: usize, column: usize, pivot: i64) -> Result<(), NoMemory> {
        let width = self.columns.len();
        self.line.clear();
        for entry in self.table.row(row).iter().take(width) {
            self.line.push(*entry)?;
        }
        divide_row(self.line.as_mut_slice(), Divisor::new(pivot));
        if column < self.line.len() {
            self.line[column] = quotient(ONE, pivot).wrapping_neg();
        }
        let line = self.line.as_slice();
        let others = self.table.clear_column(row, column, line);
        let own = self.table.negate_into(row, line);
        let costs = clear_place(self.costs.as_mut_slice(), column, line);
        self.sizes = self.sizes.join(others).join(own).join(costs);
        Ok(())
    }
}
