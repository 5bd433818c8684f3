use crate::entering::Ratio;
use crate::leaving::Leaving;
use crate::table::{TableauEntries, add_scaled};
use crate::variable::{Basic, Column, Variable};
use fixed_point::{ONE, Sizes};
use geo_base::NoMemory;
use std::alloc::Global;

/// A condensed tableau: the variables that stand at a bound are its columns, the others are its rows,
/// each with its value and with how it changes by each column. It keeps its memory when it is started
/// anew or copied over.
#[derive(Drop)]
pub struct Tableau {
    pub(crate) table: TableauEntries,
    pub(crate) columns: Vec<Column>,
    pub(crate) basics: Vec<Basic>,
    // The reduced cost of each column.
    pub(crate) costs: Vec<i64>,
    // The share at which each candidate was fixed; 0 for the others.
    pub(crate) fixed: Vec<i64>,
    // The present price.
    pub(crate) objective: i64,
    // How large the entries got.
    pub(crate) sizes: Sizes,
    // How many pivots were made since it was started.
    pub(crate) pivots: u32,
    // The row that can't be met, where the last run ended with one.
    pub(crate) refuted: Option<Leaving>,
    // The pivot row over the pivot, or a new row.
    pub(crate) line: Vec<i64>,
    // The columns that can help the leaving row.
    pub(crate) ratios: Vec<Ratio>,
}

impl Tableau {
    /// The tableau of no candidates. It takes no memory.
    pub fn new(alloc: Global) -> Tableau {
        Tableau {
            table: TableauEntries::new(alloc),
            columns: Vec::new(alloc),
            basics: Vec::new(alloc),
            costs: Vec::new(alloc),
            fixed: Vec::new(alloc),
            objective: 0,
            sizes: Sizes::new(),
            pivots: 0,
            refuted: None,
            line: Vec::new(alloc),
            ratios: Vec::new(alloc),
        }
    }

    /// Starts with candidates of these prices, none below 0, and without cuts. All together are below
    /// 2^28; below a half each, quotients are faster.
    pub fn start(&mut self, prices: &[i64]) -> Result<(), NoMemory> {
        self.table.clear(prices.len());
        self.basics.clear();
        self.columns.clear();
        let mut number = 0u32;
        for _ in prices {
            self.columns.push(Column {
                variable: Variable::candidate(number),
                is_high: false,
            })?;
            number = number.saturating_add(1);
        }
        self.costs.clear();
        self.costs.extend_from_slice(prices)?;
        self.fixed.clear();
        self.fixed.resize(prices.len(), 0)?;
        self.objective = 0;
        self.sizes = Sizes::new();
        self.pivots = 0;
        self.refuted = None;
        Ok(())
    }

    /// Makes it a copy of another. Columns that were dropped there take no place here.
    pub fn copy_from(&mut self, other: &Tableau) -> Result<(), NoMemory> {
        self.table.copy_from(&other.table, other.columns.len())?;
        self.columns.clear();
        self.columns.extend_from_slice(other.columns.as_slice())?;
        self.basics.clear();
        self.basics.extend_from_slice(other.basics.as_slice())?;
        self.costs.clear();
        self.costs.extend_from_slice(other.costs.as_slice())?;
        self.fixed.clear();
        self.fixed.extend_from_slice(other.fixed.as_slice())?;
        self.objective = other.objective;
        self.sizes = other.sizes;
        self.pivots = other.pivots;
        self.refuted = other.refuted;
        Ok(())
    }

    /// Fixes the share of a candidate, at 1 or at 0. A candidate that was fixed before, or that there
    /// isn't, changes nothing.
    pub fn fix(&mut self, candidate: u32, is_in: bool) {
        let share = if is_in { ONE } else { 0 };
        let is_candidate = |column: &Column| column.variable.is_candidate(candidate);
        if let Some(column) = self.columns.iter().position(is_candidate) {
            self.move_to(column, share);
            self.drop_column(column);
            return;
        }
        for basic in self.basics.iter_mut() {
            if basic.variable.is_candidate(candidate) {
                basic.variable.low = share;
                basic.variable.high = share;
            }
        }
    }

    // Moves the variable of a column from its bound to a share.
    fn move_to(&mut self, column: usize, share: i64) {
        let Some(moved) = self.columns.get(column).copied() else {
            return;
        };
        self.move_column(column, share.wrapping_sub(moved.position()));
        if column < self.columns.len() {
            self.columns[column].variable.low = share;
            self.columns[column].variable.high = share;
        }
    }

    // Moves the variable of a column by a step: values and price follow.
    pub(crate) fn move_column(&mut self, column: usize, step: i64) {
        let mut sizes = self.sizes;
        for (basic, row) in self.basics.iter_mut().zip(self.table.rows()) {
            let entry = row.get(column).copied().unwrap_or(0);
            basic.value = add_scaled(basic.value, entry, step);
            sizes = sizes.with(basic.value);
        }
        let cost = self.costs.get(column).copied().unwrap_or(0);
        self.objective = add_scaled(self.objective, cost, step);
        self.sizes = sizes.with(self.objective);
    }

    // Drops the column of a fixed variable: the last one takes its place.
    pub(crate) fn drop_column(&mut self, column: usize) {
        let Some(dropped) = self.columns.get(column).copied() else {
            return;
        };
        self.keep_share(dropped);
        let last = self.columns.len().saturating_sub(1);
        self.table.replace_column(column, last);
        let last_column = self.columns.pop();
        let last_cost = self.costs.pop().unwrap_or(0);
        if let Some(moved) = last_column
            && column < self.columns.len()
            && column < self.costs.len()
        {
            self.columns[column] = moved;
            self.costs[column] = last_cost;
        }
    }
}
