use crate::leaving::{Leaving, TOLERANCE};
use crate::tableau::Tableau;
use fixed_point::{product, ratio};
use geo_base::NoMemory;

// What a pivot is at least in size: 2^-18.
const LEAST_PIVOT: i64 = 1 << 14;

/// A column that can help the leaving row: how much by each unit, and at which price.
#[derive(Clone, Copy)]
pub(crate) struct Ratio {
    pub column: usize,
    pub rate: i64,
    pub ratio: i64,
}

impl Tableau {
    // The column that enters for a leaving row: the cheapest ones are moved to their other bound for as
    // long as the row isn't helped by that alone, and the next one enters. None where all together
    // can't help it.
    pub(crate) fn entering(&mut self, leaving: Leaving) -> Result<Option<usize>, NoMemory> {
        self.collect_ratios(leaving)?;
        self.ratios
            .as_mut_slice()
            .sort_unstable_by_key(|helper| (helper.ratio, helper.rate.wrapping_neg()));
        let Some((count, column)) = self.flips(leaving.gap) else {
            return Ok(None);
        };
        for at in 0..count {
            self.flip(at);
        }
        Ok(Some(column))
    }

    // Collects the columns that can help a row.
    fn collect_ratios(&mut self, leaving: Leaving) -> Result<(), NoMemory> {
        self.ratios.clear();
        let row = self.table.row(leaving.row);
        let columns = self.columns.iter().zip(self.costs.as_slice()).zip(row);
        for (column, ((variable, cost), entry)) in columns.enumerate() {
            let inward = variable.inward(*entry);
            let rate = if leaving.is_below {
                inward
            } else {
                inward.wrapping_neg()
            };
            if rate > LEAST_PIVOT {
                let price = variable.inward(*cost).max(0);
                let ratio = ratio(price.unsigned_abs(), rate.unsigned_abs());
                self.ratios.push(Ratio {
                    column,
                    rate,
                    ratio,
                })?;
            }
        }
        Ok(())
    }

    // How many columns, from the cheapest on, move to their other bound, and the column that enters;
    // none where the gap is wider than all can close.
    fn flips(&self, gap: i64) -> Option<(usize, usize)> {
        let mut left = gap;
        let mut last = None;
        for (count, helper) in self.ratios.iter().enumerate() {
            last = Some((count, helper.column));
            let Some(column) = self.columns.get(helper.column) else {
                return None;
            };
            if column.variable.is_unbounded() {
                return last;
            }
            left = left.wrapping_sub(product(helper.rate, column.variable.range()));
            if left <= 0 {
                return last;
            }
        }
        if left <= TOLERANCE { last } else { None }
    }

    // Moves the column of a ratio to its other bound.
    fn flip(&mut self, at: usize) {
        let Some(helper) = self.ratios.get(at).copied() else {
            return;
        };
        let Some(column) = self.columns.get(helper.column).copied() else {
            return;
        };
        self.move_column(helper.column, column.inward(column.variable.range()));
        if helper.column < self.columns.len() {
            self.columns[helper.column].is_high = !column.is_high;
        }
    }
}
