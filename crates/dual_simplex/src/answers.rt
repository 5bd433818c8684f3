use crate::share::CutMultiplier;
use crate::tableau::Tableau;
use crate::variable::{Role, Variable};
use fixed_point::ONE;
use geo_base::NoMemory;

impl Tableau {
    /// The present price: a bound from below, and the least price where the run was solved.
    pub fn objective(&self) -> i64 {
        self.objective
    }

    /// How many pivots were made since the start. Errors grow with them: past some 300 start anew.
    pub fn pivots(&self) -> u32 {
        self.pivots
    }

    /// Writes the cuts whose multiplier in the bound is above 0, each with it.
    pub fn multipliers(&self, shares: &mut Vec<CutMultiplier>) -> Result<(), NoMemory> {
        shares.clear();
        for (column, cost) in self.columns.iter().zip(self.costs.as_slice()) {
            push_share(shares, column.variable, *cost)?;
        }
        Ok(())
    }

    /// Writes the cuts whose sum, each with its multiplier, no shares meet, where the last run ended as
    /// infeasible; else none.
    pub fn ray(&self, shares: &mut Vec<CutMultiplier>) -> Result<(), NoMemory> {
        shares.clear();
        let Some(refuted) = self.refuted else {
            return Ok(());
        };
        for (column, entry) in self.columns.iter().zip(self.table.row(refuted.row)) {
            let multiplier = if refuted.is_below {
                entry.wrapping_neg()
            } else {
                *entry
            };
            push_share(shares, column.variable, multiplier)?;
        }
        if let Some(basic) = self.basics.get(refuted.row) {
            push_share(shares, basic.variable, ONE)?;
        }
        Ok(())
    }

    /// Writes the share of each candidate, by its number, up to the end of `shares`.
    pub fn values(&self, shares: &mut [i64]) {
        for (share, fixed) in shares.iter_mut().zip(self.fixed.as_slice()) {
            *share = *fixed;
        }
        for column in self.columns.as_slice() {
            write_value(shares, column.variable, column.position());
        }
        for basic in self.basics.as_slice() {
            write_value(shares, basic.variable, basic.value);
        }
    }

    /// Writes the numbers of the cuts that it has.
    pub fn cuts(&self, numbers: &mut Vec<u32>) -> Result<(), NoMemory> {
        numbers.clear();
        for column in self.columns.as_slice() {
            push_cut(numbers, column.variable)?;
        }
        for basic in self.basics.as_slice() {
            push_cut(numbers, basic.variable)?;
        }
        Ok(())
    }

    /// Writes the candidates whose links it has.
    pub fn links(&self, candidates: &mut Vec<u32>) -> Result<(), NoMemory> {
        candidates.clear();
        for column in self.columns.as_slice() {
            push_link(candidates, column.variable)?;
        }
        for basic in self.basics.as_slice() {
            push_link(candidates, basic.variable)?;
        }
        Ok(())
    }
}

// Adds the number of a cut where the variable is its slack.
fn push_cut(numbers: &mut Vec<u32>, variable: Variable) -> Result<(), NoMemory> {
    if let Role::Slack(cut) = variable.name {
        numbers.push(cut)?;
    }
    Ok(())
}

// Adds a candidate where the variable is the slack of its link.
fn push_link(candidates: &mut Vec<u32>, variable: Variable) -> Result<(), NoMemory> {
    if let Role::Link(candidate) = variable.name {
        candidates.push(candidate)?;
    }
    Ok(())
}

// Adds a share where the variable is a slack and its multiplier above 0.
fn push_share(
    shares: &mut Vec<CutMultiplier>,
    variable: Variable,
    multiplier: i64,
) -> Result<(), NoMemory> {
    if let Role::Slack(cut) = variable.name
        && multiplier > 0
    {
        shares.push(CutMultiplier { cut, multiplier })?;
    }
    Ok(())
}

// Writes the value of a variable where it is the share of a candidate.
fn write_value(shares: &mut [i64], variable: Variable, value: i64) {
    if let Role::Candidate(candidate) = variable.name
        && let Some(place) = shares.get_mut(candidate as usize)
    {
        *place = value;
    }
}
