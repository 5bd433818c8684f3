use crate::tableau::Tableau;
use geo_base::NoMemory;

/// How a run of the dual simplex ended.
#[derive(Clone, Copy)]
pub enum RunEnd {
    /// The shares meet all cuts, and the price is the least.
    Solved,
    /// No shares meet all cuts; `ray` proposes why.
    Infeasible,
    /// All steps were made. The price is still a bound.
    OutOfSteps,
    /// Numbers got too large: start anew.
    Lost,
}

impl Tableau {
    /// Makes at most so many pivots, each for the row that passes a bound by the most.
    pub fn run(&mut self, steps: u32) -> Result<RunEnd, NoMemory> {
        self.refuted = None;
        for _ in 0..steps {
            if self.sizes.is_passed() {
                return Ok(RunEnd::Lost);
            }
            let Some(leaving) = self.worst_row() else {
                return Ok(RunEnd::Solved);
            };
            let Some(column) = self.entering(leaving)? else {
                self.refuted = Some(leaving);
                return Ok(RunEnd::Infeasible);
            };
            self.pivot(leaving, column)?;
        }
        Ok(RunEnd::OutOfSteps)
    }
}
