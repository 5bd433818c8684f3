//! What the cuts of a pool reach under a plan, in one pass over narrow numbers. It only proposes: each
//! cut that it proposes is tested exactly.
ghost use Rattle.std.specs.Prelude.{◌≡◌, length};

use cut_pool::{Cut, CutPool};
use geo_base::NoMemory;
use geo_model::{Network, Plan};
use std::alloc::Global;

/// Coefficients are rounded up: so a plan may break a cut whose coefficients sum to more than its
/// bound, by at most one for each of at most 256 candidates, and one for the bound.
const SLACK: u32 = 257;

/// So many of the further cuts, the last ones, are summed under each plan. All of them would take most
/// of the time of a long search, and cuts that are broken again are mostly young.
const WINDOW: usize = 4096;

/// The coefficients of the cuts of a pool, stored by candidate, and what they sum to under a plan. Those
/// that the pool began with are always summed, of the further ones the last.
#[derive(Drop)]
pub struct CutSums {
    /// How many cuts the pool began with.
    first: usize,
    /// For each candidate its coefficient in each cut.
    columns: Vec<Vec<u32>>,
    bounds: Vec<u32>,
    sums: Vec<u32>,
}

impl CutSums {
    /// The sums of a pool under no candidates.
    pub fn new(alloc: Global, network: &Network, pool: &CutPool) -> Result<CutSums, NoMemory> {
        let mut columns = Vec::new(alloc);
        for candidate in 0..network.candidates().len() {
            columns.push(column_of(alloc, pool, candidate)?)?;
        }
        let sums = vec![in alloc; 0; pool.len() as usize]?;
        let bounds = bounds_of(alloc, pool)?;
        Ok(CutSums {
            first: pool.len() as usize,
            columns,
            bounds,
            sums,
        })
    }

    /// Sums the coefficients of the candidates of a plan. It takes no memory.
    pub fn take(&mut self, network: &Network, plan: &Plan)
        requires { length plan.now ≡ length network.now.candidates }
    {
        for sum in self.sums.iter_mut() {
            *sum = 0;
        }
        self.add_plan(network, plan);
    }

    // Adds the coefficients of the candidates of a plan.
    fn add_plan(&mut self, network: &Network, plan: &Plan)
        requires { length plan.now ≡ length network.now.candidates }
    {
        for candidate in 0..network.candidates().len() as u32 {
            if plan.has(candidate) {
                self.add_candidate(candidate);
            }
        }
    }

    // Adds the coefficients of a candidate.
    fn add_candidate(&mut self, candidate: u32) {
        let Some(column) = self.columns.get(candidate as usize) else {
            return;
        };
        let recent = recent_of(self.sums.len(), self.first);
        add_column(
            self.sums
                .as_mut_slice()
                .get_mut(..self.first)
                .unwrap_or(&mut []),
            column.as_slice(),
        );
        add_column(
            self.sums
                .as_mut_slice()
                .get_mut(recent..)
                .unwrap_or(&mut []),
            column.as_slice().get(recent..).unwrap_or(&[]),
        );
    }

    /// How many cuts the pool began with.
    pub fn first(&self) -> u32 {
        (self.first as u64 & 0xffff_ffff) as u32
    }

    /// The number of the first of the further cuts that are summed.
    pub fn recent(&self) -> u32 {
        (recent_of(self.sums.len(), self.first) as u64 & 0xffff_ffff) as u32
    }

    /// Takes in a further cut of the pool, with what it reaches under a plan.
    pub fn follow(&mut self, network: &Network, cut: &Cut, plan: &Plan) -> Result<(), NoMemory>
        requires { length plan.now ≡ length network.now.candidates }
    {
        for (column, coefficient) in self.columns.iter_mut().zip(cut.coefficients.as_slice()) {
            column.push(*coefficient)?;
        }
        self.bounds.push(cut.bound)?;
        self.sums.push(reached(network, cut, plan))?;
        Ok(())
    }

    /// Whether the plan may break the cut of a number: it does not where this is false.
    pub fn may_break(&self, cut: u32) -> bool {
        let at = cut as usize;
        let bound = self.bounds.get(at).copied().unwrap_or(0);
        self.sums.get(at).copied().unwrap_or(0) <= bound.saturating_add(SLACK)
    }
}

// The number of the first of the further cuts that are summed, of so many cuts.
fn recent_of(count: usize, first: usize) -> usize {
    count.saturating_sub(WINDOW).max(first)
}

// The sum of the coefficients of the candidates of a plan.
fn reached(network: &Network, cut: &Cut, plan: &Plan) -> u32
    requires { length plan.now ≡ length network.now.candidates }
{
    let coefficients = cut.coefficients.as_slice();
    let mut sum = 0u32;
    for candidate in 0..network.candidates().len() as u32 {
        if plan.has(candidate) {
            let coefficient = coefficients.get(candidate as usize).copied().unwrap_or(0);
            sum = sum.wrapping_add(coefficient);
        }
    }
    sum
}

// The coefficient of a candidate in each cut.
fn column_of(alloc: Global, pool: &CutPool, candidate: usize) -> Result<Vec<u32>, NoMemory> {
    let mut column = Vec::new(alloc);
    for k in 0..pool.len() {
        let coefficients = pool.get(k).coefficients.as_slice();
        column.push(coefficients.get(candidate).copied().unwrap_or(0))?;
    }
    Ok(column)
}

// The bound of each cut.
fn bounds_of(alloc: Global, pool: &CutPool) -> Result<Vec<u32>, NoMemory> {
    let mut bounds = Vec::new(alloc);
    for k in 0..pool.len() {
        bounds.push(pool.get(k).bound)?;
    }
    Ok(bounds)
}

// Adds a column to sums.
fn add_column(sums: &mut [u32], column: &[u32]) {
    for (sum, coefficient) in sums.iter_mut().zip(column) {
        *sum = sum.wrapping_add(*coefficient);
    }
}
