//! The least price of a node where each candidate may be chosen in part: the linear program from
//! whose optimum multipliers are read. All of it only proposes.
ghost use Rattle.std.specs.Prelude.{◌≡◌, ◌<◌, All, length};

use crate::naming::is_named;
use cut_pool::{Cut, CutPool};
use dual_simplex::{CutMultiplier, RunEnd, Tableau};
use fixed_point::{product, ratio};
use geo_base::NoMemory;
use geo_model::{Network, Node};
use std::alloc::Global;

// How often broken cuts are sought, how many are added each time, and how many pivots follow.
const ROUNDS: u32 = 64;

const ADDED: usize = 8;

const STEPS: u32 = 100;

// Past so many pivots numbers are no longer exact enough to go on.
const MOST_PIVOTS: u32 = 600;

// A cut is broken that lacks more than this part of its bound: a 4096th.
const LACKING: i64 = 1 << 28;

// What all prices together, with those of stations, stay below in a tableau, as a power of two.
const PRICE_BITS: u32 = 28;

/// How a relaxation ended: multipliers of a bound, or those that show that no shares meet all cuts.
#[derive(Clone, Copy, Debug, PartialEq, Eq)]
pub enum RelaxationEnd {
    Bound,
    Ray,
}

// A cut that the present shares of the candidates break.
#[derive(Clone, Copy)]
struct BrokenCut {
    cut: u32,
    lacking: i64,
}

/// The linear program of a node, and the shares that are its optimum.
#[derive(Drop)]
pub struct Relaxation {
    tableau: Tableau,
    // The share of each candidate.
    values: Vec<i64>,
    // The coefficients of a cut over its bound.
    line: Vec<i64>,
    broken: Vec<BrokenCut>,
}

/// The power of two by which prices are divided in a tableau.
pub fn price_shift(network: &Network) -> u32
    ensures { result < 33 }
{
    let mut total = 0u64;
    for candidate in network.candidates() {
        total = total.saturating_add(candidate.price);
    }
    for price in network.station_prices() {
        total = total.saturating_add(*price);
    }
    (64 - (total >> PRICE_BITS).leading_zeros()).min(32)
}

/// The price of each candidate over that power of two, in fixed point: what a tableau starts with.
pub fn scaled_prices(alloc: Global, network: &Network) -> Result<Vec<i64>, NoMemory> {
    let shift = price_shift(network);
    let mut prices = Vec::new(alloc);
    for candidate in network.candidates() {
        prices.push(scaled_price(candidate.price, shift))?;
    }
    Ok(prices)
}

/// A price over a power of two, as `price_shift` answers it, in fixed point.
pub fn scaled_price(price: u64, shift: u32) -> i64 {
    let bits = 32u32.saturating_sub(shift);
    price.wrapping_shl(bits).min(1 << 60) as i64
}

// What a cut lacks of its bound at shares of the candidates, over the bound, times 256; 0 or less where
// it is met.
fn lacking(cut: &Cut, values: &[i64]) -> i64 {
    let mut sum = 0i64;
    for (coefficient, value) in cut.coefficients.iter().zip(values) {
        sum = sum.wrapping_add(product((*coefficient as i64).wrapping_shl(8), *value));
    }
    let rest = (cut.bound as i64).wrapping_shl(8).wrapping_sub(sum);
    if rest <= 0 {
        return 0;
    }
    ratio(rest.unsigned_abs(), cut.bound as u64)
}

impl Relaxation {
    /// The relaxation of no candidates. It takes no memory.
    pub fn new(alloc: Global) -> Relaxation {
        Relaxation {
            tableau: Tableau::new(alloc),
            values: Vec::new(alloc),
            line: Vec::new(alloc),
            broken: Vec::new(alloc),
        }
    }

    // Starts at a node, with its candidates and without cuts.
    fn start(&mut self, alloc: Global, network: &Network, node: &Node) -> Result<(), NoMemory>
        requires inside { length node.now.inside ≡ length network.now.candidates }
        requires upper { length node.now.upper ≡ length network.now.candidates }
    {
        let prices = scaled_prices(alloc, network)?;
        self.tableau.start(prices.as_slice())?;
        self.values.clear();
        self.values.resize(prices.len(), 0)?;
        for candidate in 0..network.candidates().len() as u32 {
            if node.inside.has(candidate) {
                self.tableau.fix(candidate, true);
            } else if !node.upper.has(candidate) {
                self.tableau.fix(candidate, false);
            }
        }
        Ok(())
    }

    // Lists the cuts that may be named and are broken, those that lack most first.
    fn find_broken(
        &mut self,
        network: &Network,
        node: &Node,
        pool: &CutPool,
    ) -> Result<(), NoMemory>
        requires inside { length node.now.inside ≡ length network.now.candidates }
        requires limits { All (λ cut. cut.limit < length network.now.limits) pool.now }
    {
        self.tableau.values(self.values.as_mut_slice());
        self.broken.clear();
        for cut in 0..pool.len() {
            let lacking = lacking(pool.get(cut), self.values.as_slice());
            if lacking > LACKING && is_named(network, node, pool, cut) {
                self.broken.push(BrokenCut { cut, lacking })?;
            }
        }
        self.broken
            .as_mut_slice()
            .sort_unstable_by_key(|broken| broken.lacking.wrapping_neg());
        Ok(())
    }

    // Adds a cut to the tableau.
    fn add_cut(&mut self, pool: &CutPool, number: u32) -> Result<(), NoMemory> {
        if number >= pool.len() {
            return Ok(());
        }
        let cut = pool.get(number);
        self.line.clear();
        for coefficient in cut.coefficients.as_slice() {
            self.line
                .push(ratio(*coefficient as u64, cut.bound as u64))?;
        }
        self.tableau.add_cut(number, self.line.as_slice())
    }

    // Adds the cuts that lack most, and answers whether there were any.
    fn add_broken(&mut self, pool: &CutPool) -> Result<bool, NoMemory> {
        let count = self.broken.len().min(ADDED);
        for place in 0..count {
            if let Some(broken) = self.broken.get(place).copied() {
                self.add_cut(pool, broken.cut)?;
            }
        }
        Ok(count > 0)
    }

    // Adds broken cuts and makes pivots until no cut is broken, or no shares meet all cuts.
    fn run(
        &mut self,
        network: &Network,
        node: &Node,
        pool: &CutPool,
    ) -> Result<Option<RelaxationEnd>, NoMemory>
        requires inside { length node.now.inside ≡ length network.now.candidates }
        requires limits { All (λ cut. cut.limit < length network.now.limits) pool.now }
    {
        for _ in 0..ROUNDS {
            self.find_broken(network, node, pool)?;
            if !self.add_broken(pool)? {
                break;
            }
            match self.tableau.run(STEPS)? {
                RunEnd::Solved => {}
                RunEnd::Infeasible => return Ok(Some(RelaxationEnd::Ray)),
                RunEnd::OutOfSteps => break,
                RunEnd::Lost => return Ok(None),
            }
            if self.tableau.pivots() > MOST_PIVOTS {
                break;
            }
        }
        Ok(Some(RelaxationEnd::Bound))
    }

    /// Writes multipliers of cuts that may be named at a node, the greatest first, and answers what
    /// they are; nothing where numbers got too large.
    pub fn solve(
        &mut self,
        alloc: Global,
        network: &Network,
        node: &Node,
        pool: &CutPool,
        multipliers: &mut Vec<CutMultiplier>,
    ) -> Result<Option<RelaxationEnd>, NoMemory>
        requires inside { length node.now.inside ≡ length network.now.candidates }
        requires upper { length node.now.upper ≡ length network.now.candidates }
        requires limits { All (λ cut. cut.limit < length network.now.limits) pool.now }
    {
        self.start(alloc, network, node)?;
        let ended = self.run(network, node, pool)?;
        match ended {
            Some(RelaxationEnd::Ray) => self.tableau.ray(multipliers)?,
            Some(RelaxationEnd::Bound) => self.tableau.multipliers(multipliers)?,
            None => {}
        }
        multipliers
            .as_mut_slice()
            .sort_unstable_by_key(|share| share.multiplier.wrapping_neg());
        Ok(ended)
    }
}
