use crate::level::Level;
use crate::links::Links;
use crate::live_cuts::LiveCuts;
use cut_pool::CutPool;
use dual_ascent::{RelaxationEnd, price_shift, scaled_price, scaled_prices};
use dual_simplex::{CutMultiplier, RunEnd};
use fixed_point::ONE;
use geo_base::NoMemory;
use geo_model::Network;
use scaled_network::ScaledNetwork;
use std::alloc::Global;

// How often broken cuts are sought, how many are added each time, and how many pivots follow at most.
const ROUNDS: u32 = 64;

const ADDED: usize = 10;

const RUNS: u32 = 16;

const STEPS: u32 = 64;

// Past so many pivots numbers are no longer exact enough: the tableau is built anew.
const MOST_PIVOTS: u32 = 300;

// A cut is broken that lacks more than this part of its bound: a fiftieth.
const LACKING: i64 = ONE / 50;

// A cut that is met by more than this part of its bound leaves the tableau: a tenth.
const MET_BY_FAR: i64 = ONE / 10;

/// The linear program of a node: the least price where each candidate may be chosen in part, and each
/// station paid in part, under the cuts of a pool, and where no candidate is chosen by more than its
/// station is paid.
#[derive(Drop)]
pub(crate) struct Relaxation {
    // The price of each candidate and, after them, of each station.
    prices: Vec<i64>,
    candidates: usize,
    live: LiveCuts,
    links: Links,
    // The share of each candidate and, after them, of each station.
    shares: Vec<i64>,
    multipliers: Vec<CutMultiplier>,
    // The numbers of the cuts of a tableau that is built anew.
    numbers: Vec<u32>,
}

impl Relaxation {
    /// The relaxation of a network, without cuts.
    pub fn new(
        alloc: Global,
        network: &Network,
        scaled: &ScaledNetwork,
    ) -> Result<Relaxation, NoMemory> {
        let mut prices = scaled_prices(alloc, network)?;
        let candidates = prices.len();
        let shift = price_shift(network);
        for price in scaled.stations().prices() {
            prices.push(scaled_price(*price, shift))?;
        }
        let count = prices.len();
        Ok(Relaxation {
            prices,
            candidates,
            live: LiveCuts::new(alloc, candidates)?,
            links: Links::new(alloc, count)?,
            shares: vec![in alloc; 0; count]?,
            multipliers: Vec::new(alloc),
            numbers: Vec::new(alloc),
        })
    }

    /// The price of each candidate in a tableau and, after them, of each station.
    pub fn prices(&self) -> &[i64] {
        self.prices.as_slice()
    }

    /// The share of each candidate, from 0 to 1, where the last run ended.
    pub fn shares(&self) -> &[i64] {
        let shares = self.shares.as_slice();
        shares.get(..self.candidates).unwrap_or(&[])
    }

    /// The share of each station, from 0 to 1, where the last run ended.
    pub fn station_shares(&self) -> &[i64] {
        let shares = self.shares.as_slice();
        shares.get(self.candidates..).unwrap_or(&[])
    }

    /// The multipliers of the last run, the greatest first.
    pub fn multipliers(&self) -> &[CutMultiplier] {
        self.multipliers.as_slice()
    }

    /// Adds broken cuts and makes pivots, until no cut is broken, the price is past `most`, or no
    /// shares meet all cuts; and reads shares and multipliers. None where numbers got too large.
    pub fn solve(
        &mut self,
        network: &ScaledNetwork,
        level: &mut Level,
        pool: &CutPool,
        most: i64,
    ) -> Result<Option<RelaxationEnd>, NoMemory> {
        self.live.follow(network, &level.marks, pool)?;
        let kind = self.run(network, level, pool, most)?;
        self.read_shares(level);
        match kind {
            Some(RelaxationEnd::Ray) => level.tableau.ray(&mut self.multipliers)?,
            Some(RelaxationEnd::Bound) => level.tableau.multipliers(&mut self.multipliers)?,
            None => self.multipliers.clear(),
        }
        self.multipliers
            .as_mut_slice()
            .sort_unstable_by_key(|share| share.multiplier.wrapping_neg());
        Ok(kind)
    }

    // Reads the shares, each held within 0 and 1.
    fn read_shares(&mut self, level: &Level) {
        level.tableau.values(self.shares.as_mut_slice());
        for share in self.shares.iter_mut() {
            *share = (*share).clamp(0, ONE);
        }
    }

    // Adds broken cuts and makes pivots.
    fn run(
        &mut self,
        network: &ScaledNetwork,
        level: &mut Level,
        pool: &CutPool,
        most: i64,
    ) -> Result<Option<RelaxationEnd>, NoMemory> {
        for _ in 0..ROUNDS {
            match self.run_tableau(network, level, pool, most)? {
                RunEnd::Solved => {}
                RunEnd::Infeasible => return Ok(Some(RelaxationEnd::Ray)),
                RunEnd::OutOfSteps => return Ok(Some(RelaxationEnd::Bound)),
                RunEnd::Lost => return Ok(None),
            }
            self.read_shares(level);
            if level.tableau.objective() >= most || !self.add_broken(network, level, pool)? {
                break;
            }
        }
        Ok(Some(RelaxationEnd::Bound))
    }

    // Makes pivots until the program is solved or the price is past `most`. Where numbers got too
    // large or inexact, the tableau is built anew once.
    fn run_tableau(
        &mut self,
        network: &ScaledNetwork,
        level: &mut Level,
        pool: &CutPool,
        most: i64,
    ) -> Result<RunEnd, NoMemory> {
        if level.tableau.pivots() > MOST_PIVOTS {
            self.rebuild(network, level, pool)?;
        }
        match run_until(level, most)? {
            RunEnd::Lost => {
                self.rebuild(network, level, pool)?;
                run_until(level, most)
            }
            outcome => Ok(outcome),
        }
    }

    // Builds the tableau anew from its cuts and links.
    fn rebuild(
        &mut self,
        network: &ScaledNetwork,
        level: &mut Level,
        pool: &CutPool,
    ) -> Result<(), NoMemory> {
        level.tableau.cuts(&mut self.numbers)?;
        self.links.note(&level.tableau)?;
        level.restart_tableau(network, self.prices.as_slice())?;
        for number in self.numbers.as_slice() {
            let line = self.live.line(pool, *number)?;
            level.tableau.add_cut(*number, line)?;
        }
        self.links.add_noted(network, &mut level.tableau)
    }

    // Adds the broken links and the cuts that lack most, and answers whether there were any.
    fn add_broken(
        &mut self,
        network: &ScaledNetwork,
        level: &mut Level,
        pool: &CutPool,
    ) -> Result<bool, NoMemory> {
        level.tableau.drop_slack_cuts(MET_BY_FAR);
        let shares = self.shares.as_slice();
        let has_links = self.links.add_broken(network, &mut level.tableau, shares)?;
        let count = self.live.broken(shares, LACKING)?.len();
        let mut added = 0usize;
        for place in 0..count {
            if added < ADDED && self.add_broken_at(network, level, pool, place)? {
                added = added.saturating_add(1);
            }
        }
        Ok(added > 0 || has_links)
    }

    // Adds a broken cut, where its limit is in force, and answers whether it did.
    fn add_broken_at(
        &mut self,
        network: &ScaledNetwork,
        level: &mut Level,
        pool: &CutPool,
        place: usize,
    ) -> Result<bool, NoMemory> {
        let Some(number) = self.live.broken_at(place) else {
            return Ok(false);
        };
        if number >= pool.len() || !network.is_in_force(pool.get(number).limit, &level.marks) {
            return Ok(false);
        }
        self.live.use_cut(number);
        let line = self.live.line(pool, number)?;
        level.tableau.add_cut(number, line)?;
        Ok(true)
    }
}

// Makes pivots until the program is solved or the price is past `most`.
fn run_until(level: &mut Level, most: i64) -> Result<RunEnd, NoMemory> {
    for _ in 0..RUNS {
        match level.tableau.run(STEPS)? {
            RunEnd::OutOfSteps => {}
            outcome => return Ok(outcome),
        }
        if level.tableau.objective() >= most {
            break;
        }
    }
    Ok(RunEnd::OutOfSteps)
}
