use crate::forced::Forced;
use crate::level::Level;
use cut_pool::CutPool;
use dual_ascent::{Dual, Share};
use geo_base::NoMemory;
use scaled_network::{Mark, ScaledNetwork};
use std::alloc::Global;

// What a station and its open candidates give a bound: the divisor times its price and the sum of the
// reduced prices below 0, and whether each plan of the node pays it.
#[derive(Clone, Copy)]
struct StationTerm {
    whole: i128,
    is_paid: bool,
}

impl StationTerm {
    // The term of no station: that of candidates whose station costs nothing.
    fn of_none() -> StationTerm {
        StationTerm {
            whole: 0,
            is_paid: true,
        }
    }

    // What it gives at least: nothing where that is less and not each plan pays it.
    fn least(self) -> i128 {
        if self.is_paid {
            self.whole
        } else {
            self.whole.min(0)
        }
    }

    // By how much a bound rises in the child that takes an open candidate of the station.
    fn rise_inside(self, reduced: i128) -> i128 {
        let whole = self.whole.wrapping_add(reduced.max(0));
        whole.wrapping_sub(self.least())
    }

    // By how much a bound rises in the child that leaves it out.
    fn rise_outside(self, reduced: i128) -> i128 {
        let without = StationTerm {
            whole: self.whole.wrapping_sub(reduced.min(0)),
            is_paid: self.is_paid,
        };
        without.least().wrapping_sub(self.least())
    }
}

/// Reduced prices of a dual bound: the divisor times the price of each candidate, less what the
/// shares take off it, and what stations give. They fix candidates.
#[derive(Drop)]
pub(crate) struct Fixing {
    reduced: Vec<i128>,
    stations: Vec<StationTerm>,
}

impl Fixing {
    /// That of no candidates. It takes no memory.
    pub fn new(alloc: Global) -> Fixing {
        Fixing {
            reduced: Vec::new(alloc),
            stations: Vec::new(alloc),
        }
    }

    /// Whether a dual bound of a node is `price` or more.
    pub fn is_past(
        &mut self,
        network: &ScaledNetwork,
        level: &Level,
        pool: &CutPool,
        dual: &Dual,
        price: u64,
    ) -> Result<bool, NoMemory> {
        Ok(self.sum(network, level, pool, dual)? > needed(dual, price))
    }

    // The divisor times what a dual bound of a node is, before it is rounded up.
    fn sum(
        &mut self,
        network: &ScaledNetwork,
        level: &Level,
        pool: &CutPool,
        dual: &Dual,
    ) -> Result<i128, NoMemory> {
        self.start(network, dual)?;
        let bounds = self.take_off_all(pool, dual);
        self.sum_stations(network, level, dual)?;
        let candidates = self.least_sum(network, level);
        let stations = self.stations_sum();
        Ok(bounds.wrapping_add(candidates).wrapping_add(stations))
    }

    /// Finds the open candidates that a dual bound fixes at a node, where plans that cost `price` or
    /// more aren't sought: the other child of a split on one has a bound of that much.
    pub fn find(
        &mut self,
        network: &ScaledNetwork,
        level: &mut Level,
        pool: &CutPool,
        dual: &Dual,
        price: u64,
    ) -> Result<(), NoMemory> {
        let sum = self.sum(network, level, pool, dual)?;
        let needed = needed(dual, price);
        level.fixed.clear();
        let mut candidate = 0u32;
        for (mark, reduced) in level.marks.all().iter().zip(self.reduced.as_slice()) {
            let term = self.term_of(network, candidate);
            let is_in = sum.wrapping_add(term.rise_outside(*reduced)) > needed;
            let is_out = sum.wrapping_add(term.rise_inside(*reduced)) > needed;
            if *mark == Mark::Open && (is_in || is_out) {
                level.fixed.push(Forced { candidate, is_in })?;
            }
            candidate = candidate.saturating_add(1);
        }
        Ok(())
    }

    // The term of a candidate's station.
    fn term_of(&self, network: &ScaledNetwork, candidate: u32) -> StationTerm {
        let Some(station) = network.stations().of(candidate) else {
            return StationTerm::of_none();
        };
        let found = self.stations.get(station as usize).copied();
        found.unwrap_or(StationTerm::of_none())
    }

    // Sums up what the stations and their open candidates give.
    fn sum_stations(
        &mut self,
        network: &ScaledNetwork,
        level: &Level,
        dual: &Dual,
    ) -> Result<(), NoMemory> {
        self.stations.clear();
        let mut station = 0u32;
        for price in network.stations().prices() {
            let whole = (dual.d as i128).wrapping_mul(*price as i128);
            let open = self.open_sum(network, level, station);
            self.stations.push(StationTerm {
                whole: whole.wrapping_add(open),
                is_paid: network.stations().is_paid(station, &level.marks),
            })?;
            station = station.saturating_add(1);
        }
        Ok(())
    }

    // The sum of the reduced prices below 0 of the open candidates of a station.
    fn open_sum(&self, network: &ScaledNetwork, level: &Level, station: u32) -> i128 {
        let mut sum = 0i128;
        let mut candidate = 0u32;
        for reduced in self.reduced.as_slice() {
            let is_open = level.marks.get(candidate) == Mark::Open;
            if is_open && network.stations().of(candidate) == Some(station) {
                sum = sum.wrapping_add((*reduced).min(0));
            }
            candidate = candidate.saturating_add(1);
        }
        sum
    }

    // What the stations give at least.
    fn stations_sum(&self) -> i128 {
        let mut sum = 0i128;
        for term in self.stations.as_slice() {
            sum = sum.wrapping_add(term.least());
        }
        sum
    }

    // Starts with the divisor times the prices.
    fn start(&mut self, network: &ScaledNetwork, dual: &Dual) -> Result<(), NoMemory> {
        self.reduced.clear();
        for price in network.prices() {
            self.reduced
                .push((dual.d as i128).wrapping_mul(*price as i128))?;
        }
        Ok(())
    }

    // Takes the shares off the prices, and answers what they give by the bounds of their cuts.
    fn take_off_all(&mut self, pool: &CutPool, dual: &Dual) -> i128 {
        let mut sum = 0i128;
        for share in dual.shares.as_slice() {
            sum = sum.wrapping_add(self.take_off(pool, *share));
        }
        sum
    }

    // Takes a share off the prices, and answers what it gives by its cut's bound.
    fn take_off(&mut self, pool: &CutPool, share: Share) -> i128 {
        if share.cut >= pool.len() {
            return 0;
        }
        let cut = pool.get(share.cut);
        for (place, coefficient) in self.reduced.iter_mut().zip(cut.coefficients.as_slice()) {
            let taken = (share.y as i128).wrapping_mul(*coefficient as i128);
            *place = place.wrapping_sub(taken);
        }
        (share.y as i128).wrapping_mul(cut.bound as i128)
    }

    // What the candidates give at least: the inner ones all, and the open ones what is below 0, where no
    // station counts it.
    fn least_sum(&self, network: &ScaledNetwork, level: &Level) -> i128 {
        let mut sum = 0i128;
        let mut candidate = 0u32;
        for (mark, reduced) in level.marks.all().iter().zip(self.reduced.as_slice()) {
            let is_counted = network.stations().of(candidate).is_some();
            sum = sum.wrapping_add(match mark {
                Mark::Inside => *reduced,
                Mark::Open if is_counted => 0,
                Mark::Open => (*reduced).min(0),
                Mark::Outside => 0,
            });
            candidate = candidate.saturating_add(1);
        }
        sum
    }
}

// The divisor times a price less 1: a bound past it is rounded up to the price.
fn needed(dual: &Dual, price: u64) -> i128 {
    (dual.d as i128).wrapping_mul((price as i128).wrapping_sub(1))
}
