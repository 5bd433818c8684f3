use crate::level::Level;
use crate::links::station_share;
use crate::watch::Watch;
use fixed_point::{ONE, product};
use geo_base::NoMemory;
use plan_inverse::Inverse;
use scaled_network::{Bearing, Mark, ScaledNetwork};
use std::alloc::Global;
use std::cmp::Reverse;
use strong_branch::Branching;

// Shares within a hundredth of 0 or 1 count as whole.
const WHOLE: i64 = ONE / 100;

// A twentieth, which each candidate counts beside how tight limits get without it, and a tenth.
const TWENTIETH: i64 = ONE / 20;

const TENTH: i64 = ONE / 10;

// Of so many candidates each side is tried, for so many pivots; twice as many where an owner is the
// first, of which the others go by shares and price alone.
const TRIED: usize = 3;

const STEPS: u32 = 8;

// An owner goes first that has at least this share, 0.3, and whose limit the shares break by this
// much, a fiftieth, or five times over at most.
const OWNER_SHARE: i64 = ONE / 10 * 3;

const OWNER_BROKEN: i64 = ONE + ONE / 50;

const OWNER_MOST: i64 = 5 * ONE;

// What an owner counts more than any other candidate.
const OWNER_FIRST: i128 = 1 << 60;

// A candidate by its number, and what speaks for a split on it.
#[derive(Clone, Copy)]
struct Scored {
    candidate: u32,
    score: i128,
}

/// The choice of the candidate that a node is split on.
#[derive(Drop)]
pub(crate) struct Splitting {
    branching: Branching,
    scored: Vec<Scored>,
    shared: Inverse,
}

impl Splitting {
    /// No choice yet. It takes no memory.
    pub fn new(alloc: Global) -> Splitting {
        Splitting {
            branching: Branching::new(alloc),
            scored: Vec::new(alloc),
            shared: Inverse::new(alloc),
        }
    }

    /// The open candidate to split a node on, at the shares of its linear program: owners first whose
    /// limit the shares break; else the one of the best scored that lifts the bound of both children
    /// most; or, where all shares are whole, the dearest one that is chosen. None where none is open.
    pub fn choose(
        &mut self,
        network: &ScaledNetwork,
        bearing: &mut Bearing,
        level: &Level,
        watch: &Watch,
        shares: &[i64],
    ) -> Result<Option<u32>, NoMemory> {
        self.score_all(network, level, watch, shares)?;
        let has_owner = self.score_owners(network, bearing, level, shares)?;
        if self.scored.is_empty() {
            return Ok(dearest_chosen(network, level, shares));
        }
        self.sort();
        self.branching.start(1 << 20);
        self.probe_first(network, level)?;
        if has_owner {
            self.score_by_price(network, level, shares)?;
            self.sort();
            self.probe_first(network, level)?;
        }
        Ok(self.branching.best().map(|probe| probe.candidate))
    }

    // Sorts the scored candidates, the best first.
    fn sort(&mut self) {
        self.scored
            .as_mut_slice()
            .sort_unstable_by_key(|scored| Reverse((scored.score, scored.candidate)));
    }

    // Tries the first of the scored candidates.
    fn probe_first(&mut self, network: &ScaledNetwork, level: &Level) -> Result<(), NoMemory> {
        for scored in self.scored.iter().take(TRIED) {
            let candidate = scored.candidate;
            let station = station_share(network, candidate);
            let _probe = self
                .branching
                .probe(&level.tableau, candidate, station, STEPS)?;
        }
        Ok(())
    }

    // Scores the open candidates with a part of a share: by what is missing to a whole one, the price,
    // and how tight the limits get without it.
    fn score_all(
        &mut self,
        network: &ScaledNetwork,
        level: &Level,
        watch: &Watch,
        shares: &[i64],
    ) -> Result<(), NoMemory> {
        self.scored.clear();
        let mut candidate = 0u32;
        for share in shares {
            if level.marks.get(candidate) == Mark::Open && is_part(*share) {
                let tight = watch.tightness(candidate).saturating_add(TWENTIETH);
                let missing = ONE.wrapping_add(TENTH).wrapping_sub(*share);
                let factor = product(missing, tight.min(ONE << 20)) as i128;
                self.scored.push(Scored {
                    candidate,
                    score: factor.wrapping_mul(price_at(network, level, candidate) as i128),
                })?;
            }
            candidate = candidate.saturating_add(1);
        }
        Ok(())
    }

    // Scores the same candidates by their price and by how far the share is from a whole one.
    fn score_by_price(
        &mut self,
        network: &ScaledNetwork,
        level: &Level,
        shares: &[i64],
    ) -> Result<(), NoMemory> {
        self.scored.clear();
        let mut candidate = 0u32;
        for share in shares {
            if level.marks.get(candidate) == Mark::Open && is_part(*share) {
                let part = product(*share, ONE.wrapping_sub(*share)) as i128;
                let price = price_at(network, level, candidate) as i128;
                self.scored.push(Scored {
                    candidate,
                    score: part.wrapping_mul(price).wrapping_mul(price),
                })?;
            }
            candidate = candidate.saturating_add(1);
        }
        Ok(())
    }

    // Scores the open owners whose limit the shares break, above all others, and answers whether there
    // is one.
    fn score_owners(
        &mut self,
        network: &ScaledNetwork,
        bearing: &mut Bearing,
        level: &Level,
        shares: &[i64],
    ) -> Result<bool, NoMemory> {
        if !has_likely_owner(network, level, shares) {
            return Ok(false);
        }
        bearing.invert(network, shares, &mut self.shared)?;
        let mut is_found = false;
        let mut limit = 0u32;
        for owner in network.owners() {
            if let Some(candidate) = *owner
                && is_likely(level, shares, candidate)
            {
                let strength = bearing.strength(network, &self.shared, limit);
                if strength > OWNER_BROKEN {
                    let share = shares.get(candidate as usize).copied().unwrap_or(0);
                    let over = strength.wrapping_sub(ONE).min(OWNER_MOST);
                    let score = OWNER_FIRST.wrapping_mul(product(over, share) as i128);
                    self.scored.push(Scored { candidate, score })?;
                    is_found = true;
                }
            }
            limit = limit.saturating_add(1);
        }
        Ok(is_found)
    }
}

// Whether a share is neither 0 nor 1, nor close to either.
fn is_part(share: i64) -> bool {
    share > WHOLE && share < ONE - WHOLE
}

// Whether a candidate is open and its share is large enough for its own limits to be asked.
fn is_likely(level: &Level, shares: &[i64], candidate: u32) -> bool {
    let share = shares.get(candidate as usize).copied().unwrap_or(0);
    level.marks.get(candidate) == Mark::Open && share > OWNER_SHARE
}

// Whether there is such an owner.
fn has_likely_owner(network: &ScaledNetwork, level: &Level, shares: &[i64]) -> bool {
    for owner in network.owners() {
        if let Some(candidate) = *owner
            && is_likely(level, shares, candidate)
        {
            return true;
        }
    }
    false
}

// The dearest open candidate of those with a share above a half, or of all where there is none.
fn dearest_chosen(network: &ScaledNetwork, level: &Level, shares: &[i64]) -> Option<u32> {
    let mut best = None;
    let mut most = (false, 0u64);
    let mut candidate = 0u32;
    for mark in level.marks.all() {
        let share = shares.get(candidate as usize).copied().unwrap_or(0);
        let worth = (share > ONE / 2, price_at(network, level, candidate));
        if *mark == Mark::Open && (best.is_none() || worth > most) {
            most = worth;
            best = Some(candidate);
        }
        candidate = candidate.saturating_add(1);
    }
    best
}

// The price of a candidate, with that of its station where no plan of the node has to pay it.
fn price_at(network: &ScaledNetwork, level: &Level, candidate: u32) -> u64 {
    let station = network.stations().unpaid_price(candidate, &level.marks);
    network.price(candidate).saturating_add(station)
}
