use crate::broken::Broken;
use geo_base::NoMemory;
use std::alloc::Global;

// One with 28 fractional bits.
const ONE_28: i64 = 1 << 28;

/// At most so many cuts, each with a number, a bound and a coefficient for each candidate, below 2^24.
/// Each candidate has a column of places for its coefficients.
#[derive(Drop)]
pub struct CutColumns {
    entries: Vec<u32>,
    // How many cuts there are places for: at least 1.
    places: usize,
    numbers: Vec<u32>,
    bounds: Vec<u32>,
    // What each cut reaches, in whole numbers and with 28 fractional bits.
    sums: Vec<u32>,
    parts: Vec<i64>,
}

impl CutColumns {
    /// No cuts, with places for so many cuts and candidates.
    pub fn new(alloc: Global, places: usize, candidates: usize) -> Result<CutColumns, NoMemory> {
        let mut entries = Vec::new(alloc);
        entries.resize(candidates.saturating_mul(places.max(1)), 0)?;
        Ok(CutColumns {
            entries,
            places: places.max(1),
            numbers: Vec::new(alloc),
            bounds: Vec::new(alloc),
            sums: Vec::new(alloc),
            parts: Vec::new(alloc),
        })
    }

    /// How many cuts there are.
    pub fn len(&self) -> usize {
        self.numbers.len()
    }

    /// Adds a cut at the end, and answers whether there was a place for it.
    pub fn push(&mut self, cut: u32, coefficients: &[u32], bound: u32) -> Result<bool, NoMemory> {
        let at = self.numbers.len();
        if at >= self.places {
            return Ok(false);
        }
        let columns = self
            .entries
            .as_mut_slice()
            .chunks_exact_mut(self.places.max(1));
        for (column, coefficient) in columns.zip(coefficients) {
            write(column, at, *coefficient);
        }
        self.numbers.push(cut)?;
        self.bounds.push(bound)?;
        Ok(true)
    }

    /// Takes the cut at a place out: the last one takes its place.
    pub fn remove(&mut self, at: usize) {
        if at >= self.numbers.len() || at >= self.bounds.len() {
            return;
        }
        let last = self.numbers.len() - 1;
        let columns = self
            .entries
            .as_mut_slice()
            .chunks_exact_mut(self.places.max(1));
        for column in columns {
            let moved = column.get(last).copied().unwrap_or(0);
            write(column, at, moved);
        }
        let _number = self.numbers.swap_remove(at);
        let _bound = self.bounds.swap_remove(at);
    }

    /// The number of the first cut that a plan breaks: one whose bound the coefficients of the chosen
    /// candidates don't sum to.
    pub fn first_broken(&mut self, plan: &[bool]) -> Result<Option<u32>, NoMemory> {
        self.sums.clear();
        self.sums.resize(self.numbers.len(), 0)?;
        let columns = self.entries.as_slice().chunks_exact(self.places.max(1));
        for (column, is_chosen) in columns.zip(plan) {
            if *is_chosen {
                add_column(self.sums.as_mut_slice(), column);
            }
        }
        let sums = self.sums.iter().zip(self.bounds.as_slice());
        for ((sum, bound), cut) in sums.zip(self.numbers.as_slice()) {
            if *sum < *bound {
                return Ok(Some(*cut));
            }
        }
        Ok(None)
    }

    /// Writes the cuts of which shares, in fixed point with 32 fractional bits, lack more than `least`
    /// of the bound: those that lack most first.
    pub fn most_broken(
        &mut self,
        shares: &[i64],
        least: i64,
        broken: &mut Vec<Broken>,
    ) -> Result<(), NoMemory> {
        self.reach_by_shares(shares)?;
        broken.clear();
        let parts = self.parts.iter().zip(self.bounds.as_slice());
        for ((part, bound), cut) in parts.zip(self.numbers.as_slice()) {
            let lacking = lacking_part(*part, *bound);
            if lacking > least {
                broken.push(Broken { cut: *cut, lacking })?;
            }
        }
        broken
            .as_mut_slice()
            .sort_unstable_by_key(|cut| cut.lacking.wrapping_neg());
        Ok(())
    }

    // Writes what each cut reaches under shares.
    fn reach_by_shares(&mut self, shares: &[i64]) -> Result<(), NoMemory> {
        self.parts.clear();
        self.parts.resize(self.numbers.len(), 0)?;
        let columns = self.entries.as_slice().chunks_exact(self.places.max(1));
        for (column, share) in columns.zip(shares) {
            if *share >> 4 != 0 {
                add_part(self.parts.as_mut_slice(), *share >> 4, column);
            }
        }
        Ok(())
    }
}

// Writes a coefficient to a place of a column.
fn write(column: &mut [u32], at: usize, coefficient: u32) {
    if let Some(place) = column.get_mut(at) {
        *place = coefficient;
    }
}

// Adds a column to sums.
fn add_column(sums: &mut [u32], column: &[u32]) {
    for (sum, coefficient) in sums.iter_mut().zip(column) {
        *sum = sum.wrapping_add(*coefficient);
    }
}

// Adds a share of a column to sums.
fn add_part(sums: &mut [i64], share: i64, column: &[u32]) {
    for (sum, coefficient) in sums.iter_mut().zip(column) {
        *sum = sum.wrapping_add(share.wrapping_mul(*coefficient as i64));
    }
}

// The part of a bound that isn't reached, with 32 fractional bits.
fn lacking_part(reached: i64, bound: u32) -> i64 {
    let reached_part = reached.wrapping_div(i64::from(bound.max(1)));
    ONE_28.wrapping_sub(reached_part).wrapping_mul(16)
}
