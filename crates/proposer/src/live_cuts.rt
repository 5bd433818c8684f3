use cut_columns::{Broken, CutColumns};
use cut_pool::CutPool;
use fixed_point::ratio;
use geo_base::NoMemory;
use scaled_network::{Marks, ScaledNetwork};
use std::alloc::Global;

// So many cuts are looked at, at most.
const PLACES: usize = 512;

// A cut by its number in the pool, and when it was last broken.
#[derive(Clone, Copy)]
struct Live {
    cut: u32,
    used: u64,
}

/// The cuts of a pool that are looked at first: those that shares broke last.
#[derive(Drop)]
pub(crate) struct LiveCuts {
    columns: CutColumns,
    live: Vec<Live>,
    broken: Vec<Broken>,
    // The coefficients of a cut over its bound.
    line: Vec<i64>,
    // How many cuts of the pool were brought in.
    seen: u32,
    clock: u64,
}

impl LiveCuts {
    /// No cuts, for so many candidates.
    pub fn new(alloc: Global, candidates: usize) -> Result<LiveCuts, NoMemory> {
        Ok(LiveCuts {
            columns: CutColumns::new(alloc, PLACES, candidates)?,
            live: Vec::new(alloc),
            broken: Vec::new(alloc),
            line: Vec::new(alloc),
            seen: 0,
            clock: 0,
        })
    }

    /// Brings in the cuts that the pool got since the last call, where their limit is in force for the
    /// marks.
    pub fn follow(
        &mut self,
        network: &ScaledNetwork,
        marks: &Marks,
        pool: &CutPool,
    ) -> Result<(), NoMemory> {
        for number in self.seen..pool.len() {
            if network.is_in_force(pool.get(number).limit, marks) {
                self.bring_in(pool, number)?;
            }
        }
        self.seen = pool.len();
        Ok(())
    }

    // Brings in a cut; where there is no place, for the one that wasn't broken for longest.
    fn bring_in(&mut self, pool: &CutPool, number: u32) -> Result<(), NoMemory> {
        if number >= pool.len() {
            return Ok(());
        }
        if self.live.len() >= PLACES {
            self.drop_oldest();
        }
        let cut = pool.get(number);
        let coefficients = cut.coefficients.as_slice();
        if self.columns.push(number, coefficients, cut.bound)? {
            self.live.push(Live {
                cut: number,
                used: self.clock,
            })?;
        }
        Ok(())
    }

    // Drops the cut that wasn't broken for longest.
    fn drop_oldest(&mut self) {
        let mut oldest = 0;
        let mut least = u64::MAX;
        for (place, live) in self.live.iter().enumerate() {
            if live.used < least {
                least = live.used;
                oldest = place;
            }
        }
        if oldest < self.live.len() {
            let _dropped = self.live.swap_remove(oldest);
            self.columns.remove(oldest);
        }
    }

    /// The cuts of which shares lack more than `least` of the bound, those that lack most first.
    pub fn broken(&mut self, shares: &[i64], least: i64) -> Result<&[Broken], NoMemory> {
        self.clock = self.clock.saturating_add(1);
        self.columns.most_broken(shares, least, &mut self.broken)?;
        Ok(self.broken.as_slice())
    }

    /// A cut that was found broken last, by its place among those.
    pub fn broken_at(&self, place: usize) -> Option<u32> {
        self.broken.get(place).map(|broken| broken.cut)
    }

    /// Notes that a cut is of use.
    pub fn use_cut(&mut self, number: u32) {
        for live in self.live.iter_mut() {
            if live.cut == number {
                live.used = self.clock;
            }
        }
    }

    /// The coefficients of a cut over its bound; none where the pool has no cut of that number.
    pub fn line(&mut self, pool: &CutPool, number: u32) -> Result<&[i64], NoMemory> {
        self.line.clear();
        if number < pool.len() {
            let cut = pool.get(number);
            for coefficient in cut.coefficients.as_slice() {
                self.line
                    .push(ratio(*coefficient as u64, cut.bound as u64))?;
            }
        }
        Ok(self.line.as_slice())
    }
}
