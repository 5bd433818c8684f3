use fixed_point::{Divisor, ONE, product};
use geo_base::NoMemory;
use scaled_network::{Bearing, ScaledNetwork};
use std::alloc::Global;

// The greatest entries to which directions are rounded: fine first, since coarser ones serve more
// often only where they break the cut as much.
const GREATEST: [i64; 4] = [32768, 1, 2, 4];

// A coarser rounding has to break the cut by so much more: 2^-30.
const MORE: i64 = 4;

// A load below this, 2^-26, is too small to be divided by.
const LEAST_LOAD: i64 = 1 << 6;

/// A direction rounded to whole numbers, and by which part of its bound shares break the cut. It keeps
/// its memory.
#[derive(Drop)]
pub struct RoundedDirection {
    // The best entries so far, and those that are tried.
    best: Vec<i32>,
    tried: Vec<i32>,
    numbers: Vec<i64>,
    lacking: i64,
}

impl RoundedDirection {
    /// No direction. It takes no memory.
    pub fn new(alloc: Global) -> RoundedDirection {
        RoundedDirection {
            best: Vec::new(alloc),
            tried: Vec::new(alloc),
            numbers: Vec::new(alloc),
            lacking: 0,
        }
    }

    /// The entries of the best displacement since the start.
    pub fn entries(&self) -> &[i32] {
        self.best.as_slice()
    }

    /// By which part of its bound the shares break the cut of it, in fixed point.
    pub fn lacking(&self) -> i64 {
        self.lacking
    }

    /// Starts: only cuts that lack more than this part of their bound are taken.
    pub fn start(&mut self, least: i64) {
        self.best.clear();
        self.lacking = least;
    }

    /// Tries the direction of a limit that `bearing` found last, in several roundings.
    pub fn try_direction(
        &mut self,
        network: &ScaledNetwork,
        bearing: &mut Bearing,
        limit: u32,
        shares: &[i64],
    ) -> Result<(), NoMemory> {
        for greatest in GREATEST {
            bearing.round(network, greatest, &mut self.tried)?;
            network.scale(self.tried.as_slice(), greatest, &mut self.numbers)?;
            let lacking = lacking_at(network, limit, shares, self.numbers.as_slice());
            if lacking > self.lacking.saturating_add(MORE) {
                self.lacking = lacking;
                std::mem::swap(&mut self.best, &mut self.tried);
            }
        }
        Ok(())
    }
}

// The part of its bound that a cut lacks under shares: each candidate counts at most as the bound.
fn lacking_at(network: &ScaledNetwork, limit: u32, shares: &[i64], numbers: &[i64]) -> i64 {
    let load = network.load(limit, numbers);
    if load < LEAST_LOAD {
        return 0;
    }
    let divisor = Divisor::new(load);
    let mut lacking = ONE;
    let mut candidate = 0u32;
    for share in shares {
        if *share > 0 {
            let part = divisor
                .quotient(network.energy(candidate, numbers))
                .min(ONE);
            lacking = lacking.wrapping_sub(product(*share, part));
        }
        candidate = candidate.saturating_add(1);
    }
    lacking
}
