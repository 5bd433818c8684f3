use fixed_point::{ONE, quotient};
use geo_base::NoMemory;
use plan_inverse::{Inverse, InverseChange};
use scaled_network::{Bearing, ScaledNetwork};
use std::alloc::Global;

// How many candidates are taken out for a limit at most.
const MOST_DROPPED: u32 = 4;

// What taking a candidate out gains at least, in parts of the bound: 2^-10.
const LEAST_GAIN: i64 = 1 << 22;

// Strengths below this, 2^-14, are too weak to be divided by.
const LEAST_STRENGTH: i64 = 1 << 18;

// A candidate with a part of a share, and how the inverse changes where that is taken out.
#[derive(Drop)]
struct Part {
    candidate: u32,
    share: i64,
    change: InverseChange,
    // Whether it was taken out for the present limit.
    is_out: bool,
}

/// Takes candidates out of shares, for one limit after the other, where the cut of the limit's
/// weakest direction gets broken more than by their shares. It keeps its memory.
#[derive(Drop)]
pub struct Dropping {
    parts: Vec<Part>,
    count: usize,
    scratch: Vec<i64>,
    reduced: Inverse,
}

// A candidate to take out by its place among the parts, and what that gains.
#[derive(Clone, Copy)]
struct Gain {
    place: usize,
    gain: i64,
}

impl Dropping {
    /// No candidates. It takes no memory.
    pub fn new(alloc: Global) -> Dropping {
        Dropping {
            parts: Vec::new(alloc),
            count: 0,
            scratch: Vec::new(alloc),
            reduced: Inverse::new(alloc),
        }
    }

    /// The inverse under the shares without those that were taken out.
    pub fn reduced(&self) -> &Inverse {
        &self.reduced
    }

    /// Reads shares, with the inverse of their normal matrix: those neither 0 nor 1 can be taken out.
    pub fn start(
        &mut self,
        alloc: Global,
        network: &ScaledNetwork,
        shares: &[i64],
        inverse: &Inverse,
    ) -> Result<(), NoMemory> {
        self.count = 0;
        let mut candidate = 0u32;
        for share in shares {
            if *share > LEAST_STRENGTH && *share < ONE - LEAST_STRENGTH {
                self.add_part(alloc, candidate, *share)?;
                self.change_part(network, inverse)?;
            }
            candidate = candidate.saturating_add(1);
        }
        Ok(())
    }

    // Adds a candidate at the end; its change is found next.
    fn add_part(&mut self, alloc: Global, candidate: u32, share: i64) -> Result<(), NoMemory> {
        if self.count >= self.parts.len() {
            self.parts.push(Part {
                candidate,
                share,
                change: InverseChange::new(alloc),
                is_out: false,
            })?;
        }
        if let Some(part) = self.parts.as_mut_slice().get_mut(self.count) {
            part.candidate = candidate;
            part.share = share;
        }
        self.count = self.count.saturating_add(1);
        Ok(())
    }

    // Finds the change of the last candidate.
    fn change_part(&mut self, network: &ScaledNetwork, inverse: &Inverse) -> Result<(), NoMemory> {
        let last = self.count.saturating_sub(1);
        if let Some(part) = self.parts.as_mut_slice().get_mut(last) {
            let rows = network.rows(part.candidate);
            inverse.change(rows, part.share, &mut part.change, &mut self.scratch)?;
        }
        Ok(())
    }

    /// Takes candidates out for a limit that bears shares with this strength, and answers whether any
    /// was. `bearing` is overwritten.
    pub fn run(
        &mut self,
        network: &ScaledNetwork,
        bearing: &mut Bearing,
        inverse: &Inverse,
        limit: u32,
        strength: i64,
    ) -> Result<bool, NoMemory> {
        for part in self.parts.iter_mut() {
            part.is_out = false;
        }
        let Some(first) = self.first_gain(network, inverse, limit, strength) else {
            return Ok(false);
        };
        self.reduced.copy_from(inverse)?;
        self.take_out(network, bearing, first)?;
        for _ in 1..MOST_DROPPED {
            let now = bearing.strength(network, &self.reduced, limit);
            let Some(next) = self.next_gain(network, bearing, limit, now)? else {
                break;
            };
            self.take_out(network, bearing, next)?;
        }
        Ok(true)
    }

    // The candidate that gains most where it is taken out first.
    fn first_gain(
        &self,
        network: &ScaledNetwork,
        inverse: &Inverse,
        limit: u32,
        strength: i64,
    ) -> Option<Gain> {
        let squares = network.squares(limit);
        let before = inverse.limit_matrix(squares);
        let mut best = None;
        let mut most = LEAST_GAIN;
        for (place, part) in self.parts.iter().take(self.count).enumerate() {
            let after = part.change.changed(squares, before).strength();
            let gain = gain_of(strength, after, part.share);
            if gain > most {
                most = gain;
                best = Some(Gain { place, gain });
            }
        }
        best
    }

    // The candidate that gains most where it is taken out of what is left.
    fn next_gain(
        &self,
        network: &ScaledNetwork,
        bearing: &mut Bearing,
        limit: u32,
        strength: i64,
    ) -> Result<Option<Gain>, NoMemory> {
        let before = bearing.limit_matrix(network, &self.reduced, limit);
        let mut best = None;
        let mut most = LEAST_GAIN;
        for (place, part) in self.parts.iter().take(self.count).enumerate() {
            if !part.is_out {
                bearing.look_at(network, &self.reduced, part.candidate, part.share)?;
                let after = bearing.changed(network, limit, before).strength();
                let gain = gain_of(strength, after, part.share);
                if gain > most {
                    most = gain;
                    best = Some(Gain { place, gain });
                }
            }
        }
        bearing.look_at_none(network);
        Ok(best)
    }

    // Takes a candidate out of what is left.
    fn take_out(
        &mut self,
        network: &ScaledNetwork,
        bearing: &mut Bearing,
        gain: Gain,
    ) -> Result<(), NoMemory> {
        if let Some(part) = self.parts.as_mut_slice().get_mut(gain.place) {
            part.is_out = true;
            bearing.look_at(network, &self.reduced, part.candidate, part.share)?;
            bearing.make(network, &mut self.reduced);
        }
        Ok(())
    }
}

// What taking a share out gains of the bound: by so much the rest reaches less of it, less the share,
// which then counts whole.
fn gain_of(before: i64, after: i64, share: i64) -> i64 {
    if after <= before || before < LEAST_STRENGTH {
        return 0;
    }
    let less = quotient(ONE, before).wrapping_sub(quotient(ONE, after));
    less.wrapping_sub(share)
}
