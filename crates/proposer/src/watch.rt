use crate::forced::Forced;
use crate::level::Level;
use fixed_point::{ONE, product, quotient};
use geo_base::NoMemory;
use plan_inverse::LimitMatrix;
use scaled_network::{Bearing, Mark, Marks, ScaledNetwork};
use std::alloc::Global;

// A limit is broken that bears a plan with more than this: 1 and 2^-20.
const BROKEN: i64 = ONE + (1 << 12);

// What a limit has left counts as this at least, where what a candidate takes of it is told: a
// 1024th.
const LEAST_LEFT: i64 = 1 << 22;

/// What limits bear under the upper plan of a node, and how tight they get without each open
/// candidate. What is known of the candidates stays as long as nodes have one upper plan and the same
/// limits in force.
#[derive(Drop)]
pub(crate) struct Watch {
    // The node that was measured last.
    marks: Marks,
    // The strength of each limit that is in force; 0 of the others. `measured` is that of a further
    // node.
    strengths: Vec<i64>,
    measured: Vec<i64>,
    // What each limit that is in force bears.
    matrices: Vec<LimitMatrix>,
    // By which part of what the limits have left they get tighter without each candidate, at most.
    tightness: Vec<i64>,
    // The open candidates before this one aren't needed.
    tested: u32,
}

impl Watch {
    /// That of no network. It takes no memory.
    pub fn new(alloc: Global) -> Watch {
        Watch {
            marks: Marks::new(alloc),
            strengths: Vec::new(alloc),
            measured: Vec::new(alloc),
            matrices: Vec::new(alloc),
            tightness: Vec::new(alloc),
            tested: 0,
        }
    }

    /// Measures the limits at a node.
    pub fn measure(
        &mut self,
        network: &ScaledNetwork,
        bearing: &mut Bearing,
        level: &Level,
    ) -> Result<(), NoMemory> {
        bearing.look_at_none(network);
        self.measured.clear();
        self.matrices.clear();
        let mut limit = 0u32;
        for _ in network.owners() {
            let matrix = if network.is_in_force(limit, &level.marks) {
                bearing.limit_matrix(network, &level.upper, limit)
            } else {
                LimitMatrix::zero(0)
            };
            self.measured.push(matrix.strength())?;
            self.matrices.push(matrix)?;
            limit = limit.saturating_add(1);
        }
        let is_known = have_one_upper_plan(&self.marks, &level.marks)
            && self.measured.as_slice() == self.strengths.as_slice();
        self.marks.copy_from(&level.marks)?;
        if !is_known {
            self.begin(network)?;
        }
        Ok(())
    }

    // Begins with the strengths that were measured: no candidate was tested under them.
    fn begin(&mut self, network: &ScaledNetwork) -> Result<(), NoMemory> {
        std::mem::swap(&mut self.strengths, &mut self.measured);
        self.tested = 0;
        self.tightness.clear();
        self.tightness.resize(network.prices().len(), 0)?;
        Ok(())
    }

    /// The limit in force that the upper plan breaks most, if any.
    pub fn broken_limit(&self) -> Option<u32> {
        let mut most = BROKEN;
        let mut broken = None;
        let mut limit = 0u32;
        for strength in self.strengths.as_slice() {
            if *strength > most {
                most = *strength;
                broken = Some(limit);
            }
            limit = limit.saturating_add(1);
        }
        broken
    }

    /// By which part of what the limits have left they get tighter without a candidate, at most, in
    /// fixed point: 0 where that wasn't asked.
    pub fn tightness(&self, candidate: u32) -> i64 {
        self.tightness.get(candidate as usize).copied().unwrap_or(0)
    }

    /// The first open candidate whose own limits the upper plan breaks.
    pub fn shut_owner(
        &self,
        network: &ScaledNetwork,
        bearing: &mut Bearing,
        level: &Level,
    ) -> Option<Forced> {
        bearing.look_at_none(network);
        let mut limit = 0u32;
        for owner in network.owners() {
            if let Some(candidate) = *owner
                && level.marks.get(candidate) == Mark::Open
                && bearing.is_above(network, &level.upper, limit, BROKEN)
            {
                return Some(Forced {
                    candidate,
                    is_in: false,
                });
            }
            limit = limit.saturating_add(1);
        }
        None
    }

    /// The first open candidate without which a limit in force is broken, of those that weren't tested
    /// yet. How tight the limits get without each of those before it is kept.
    pub fn needed(
        &mut self,
        network: &ScaledNetwork,
        bearing: &mut Bearing,
        level: &Level,
    ) -> Result<Option<Forced>, NoMemory> {
        let mut candidate = 0u32;
        for mark in level.marks.all() {
            if *mark == Mark::Open
                && candidate >= self.tested
                && self.is_needed(network, bearing, level, candidate)?
            {
                self.tested = candidate;
                return Ok(Some(Forced {
                    candidate,
                    is_in: true,
                }));
            }
            candidate = candidate.saturating_add(1);
        }
        self.tested = candidate;
        Ok(None)
    }

    // Whether a limit in force is broken without a candidate; if none is, how tight they get is kept.
    fn is_needed(
        &mut self,
        network: &ScaledNetwork,
        bearing: &mut Bearing,
        level: &Level,
        candidate: u32,
    ) -> Result<bool, NoMemory> {
        bearing.look_at(network, &level.upper, candidate, ONE)?;
        let mut tightest = 0i64;
        let mut limit = 0u32;
        for (strength, matrix) in self.strengths.iter().zip(self.matrices.as_slice()) {
            if *strength > 0 {
                let after = bearing.changed(network, limit, *matrix);
                if after.is_above(BROKEN) {
                    return Ok(true);
                }
                tightest = tighter(tightest, *strength, after);
            }
            limit = limit.saturating_add(1);
        }
        if let Some(place) = self.tightness.as_mut_slice().get_mut(candidate as usize) {
            *place = tightest;
        }
        Ok(false)
    }
}

// Whether two nodes leave out the same candidates.
fn have_one_upper_plan(first: &Marks, second: &Marks) -> bool {
    if first.all().len() != second.all().len() {
        return false;
    }
    for (mark, other) in first.all().iter().zip(second.all()) {
        if (*mark == Mark::Outside) != (*other == Mark::Outside) {
            return false;
        }
    }
    true
}

// The part of what a limit has left that goes where its strength rises, where it is more than
// `tightest`; else that.
fn tighter(tightest: i64, before: i64, after: LimitMatrix) -> i64 {
    let left = ONE.wrapping_sub(before).max(LEAST_LEFT);
    let reached = before.saturating_add(product(tightest, left));
    if !after.is_above(reached) {
        return tightest;
    }
    tightest.max(quotient(after.strength().wrapping_sub(before), left))
}

/// Marks of the plan of all candidates whose share is past `least`, or inside.
pub(crate) fn rounded_up(
    level: &Level,
    shares: &[i64],
    least: i64,
    marks: &mut Marks,
) -> Result<(), NoMemory> {
    marks.copy_from(&level.marks)?;
    let mut candidate = 0u32;
    for share in shares {
        if level.marks.get(candidate) == Mark::Open {
            marks.set(
                candidate,
                if *share > least {
                    Mark::Inside
                } else {
                    Mark::Outside
                },
            );
        }
        candidate = candidate.saturating_add(1);
    }
    Ok(())
}
