use crate::forced::Forced;
use crate::links::station_share;
use dual_ascent::RelaxationEnd;
use dual_simplex::{CutMultiplier, Tableau};
use fixed_point::ONE;
use geo_base::NoMemory;
use plan_inverse::Inverse;
use scaled_network::{Bearing, Mark, Marks, ScaledNetwork};
use std::alloc::Global;

/// A node of the search: what it says of each candidate, the tableau of its linear program, the
/// multipliers of the last program that was solved there or at a node above it, the greatest first,
/// the candidates that they fix, and the inverse of the normal matrix of its upper plan.
#[derive(Drop)]
pub(crate) struct Level {
    pub marks: Marks,
    pub tableau: Tableau,
    pub end: Option<RelaxationEnd>,
    pub multipliers: Vec<CutMultiplier>,
    pub fixed: Vec<Forced>,
    pub upper: Inverse,
    // Whether the inverse lost digits and has to be found anew.
    is_stale: bool,
}

impl Level {
    /// The node of no candidates. It takes no memory.
    pub fn new(alloc: Global) -> Level {
        Level {
            marks: Marks::new(alloc),
            tableau: Tableau::new(alloc),
            end: None,
            multipliers: Vec::new(alloc),
            fixed: Vec::new(alloc),
            upper: Inverse::new(alloc),
            is_stale: false,
        }
    }

    /// Makes it a copy of another.
    pub fn copy_from(&mut self, other: &Level) -> Result<(), NoMemory> {
        self.marks.copy_from(&other.marks)?;
        self.tableau.copy_from(&other.tableau)?;
        self.keep(other.end, other.multipliers.as_slice())?;
        self.fixed.extend_from_slice(other.fixed.as_slice())?;
        self.upper.copy_from(&other.upper)?;
        self.is_stale = other.is_stale;
        Ok(())
    }

    /// Keeps multipliers, and how the linear program ended that has them. They fix no candidate yet.
    pub fn keep(
        &mut self,
        end: Option<RelaxationEnd>,
        multipliers: &[CutMultiplier],
    ) -> Result<(), NoMemory> {
        self.end = end;
        self.multipliers.clear();
        self.multipliers.extend_from_slice(multipliers)?;
        self.fixed.clear();
        Ok(())
    }

    /// The first open candidate that the multipliers fix. None where a candidate was decided as they
    /// don't fix it: the node ends by them.
    pub fn first_fixed(&self) -> Option<Forced> {
        let mut first = None;
        for forced in self.fixed.as_slice() {
            match self.marks.get(forced.candidate) {
                Mark::Open if first.is_none() => first = Some(*forced),
                Mark::Inside if !forced.is_in => return None,
                Mark::Outside if forced.is_in => return None,
                _ => {}
            }
        }
        first
    }

    /// Starts at a node, without cuts.
    pub fn start(
        &mut self,
        network: &ScaledNetwork,
        bearing: &mut Bearing,
        prices: &[i64],
        marks: &Marks,
    ) -> Result<(), NoMemory> {
        self.marks.copy_from(marks)?;
        self.restart_tableau(network, prices)?;
        self.keep(None, &[])?;
        self.is_stale = false;
        bearing.invert_upper(network, &self.marks, &mut self.upper)
    }

    /// Starts the tableau anew, without cuts and links.
    pub fn restart_tableau(
        &mut self,
        network: &ScaledNetwork,
        prices: &[i64],
    ) -> Result<(), NoMemory> {
        self.tableau.start(prices)?;
        let mut candidate = 0u32;
        for mark in self.marks.all() {
            if *mark != Mark::Open {
                fix(&mut self.tableau, network, candidate, *mark);
            }
            candidate = candidate.saturating_add(1);
        }
        Ok(())
    }

    /// Goes down to a node below it.
    pub fn descend(
        &mut self,
        network: &ScaledNetwork,
        bearing: &mut Bearing,
        marks: &Marks,
    ) -> Result<(), NoMemory> {
        let mut candidate = 0u32;
        for mark in marks.all() {
            if self.marks.get(candidate) != *mark {
                self.decide(network, bearing, candidate, *mark)?;
            }
            candidate = candidate.saturating_add(1);
        }
        if self.is_stale {
            self.is_stale = false;
            bearing.invert_upper(network, &self.marks, &mut self.upper)?;
        }
        Ok(())
    }

    // Decides a candidate.
    fn decide(
        &mut self,
        network: &ScaledNetwork,
        bearing: &mut Bearing,
        candidate: u32,
        mark: Mark,
    ) -> Result<(), NoMemory> {
        self.marks.set(candidate, mark);
        fix(&mut self.tableau, network, candidate, mark);
        if mark != Mark::Outside || self.is_stale {
            return Ok(());
        }
        bearing.look_at(network, &self.upper, candidate, ONE)?;
        if bearing.is_sound(&self.upper) {
            bearing.make(network, &mut self.upper);
        } else {
            self.is_stale = true;
        }
        Ok(())
    }
}

// Fixes the share of a candidate that isn't open, and that of the station that it pays.
fn fix(tableau: &mut Tableau, network: &ScaledNetwork, candidate: u32, mark: Mark) {
    tableau.fix(candidate, mark == Mark::Inside);
    if mark == Mark::Inside
        && let Some(station) = station_share(network, candidate)
    {
        tableau.fix(station, true);
    }
}
