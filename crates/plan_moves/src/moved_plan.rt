use fixed_point::ONE;
use geo_base::NoMemory;
use plan_inverse::{Inverse, LimitMatrix};
use scaled_network::{Bearing, Mark, Marks, ScaledNetwork};
use std::alloc::Global;

// What a limit bears at most: 1 less 2^-20, so that the exact verdict meets it too.
const MOST_STRENGTH: i64 = ONE - (1 << 12);

// What a limit bears at most of a plan for it alone: 1 less 2^-16, since changes are made there
// whatever digits they lose.
const MOST_ALONE: i64 = ONE - (1 << 16);

// So many candidates are moved one after another at most, to get from a plan to another.
const MOST_MOVED: u32 = 4;

/// A plan with the inverse of its normal matrix. It keeps its memory when another is started.
#[derive(Drop)]
pub struct MovedPlan {
    // Each candidate is inside or outside.
    marks: Marks,
    inverse: Inverse,
    bearing: Bearing,
}

impl MovedPlan {
    /// The plan of no candidates. It takes no memory.
    pub fn new(alloc: Global) -> MovedPlan {
        MovedPlan {
            marks: Marks::new(alloc),
            inverse: Inverse::new(alloc),
            bearing: Bearing::new(alloc),
        }
    }

    /// Starts with a plan: that of the candidates that are inside.
    pub fn start(&mut self, network: &ScaledNetwork, plan: &Marks) -> Result<(), NoMemory> {
        self.marks.copy_from(plan)?;
        self.invert(network)
    }

    /// Goes to another plan: that of the candidates that are inside.
    pub fn go_to(&mut self, network: &ScaledNetwork, plan: &Marks) -> Result<(), NoMemory> {
        if self.marks.differing(plan) > MOST_MOVED {
            return self.start(network, plan);
        }
        let mut candidate = 0u32;
        for mark in plan.all() {
            match *mark {
                Mark::Inside => self.add(network, candidate)?,
                _ if self.has(candidate) => self.take_out(network, candidate)?,
                _ => {}
            }
            candidate = candidate.saturating_add(1);
        }
        Ok(())
    }

    /// Starts with a plan, but for the candidates of a station.
    pub fn start_without(
        &mut self,
        network: &ScaledNetwork,
        plan: &Marks,
        station: u32,
    ) -> Result<(), NoMemory> {
        self.marks.copy_from(plan)?;
        let mut candidate = 0u32;
        for own in network.stations().of_candidates() {
            if *own == Some(station) {
                self.marks.set(candidate, Mark::Outside);
            }
            candidate = candidate.saturating_add(1);
        }
        self.invert(network)
    }

    /// Starts with all candidates of the stations that a plan pays, and of one more, but for those of one,
    /// and with all candidates whose station costs nothing.
    pub fn start_at_stations(
        &mut self,
        network: &ScaledNetwork,
        plan: &Marks,
        added: u32,
        closed: u32,
    ) -> Result<(), NoMemory> {
        self.marks.copy_from(plan)?;
        let stations = network.stations();
        let mut candidate = 0u32;
        for own in stations.of_candidates() {
            let is_chosen = match *own {
                Some(station) => {
                    station == added || station != closed && stations.is_paid(station, plan)
                }
                None => true,
            };
            self.marks.set(
                candidate,
                if is_chosen {
                    Mark::Inside
                } else {
                    Mark::Outside
                },
            );
            candidate = candidate.saturating_add(1);
        }
        self.invert(network)
    }

    /// Makes it a copy of another.
    pub fn copy_from(&mut self, other: &MovedPlan) -> Result<(), NoMemory> {
        self.marks.copy_from(&other.marks)?;
        self.inverse.copy_from(&other.inverse)
    }

    /// The plan: which candidates are inside.
    pub fn plan(&self) -> &Marks {
        &self.marks
    }

    /// Whether a candidate is chosen.
    pub fn has(&self, candidate: u32) -> bool {
        self.marks.get(candidate) == Mark::Inside
    }

    /// The price of its candidates, with that of their stations.
    pub fn price(&self, network: &ScaledNetwork) -> u64 {
        network.price_of(&self.marks)
    }

    /// Adds a candidate, where it isn't chosen yet.
    pub fn add(&mut self, network: &ScaledNetwork, candidate: u32) -> Result<(), NoMemory> {
        if self.has(candidate) {
            return Ok(());
        }
        self.marks.set(candidate, Mark::Inside);
        self.bearing
            .look_at(network, &self.inverse, candidate, ONE.wrapping_neg())?;
        self.make(network)
    }

    /// Whether a limit bears the plan.
    pub fn is_borne_by(&mut self, network: &ScaledNetwork, limit: u32) -> bool {
        self.bearing.look_at_none(network);
        self.bears(network, limit)
    }

    /// Whether all limits in force bear the plan.
    pub fn is_borne(&mut self, network: &ScaledNetwork) -> bool {
        self.bearing.look_at_none(network);
        self.is_borne_without(network, None)
    }

    /// Takes out the owners of limits in force that the plan breaks, one after another.
    pub fn take_out_broken_owners(&mut self, network: &ScaledNetwork) -> Result<(), NoMemory> {
        let mut limit = 0u32;
        for owner in network.owners() {
            if let Some(candidate) = *owner {
                self.bearing.look_at_none(network);
                if self.has(candidate) && !self.bears(network, limit) {
                    self.take_out(network, candidate)?;
                }
            }
            limit = limit.saturating_add(1);
        }
        Ok(())
    }

    /// Takes out the candidates of a list one after another, each where the limits in force bear it.
    pub fn reduce(&mut self, network: &ScaledNetwork, order: &[u32]) -> Result<(), NoMemory> {
        for candidate in order {
            if self.has(*candidate) {
                self.take_out_borne(network, *candidate)?;
            }
        }
        Ok(())
    }

    /// Takes out the candidates of a list one after another, each where one limit bears it, whatever
    /// others do, and the change has this least pivot: above 0, no direction is left without rows.
    pub fn reduce_for(
        &mut self,
        network: &ScaledNetwork,
        order: &[u32],
        limit: u32,
        least_pivot: i64,
    ) -> Result<(), NoMemory> {
        self.bearing.look_at_none(network);
        let mut matrix = self.bearing.limit_matrix(network, &self.inverse, limit);
        for candidate in order {
            if self.has(*candidate) {
                self.bearing
                    .look_at(network, &self.inverse, *candidate, ONE)?;
                if self.bearing.least_pivot() >= least_pivot {
                    matrix = self.take_out_for(network, *candidate, limit, matrix);
                }
            }
        }
        Ok(())
    }

    // Takes out the candidate that is looked at where one limit bears it, and answers what it bears then.
    fn take_out_for(
        &mut self,
        network: &ScaledNetwork,
        candidate: u32,
        limit: u32,
        matrix: LimitMatrix,
    ) -> LimitMatrix {
        let after = self.bearing.changed(network, limit, matrix);
        if after.is_above(MOST_ALONE) {
            return matrix;
        }
        self.marks.set(candidate, Mark::Outside);
        self.bearing.make(network, &mut self.inverse);
        after
    }

    // Takes a candidate out where the limits in force bear it.
    fn take_out_borne(&mut self, network: &ScaledNetwork, candidate: u32) -> Result<(), NoMemory> {
        self.bearing
            .look_at(network, &self.inverse, candidate, ONE)?;
        if self.is_borne_without(network, Some(candidate)) {
            self.marks.set(candidate, Mark::Outside);
            self.make(network)?;
        }
        Ok(())
    }

    // Takes a candidate out.
    fn take_out(&mut self, network: &ScaledNetwork, candidate: u32) -> Result<(), NoMemory> {
        self.bearing
            .look_at(network, &self.inverse, candidate, ONE)?;
        self.marks.set(candidate, Mark::Outside);
        self.make(network)
    }

    // Whether all limits in force, but for those of one candidate, bear the change that is looked at.
    fn is_borne_without(&self, network: &ScaledNetwork, candidate: Option<u32>) -> bool {
        let mut limit = 0u32;
        for owner in network.owners() {
            let is_own = owner.is_some() && *owner == candidate;
            if !is_own && network.is_in_force(limit, &self.marks) && !self.bears(network, limit) {
                return false;
            }
            limit = limit.saturating_add(1);
        }
        true
    }

    // Whether a limit bears the change that is looked at.
    fn bears(&self, network: &ScaledNetwork, limit: u32) -> bool {
        !self
            .bearing
            .is_above(network, &self.inverse, limit, MOST_STRENGTH)
    }

    // Makes the change that is looked at, or finds the inverse anew where that loses digits.
    fn make(&mut self, network: &ScaledNetwork) -> Result<(), NoMemory> {
        if self.bearing.is_sound(&self.inverse) {
            self.bearing.make(network, &mut self.inverse);
            return Ok(());
        }
        self.invert(network)
    }

    // Finds the inverse anew.
    fn invert(&mut self, network: &ScaledNetwork) -> Result<(), NoMemory> {
        self.bearing
            .invert_upper(network, &self.marks, &mut self.inverse)
    }
}
