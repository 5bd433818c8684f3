use crate::marks::{Mark, Marks};
use crate::network::ScaledNetwork;
use fixed_point::ONE;
use geo_base::NoMemory;
use plan_inverse::{Inverse, InverseChange, LimitMatrix};
use std::alloc::Global;
use weak_direction::{Factor, Weakest, common_shift};

// Past so many changes an inverse is found anew.
const MOST_CHANGES: u32 = 12;

// Below this pivot, 2^-20, a change loses too many digits to be made.
const LEAST_PIVOT: i64 = 1 << 12;

/// Room to find inverses of normal matrices and what limits bear by them, and the change that is
/// looked at: what becomes of an inverse where a candidate is taken out or added. It keeps its memory.
#[derive(Drop)]
pub struct Bearing {
    factor: Factor,
    change: InverseChange,
    first: Vec<i64>,
    second: Vec<i64>,
    weakest: Weakest,
}

impl Bearing {
    /// Room for no unknowns, and the change by no row. It takes no memory.
    pub fn new(alloc: Global) -> Bearing {
        Bearing {
            factor: Factor::new(alloc),
            change: InverseChange::new(alloc),
            first: Vec::new(alloc),
            second: Vec::new(alloc),
            weakest: Weakest::new(alloc),
        }
    }

    /// Finds the inverse of the normal matrix under shares of the candidates, in fixed point.
    pub fn invert(
        &mut self,
        network: &ScaledNetwork,
        shares: &[i64],
        inverse: &mut Inverse,
    ) -> Result<(), NoMemory> {
        self.factor.start(network.unknowns())?;
        let mut candidate = 0u32;
        for share in shares {
            if *share > 0 {
                self.add_rows(network, candidate, *share);
            }
            candidate = candidate.saturating_add(1);
        }
        self.solve(network, inverse)
    }

    // Adds a share of the rows of a candidate to the matrix.
    fn add_rows(&mut self, network: &ScaledNetwork, candidate: u32, share: i64) {
        for row in network.rows(candidate) {
            self.factor.add_square(share, row);
        }
    }

    /// Finds the inverse of the normal matrix of a node's upper plan.
    pub fn invert_upper(
        &mut self,
        network: &ScaledNetwork,
        marks: &Marks,
        inverse: &mut Inverse,
    ) -> Result<(), NoMemory> {
        self.factor.start(network.unknowns())?;
        let mut candidate = 0u32;
        for mark in marks.all() {
            if *mark != Mark::Outside {
                self.add_rows(network, candidate, ONE);
            }
            candidate = candidate.saturating_add(1);
        }
        self.solve(network, inverse)
    }

    // Finds the inverse of the matrix that was summed up.
    fn solve(&mut self, network: &ScaledNetwork, inverse: &mut Inverse) -> Result<(), NoMemory> {
        self.factor.factor()?;
        inverse.find(&self.factor)?;
        self.look_at_none(network);
        Ok(())
    }

    /// Looks at no change.
    pub fn look_at_none(&mut self, network: &ScaledNetwork) {
        self.change.clear(network.unknowns());
    }

    /// Looks at the change where a share of a candidate is taken out; a share below 0 is added.
    pub fn look_at(
        &mut self,
        network: &ScaledNetwork,
        inverse: &Inverse,
        candidate: u32,
        share: i64,
    ) -> Result<(), NoMemory> {
        let rows = network.rows(candidate);
        inverse.change(rows, share, &mut self.change, &mut self.first)
    }

    /// Whether the change that is looked at leaves the inverse exact enough to go on with.
    pub fn is_sound(&self, inverse: &Inverse) -> bool {
        self.change.least_pivot() >= LEAST_PIVOT && inverse.changes() < MOST_CHANGES
    }

    /// The least pivot in size of the change that is looked at, at most 1: near 0, the rows that are
    /// taken out are the only ones in some direction.
    pub fn least_pivot(&self) -> i64 {
        self.change.least_pivot()
    }

    /// Makes the change that is looked at, and looks at none.
    pub fn make(&mut self, network: &ScaledNetwork, inverse: &mut Inverse) {
        inverse.apply(&self.change);
        self.look_at_none(network);
    }

    /// The load over the energy of a limit, in the direction that bears it worst, after the change
    /// that is looked at: above 1, the limit is broken.
    pub fn strength(&self, network: &ScaledNetwork, inverse: &Inverse, limit: u32) -> i64 {
        inverse.strength(network.squares(limit), &self.change)
    }

    /// What a limit bears before any change.
    pub fn limit_matrix(
        &self,
        network: &ScaledNetwork,
        inverse: &Inverse,
        limit: u32,
    ) -> LimitMatrix {
        inverse.limit_matrix(network.squares(limit))
    }

    /// What a limit bears after the change that is looked at, where this is what it bears before.
    pub fn changed(&self, network: &ScaledNetwork, limit: u32, before: LimitMatrix) -> LimitMatrix {
        self.change.changed(network.squares(limit), before)
    }

    /// Whether the load over the energy of a limit is more than a number, in the direction that bears it
    /// worst, after the change that is looked at.
    pub fn is_above(
        &self,
        network: &ScaledNetwork,
        inverse: &Inverse,
        limit: u32,
        number: i64,
    ) -> bool {
        let before = self.limit_matrix(network, inverse, limit);
        self.changed(network, limit, before).is_above(number)
    }

    /// Finds the direction that bears a limit worst after that change, and answers the load over the
    /// energy there.
    pub fn find_direction(
        &mut self,
        network: &ScaledNetwork,
        inverse: &Inverse,
        limit: u32,
    ) -> Result<i64, NoMemory> {
        let squares = network.squares(limit);
        let shift = common_shift(squares);
        self.first.clear();
        self.second.clear();
        if let Some(square) = squares.first() {
            inverse.solution(square, shift, &self.change, &mut self.first)?;
        }
        if let Some(square) = squares.get(1) {
            inverse.solution(square, shift, &self.change, &mut self.second)?;
        }
        let first = self.first.as_slice();
        self.weakest
            .find_from(squares, shift, first, self.second.as_slice())
    }

    /// Writes the direction that was found last in the unknowns' own units, with a greatest entry of
    /// this size, from 1 to 32768.
    pub fn round(
        &mut self,
        network: &ScaledNetwork,
        greatest: i64,
        entries: &mut Vec<i32>,
    ) -> Result<(), NoMemory> {
        self.weakest.round(network.units(), greatest, entries)
    }
}
