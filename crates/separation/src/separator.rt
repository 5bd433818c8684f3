ghost use Rattle.std.specs.Prelude.{◌≡◌, ◌<◌, length, All, IfOk};

use crate::dropping::Dropping;
use crate::proposal::{Proposal, displacement_of};
use crate::rounded_direction::RoundedDirection;
use crate::sought::Sought;
use fixed_point::ONE;
use geo_base::NoMemory;
use geo_model::Network;
use plan_inverse::Inverse;
use scaled_network::Bearing;
use std::alloc::Global;

// Limits that bear the shares with less than this part of their bound are left out: 0.3.
const LEAST_STRENGTH: i64 = ONE / 10 * 3;

// A direction that was found for a limit, in whole numbers, and what its cut lacks.
#[derive(Drop)]
struct Found {
    limit: u32,
    lacking: i64,
    entries: Vec<i32>,
}

/// Room for separation: it keeps its memory.
#[derive(Drop)]
pub struct Separation {
    bearing: Bearing,
    inverse: Inverse,
    dropping: Dropping,
    direction: RoundedDirection,
    found: Vec<Found>,
}

impl Separation {
    /// Room for no unknowns. It takes no memory.
    pub fn new(alloc: Global) -> Separation {
        Separation {
            bearing: Bearing::new(alloc),
            inverse: Inverse::new(alloc),
            dropping: Dropping::new(alloc),
            direction: RoundedDirection::new(alloc),
            found: Vec::new(alloc),
        }
    }

    /// Displacements whose cuts lack what is sought, those first that lack most: at most one of each
    /// limit that is in force. Refused for want of memory alone.
    pub fn propose(
        &mut self,
        alloc: Global,
        network: &Network,
        sought: &Sought<'_>,
    ) -> Result<Vec<Proposal>, NoMemory>
        ensures proposals { IfOk result (λ proposals. All (λ proposal. (proposal.limit < length network.now.limits) × (length proposal.x ≡ length network.now.unknowns)) proposals.items) }
    {
        self.find(alloc, sought)?;
        self.found
            .as_mut_slice()
            .sort_unstable_by_key(|found| found.lacking.wrapping_neg());
        let mut proposals = Vec::new(alloc);
        for found in self.found.iter().take(sought.most) {
            if (found.limit as usize) < network.limits().len() {
                proposals.push(Proposal {
                    limit: found.limit,
                    x: displacement_of(alloc, network, found.entries.as_slice())?,
                })?;
            }
        }
        Ok(proposals)
    }

    // Finds a direction for each limit in force.
    fn find(&mut self, alloc: Global, sought: &Sought<'_>) -> Result<(), NoMemory> {
        let scaled = sought.scaled;
        self.found.clear();
        self.bearing
            .invert(scaled, sought.shares, &mut self.inverse)?;
        self.dropping
            .start(alloc, scaled, sought.shares, &self.inverse)?;
        let mut limit = 0u32;
        for _ in scaled.owners() {
            if scaled.is_in_force(limit, sought.marks) {
                self.find_for(sought, limit)?;
                self.keep_found(alloc, limit)?;
            }
            limit = limit.saturating_add(1);
        }
        Ok(())
    }

    // Finds the best direction for a limit: the weakest one, or that without some candidates.
    fn find_for(&mut self, sought: &Sought<'_>, limit: u32) -> Result<(), NoMemory> {
        let scaled = sought.scaled;
        self.direction.start(sought.least);
        self.bearing.look_at_none(scaled);
        let strength = self.bearing.find_direction(scaled, &self.inverse, limit)?;
        if strength <= LEAST_STRENGTH {
            return Ok(());
        }
        let bearing = &mut self.bearing;
        self.direction
            .try_direction(scaled, bearing, limit, sought.shares)?;
        if !self
            .dropping
            .run(scaled, bearing, &self.inverse, limit, strength)?
        {
            return Ok(());
        }
        let _strength = bearing.find_direction(scaled, self.dropping.reduced(), limit)?;
        self.direction
            .try_direction(scaled, bearing, limit, sought.shares)
    }

    // Keeps the direction that was found for a limit, if any.
    fn keep_found(&mut self, alloc: Global, limit: u32) -> Result<(), NoMemory> {
        let entries = self.direction.entries();
        if entries.is_empty() {
            return Ok(());
        }
        self.found.push(Found {
            limit,
            lacking: self.direction.lacking(),
            entries: Vec::from_slice(alloc, entries)?,
        })?;
        Ok(())
    }
}
