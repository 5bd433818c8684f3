use crate::level::Level;
use crate::watch::rounded_up;
use fixed_point::ONE;
use geo_base::NoMemory;
use plan_moves::{MovedPlan, StationMoves};
use scaled_network::{Mark, Marks, ScaledNetwork};
use std::alloc::Global;

// Shares above a fiftieth count as chosen.
const CHOSEN: i64 = ONE / 50;

// A candidate or a station of a plan, and the share that it has: those with the least go first.
#[derive(Clone, Copy)]
struct Turn {
    number: u32,
    share: i64,
}

/// Plans that are rounded from the shares of a linear program.
#[derive(Drop)]
pub(crate) struct RoundedPlan {
    moved: MovedPlan,
    station_moves: StationMoves,
    marks: Marks,
    turns: Vec<Turn>,
    order: Vec<u32>,
}

impl RoundedPlan {
    /// No plan yet. It takes no memory.
    pub fn new(alloc: Global) -> RoundedPlan {
        RoundedPlan {
            moved: MovedPlan::new(alloc),
            station_moves: StationMoves::new(alloc),
            marks: Marks::new(alloc),
            turns: Vec::new(alloc),
            order: Vec::new(alloc),
        }
    }

    /// The plan that was rounded last.
    pub fn plan(&self) -> &MovedPlan {
        &self.moved
    }

    /// Rounds the shares of a node up, where the limits bear that, or takes its upper plan, and takes
    /// out one station and then one candidate after the other, those with the least share first. False
    /// where the limits bear neither.
    pub fn round(
        &mut self,
        network: &ScaledNetwork,
        level: &Level,
        shares: &[i64],
        station_shares: &[i64],
    ) -> Result<bool, NoMemory> {
        rounded_up(level, shares, CHOSEN, &mut self.marks)?;
        self.moved.start(network, &self.marks)?;
        self.moved.take_out_broken_owners(network)?;
        if !self.moved.is_borne(network) {
            rounded_up(level, shares, -1, &mut self.marks)?;
            self.moved.start(network, &self.marks)?;
            self.moved.take_out_broken_owners(network)?;
            if !self.moved.is_borne(network) {
                return Ok(false);
            }
        }
        self.find_station_order(station_shares)?;
        let order = self.order.as_slice();
        self.station_moves.reduce(network, &mut self.moved, order)?;
        self.find_order(shares)?;
        self.moved.reduce(network, self.order.as_slice())?;
        Ok(true)
    }

    // Orders the stations by their shares, the least first.
    fn find_station_order(&mut self, shares: &[i64]) -> Result<(), NoMemory> {
        self.turns.clear();
        let mut number = 0u32;
        for share in shares {
            self.turns.push(Turn {
                number,
                share: *share,
            })?;
            number = number.saturating_add(1);
        }
        self.sort()
    }

    // Orders the chosen candidates by their shares, the least first.
    fn find_order(&mut self, shares: &[i64]) -> Result<(), NoMemory> {
        self.turns.clear();
        let mut candidate = 0u32;
        for share in shares {
            if self.marks.get(candidate) == Mark::Inside {
                self.turns.push(Turn {
                    number: candidate,
                    share: *share,
                })?;
            }
            candidate = candidate.saturating_add(1);
        }
        self.sort()
    }

    // Sorts the turns and lists their numbers.
    fn sort(&mut self) -> Result<(), NoMemory> {
        self.turns
            .as_mut_slice()
            .sort_unstable_by_key(|turn| (turn.share, turn.number));
        self.order.clear();
        for turn in self.turns.as_slice() {
            self.order.push(turn.number)?;
        }
        Ok(())
    }
}
