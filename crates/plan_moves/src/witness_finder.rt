ghost use Rattle.std.specs.Prelude.{◌≡◌, length, IfOk, IfSome};

use crate::moved_plan::MovedPlan;
use geo_base::NoMemory;
use geo_model::{Network, Plan};
use scaled_network::{Mark, Marks, ScaledNetwork};
use std::alloc::Global;
use std::cmp::Reverse;

// What a pivot is at least where the plan that is left is to be regular: 2^-12.
const REGULAR_PIVOT: i64 = 1 << 20;

/// What is left of a plan: all that a limit needs, or besides enough for each direction in which the
/// plan has rows. A verdict is sometimes open where rows are left that depend on one another alone.
#[derive(Clone, Copy, Debug, PartialEq, Eq)]
pub enum Rest {
    Bare,
    Regular,
}

// A candidate of a plan, and when it is taken out: those first that were missing most often, and of
// these the dearest.
#[derive(Clone, Copy)]
struct Turn {
    candidate: u32,
    missed: u64,
    price: u64,
}

/// Finds small plans inside others that meet one limit, in fixed point. What is known of a plan stays
/// while its limits are asked about one after another.
#[derive(Drop)]
pub struct WitnessFinder {
    network: ScaledNetwork,
    // How often each candidate was missing from a plan that was asked about.
    missed: Vec<u64>,
    turns: Vec<Turn>,
    // The candidates of the plan in the order in which they are taken out.
    order: Vec<u32>,
    asked: Marks,
    // The plan that was asked about last, and what is left of it.
    large: MovedPlan,
    small: MovedPlan,
}

impl WitnessFinder {
    /// That of a network. Refused for want of memory alone.
    pub fn new(alloc: Global, network: &Network) -> Result<WitnessFinder, NoMemory> {
        let scaled = ScaledNetwork::new(alloc, network)?;
        let count = scaled.prices().len();
        Ok(WitnessFinder {
            network: scaled,
            missed: vec![in alloc; 0; count]?,
            turns: Vec::new(alloc),
            order: Vec::new(alloc),
            asked: Marks::new(alloc),
            large: MovedPlan::new(alloc),
            small: MovedPlan::new(alloc),
        })
    }

    /// What is left of a plan where the candidates are taken out that a limit can spare: those first
    /// that plans which were asked about missed most often, and of these the dearest. None where the
    /// plan itself doesn't seem to meet the limit. Refused for want of memory alone.
    pub fn small_plan(
        &mut self,
        alloc: Global,
        network: &Network,
        plan: &Plan,
        limit: u32,
        rest: Rest,
    ) -> Result<Option<Plan>, NoMemory>
        requires { length plan.now ≡ length network.now.candidates }
        ensures { IfOk result (λ found. IfSome found (λ small. length small ≡ length network.now.candidates)) }
    {
        self.asked.read_plan(network, plan)?;
        self.large.go_to(&self.network, &self.asked)?;
        if !self.large.is_borne_by(&self.network, limit) {
            return Ok(None);
        }
        self.count_missed();
        self.sort()?;
        self.small.copy_from(&self.large)?;
        let order = self.order.as_slice();
        let least = match rest {
            Rest::Bare => 0,
            Rest::Regular => REGULAR_PIVOT,
        };
        self.small.reduce_for(&self.network, order, limit, least)?;
        Ok(Some(self.small.plan().plan(alloc, network)?))
    }

    // Counts the candidates that the plan misses.
    fn count_missed(&mut self) {
        for (count, mark) in self.missed.iter_mut().zip(self.asked.all()) {
            if *mark != Mark::Inside {
                *count = count.saturating_add(1);
            }
        }
    }

    // Puts the candidates of the plan in order.
    fn sort(&mut self) -> Result<(), NoMemory> {
        self.turns.clear();
        let mut candidate = 0u32;
        for (mark, missed) in self.asked.all().iter().zip(self.missed.as_slice()) {
            if *mark == Mark::Inside {
                self.turns.push(Turn {
                    candidate,
                    missed: *missed,
                    price: self.network.price(candidate),
                })?;
            }
            candidate = candidate.saturating_add(1);
        }
        self.turns
            .as_mut_slice()
            .sort_unstable_by_key(|turn| Reverse((turn.missed, turn.price, turn.candidate)));
        self.order.clear();
        for turn in self.turns.as_slice() {
            self.order.push(turn.candidate)?;
        }
        Ok(())
    }
}
