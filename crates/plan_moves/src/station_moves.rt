use crate::moved_plan::MovedPlan;
use geo_base::NoMemory;
use scaled_network::ScaledNetwork;
use std::alloc::Global;

/// Room to take the candidates of a station out of plans, all at once. It keeps its memory.
#[derive(Drop)]
pub struct StationMoves {
    trial: MovedPlan,
}

impl StationMoves {
    /// Room for no candidates. It takes no memory.
    pub fn new(alloc: Global) -> StationMoves {
        StationMoves {
            trial: MovedPlan::new(alloc),
        }
    }

    /// Takes the candidates of the stations of a list out of a plan, station after station, each where
    /// the limits in force bear the plan without it.
    pub fn reduce(
        &mut self,
        network: &ScaledNetwork,
        plan: &mut MovedPlan,
        order: &[u32],
    ) -> Result<(), NoMemory> {
        for station in order {
            if network.stations().is_paid(*station, plan.plan()) {
                self.take_out_borne(network, plan, *station)?;
            }
        }
        Ok(())
    }

    // Takes out the candidates of a station where the limits in force bear the plan without them.
    fn take_out_borne(
        &mut self,
        network: &ScaledNetwork,
        plan: &mut MovedPlan,
        station: u32,
    ) -> Result<(), NoMemory> {
        self.trial.start_without(network, plan.plan(), station)?;
        if self.trial.is_borne(network) {
            plan.copy_from(&self.trial)?;
        }
        Ok(())
    }
}
