use crate::order::Order;
use crate::partners::Partners;
use crate::random::Random;
use geo_base::NoMemory;
use plan_moves::{MovedPlan, StationMoves};
use scaled_network::{Marks, ScaledNetwork};
use std::alloc::Global;

// A plan that costs more than the best one by less than this part of it, a 64th, is gone on from.
const ACCEPTED: u64 = 64;

// After so many moves without a better plan the walk goes back to the best one.
const PATIENCE: u32 = 48;

// How far random prices lie apart at most, in hundredths.
const MOST_SPREAD: u32 = 100;

/// How a move adds candidates: some at random, a candidate with its partner, a quarter of all, or all
/// that are observed from the stations paid, of which one is changed for another.
#[derive(Clone, Copy, PartialEq, Eq)]
enum MoveKind {
    Some,
    Pair,
    Many,
    Stations,
}

/// A walk from plan to plan, in fixed point.
#[derive(Drop)]
pub struct Walk {
    network: ScaledNetwork,
    partners: Partners,
    // The best plan, the one that the walk stands at, and the one that it looks at.
    best: MovedPlan,
    here: MovedPlan,
    looked_at: MovedPlan,
    station_moves: StationMoves,
    order: Order,
    random: Random,
    moves: u32,
    // How many moves were made since the last better plan.
    waited: u32,
}

impl Walk {
    /// A walk from a plan.
    pub fn new(alloc: Global, network: ScaledNetwork, plan: &Marks) -> Result<Walk, NoMemory> {
        let partners = Partners::new(alloc, &network)?;
        let mut best = MovedPlan::new(alloc);
        best.start(&network, plan)?;
        let mut here = MovedPlan::new(alloc);
        here.copy_from(&best)?;
        Ok(Walk {
            network,
            partners,
            best,
            here,
            looked_at: MovedPlan::new(alloc),
            station_moves: StationMoves::new(alloc),
            order: Order::new(alloc),
            random: Random::new(),
            moves: 0,
            waited: 0,
        })
    }

    /// The plan that the walk looks at.
    pub fn plan(&self) -> &Marks {
        self.looked_at.plan()
    }

    /// Whether it costs less than the best plan.
    pub fn is_cheaper(&self) -> bool {
        self.looked_at.price(&self.network) < self.best.price(&self.network)
    }

    /// Takes candidates out of a plan, those first whose rows weigh least for their price.
    pub fn reduce_by_weight(&mut self, plan: &Marks) -> Result<(), NoMemory> {
        self.looked_at.start(&self.network, plan)?;
        let weights = self.partners.weights();
        self.order
            .by_price_for_weight(&self.network, plan, weights)?;
        self.reduce(1)
    }

    /// Takes candidates out of a plan, the dearest first.
    pub fn reduce_by_price(&mut self, plan: &Marks) -> Result<(), NoMemory> {
        self.looked_at.start(&self.network, plan)?;
        self.order
            .by_price(&self.network, plan, &mut self.random, 1)?;
        self.reduce(1)
    }

    /// Makes a move: adds candidates to the plan that the walk stands at, and takes out others.
    pub fn step(&mut self) -> Result<(), NoMemory> {
        self.moves = self.moves.wrapping_add(1);
        if self.waited > PATIENCE {
            self.waited = 0;
            self.here.copy_from(&self.best)?;
        }
        self.waited = self.waited.saturating_add(1);
        self.looked_at.copy_from(&self.here)?;
        self.add_some()?;
        let spread = self.random.below(MOST_SPREAD).saturating_add(1);
        self.order.by_price(
            &self.network,
            self.looked_at.plan(),
            &mut self.random,
            spread,
        )?;
        self.reduce(spread)
    }

    /// Goes on from the plan that it looks at, where that costs little more than the best one.
    pub fn accept(&mut self) -> Result<(), NoMemory> {
        let best = self.best.price(&self.network);
        let most = best.saturating_add(best / ACCEPTED);
        if self.looked_at.price(&self.network) <= most {
            self.here.copy_from(&self.looked_at)?;
        }
        Ok(())
    }

    /// Takes the plan that it looks at as the best one.
    pub fn keep(&mut self) -> Result<(), NoMemory> {
        self.waited = 0;
        self.best.copy_from(&self.looked_at)?;
        self.here.copy_from(&self.looked_at)
    }

    // The kind of the present move.
    fn kind(&self) -> MoveKind {
        if self.moves % 2 == 0 && !self.network.stations().prices().is_empty() {
            return MoveKind::Stations;
        }
        match self.moves % 8 {
            7 => MoveKind::Many,
            1 | 3 | 5 => MoveKind::Pair,
            _ => MoveKind::Some,
        }
    }

    // Adds candidates to the plan that is looked at.
    fn add_some(&mut self) -> Result<(), NoMemory> {
        let count = self.network.prices().len().min(256) as u32;
        let kind = self.kind();
        let added = match kind {
            MoveKind::Some => self.random.below(4).saturating_add(1),
            MoveKind::Pair => self.random.below(2).saturating_add(1),
            MoveKind::Many => (count / 4).saturating_add(1),
            MoveKind::Stations => return self.change_stations(),
        };
        for _ in 0..added.min(256) {
            let candidate = self.random.below(count);
            self.looked_at.add(&self.network, candidate)?;
            if kind == MoveKind::Pair {
                self.add_partner(candidate)?;
            }
        }
        Ok(())
    }

    // Looks at the plan of all candidates of the stations paid, of which one may be changed for another,
    // where the limits in force bear that.
    fn change_stations(&mut self) -> Result<(), NoMemory> {
        let count = self.network.stations().prices().len().min(256) as u32;
        let added = self.random.below(count);
        let closed = self.random.below(count);
        let here = self.here.plan();
        self.looked_at
            .start_at_stations(&self.network, here, added, closed)?;
        self.looked_at.take_out_broken_owners(&self.network)?;
        if !self.looked_at.is_borne(&self.network) {
            self.looked_at.copy_from(&self.here)?;
        }
        Ok(())
    }

    // Adds the partner of a candidate.
    fn add_partner(&mut self, candidate: u32) -> Result<(), NoMemory> {
        if let Some(partner) = self.partners.of(candidate) {
            self.looked_at.add(&self.network, partner)?;
        }
        Ok(())
    }

    // Takes whole stations out of the plan that is looked at, in the order of their prices times a random
    // number from 100 to `spread` more, and then candidates in the present order. Where an owner went,
    // its limits are no longer in force, so a second pass can take out more.
    fn reduce(&mut self, spread: u32) -> Result<(), NoMemory> {
        self.looked_at.take_out_broken_owners(&self.network)?;
        self.reduce_stations(spread)?;
        for _ in 0..2 {
            self.looked_at
                .reduce(&self.network, self.order.candidates())?;
        }
        Ok(())
    }

    // Takes whole stations out of the plan that is looked at.
    fn reduce_stations(&mut self, spread: u32) -> Result<(), NoMemory> {
        self.order.by_station_price(
            &self.network,
            self.looked_at.plan(),
            &mut self.random,
            spread,
        )?;
        self.station_moves
            .reduce(&self.network, &mut self.looked_at, self.order.stations())
    }
}
