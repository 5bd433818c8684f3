use crate::random::Random;
use geo_base::NoMemory;
use scaled_network::{Mark, Marks, ScaledNetwork};
use std::alloc::Global;
use std::cmp::Reverse;

// A candidate or a station by its number, and when it is taken out: those with the greatest key first.
#[derive(Clone, Copy)]
struct Turn {
    number: u32,
    key: u128,
}

/// An order in which candidates and whole stations are taken out. It keeps its memory when another is
/// made.
#[derive(Drop)]
pub struct Order {
    turns: Vec<Turn>,
    candidates: Vec<u32>,
    stations: Vec<u32>,
}

impl Order {
    /// The order of no candidates and no stations. It takes no memory.
    pub fn new(alloc: Global) -> Order {
        Order {
            turns: Vec::new(alloc),
            candidates: Vec::new(alloc),
            stations: Vec::new(alloc),
        }
    }

    /// The candidates in this order.
    pub fn candidates(&self) -> &[u32] {
        self.candidates.as_slice()
    }

    /// The stations in this order.
    pub fn stations(&self) -> &[u32] {
        self.stations.as_slice()
    }

    /// Orders the stations that a plan pays by their price and that of its candidates there, times a
    /// random number from 100 to `spread` more: the dearest first.
    pub fn by_station_price(
        &mut self,
        network: &ScaledNetwork,
        plan: &Marks,
        random: &mut Random,
        spread: u32,
    ) -> Result<(), NoMemory> {
        self.turns.clear();
        let mut station = 0u32;
        for price in network.stations().prices() {
            let factor = random.below(spread).saturating_add(100) as u128;
            let whole = price.saturating_add(chosen_price(network, plan, station)) as u128;
            self.turns.push(Turn {
                number: station,
                key: whole.wrapping_mul(factor),
            })?;
            station = station.saturating_add(1);
        }
        sort(&mut self.turns, &mut self.stations)
    }

    /// Orders the candidates inside by their price and their part of the station's, times a random
    /// number from 100 to `spread` more: the dearest first.
    pub fn by_price(
        &mut self,
        network: &ScaledNetwork,
        plan: &Marks,
        random: &mut Random,
        spread: u32,
    ) -> Result<(), NoMemory> {
        self.turns.clear();
        let mut candidate = 0u32;
        for mark in plan.all() {
            if *mark == Mark::Inside {
                let factor = random.below(spread).saturating_add(100) as u128;
                let key = (shared_price(network, plan, candidate) as u128).wrapping_mul(factor);
                self.turns.push(Turn {
                    number: candidate,
                    key,
                })?;
            }
            candidate = candidate.saturating_add(1);
        }
        sort(&mut self.turns, &mut self.candidates)
    }

    /// Orders the candidates inside by their price and their part of the station's over what their rows
    /// weigh: the dearest first.
    pub fn by_price_for_weight(
        &mut self,
        network: &ScaledNetwork,
        plan: &Marks,
        weights: &[i64],
    ) -> Result<(), NoMemory> {
        self.turns.clear();
        let mut candidate = 0u32;
        for (mark, weight) in plan.all().iter().zip(weights) {
            if *mark == Mark::Inside {
                let price = (shared_price(network, plan, candidate) as u128).wrapping_shl(64);
                let key = price / (weight.unsigned_abs() as u128).max(1);
                self.turns.push(Turn {
                    number: candidate,
                    key,
                })?;
            }
            candidate = candidate.saturating_add(1);
        }
        sort(&mut self.turns, &mut self.candidates)
    }
}

// Sorts the turns and lists their numbers.
fn sort(turns: &mut Vec<Turn>, numbers: &mut Vec<u32>) -> Result<(), NoMemory> {
    turns
        .as_mut_slice()
        .sort_unstable_by_key(|turn| Reverse((turn.key, turn.number)));
    numbers.clear();
    for turn in turns.as_slice() {
        numbers.push(turn.number)?;
    }
    Ok(())
}

// The price of a candidate of a plan, with the part that falls to it of what its station costs.
fn shared_price(network: &ScaledNetwork, plan: &Marks, candidate: u32) -> u64 {
    let price = network.price(candidate);
    let stations = network.stations();
    let Some(station) = stations.of(candidate) else {
        return price;
    };
    let count = stations.count_inside(station, plan).max(1) as u64;
    price.saturating_add(stations.price(station) / count)
}

// The price of the candidates of a plan that have this station.
fn chosen_price(network: &ScaledNetwork, plan: &Marks, station: u32) -> u64 {
    let mut sum = 0u64;
    let mut candidate = 0u32;
    for own in network.stations().of_candidates() {
        if *own == Some(station) && plan.get(candidate) == Mark::Inside {
            sum = sum.saturating_add(network.price(candidate));
        }
        candidate = candidate.saturating_add(1);
    }
    sum
}
