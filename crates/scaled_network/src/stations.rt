use crate::marks::{Mark, Marks};
use geo_base::NoMemory;
use geo_model::Network;
use std::alloc::Global;

/// The stations that cost something, each by a number from 0, and the candidates that are observed from
/// them. A plan pays a station once, where it chooses one of its candidates.
#[derive(Drop)]
pub struct CostlyStations {
    // The station of each candidate, where it has one that costs something.
    of_candidates: Vec<Option<u32>>,
    prices: Vec<u64>,
}

impl CostlyStations {
    /// Those of a network. Refused for want of memory alone.
    pub fn new(alloc: Global, network: &Network) -> Result<CostlyStations, NoMemory> {
        let mut stations = CostlyStations {
            of_candidates: Vec::new(alloc),
            prices: Vec::new(alloc),
        };
        // The station of each number in the network.
        let mut known = Vec::new(alloc);
        for candidate in 0..network.candidates().len() as u32 {
            let station = network.station_of(candidate);
            stations.add_candidate(network, station, &mut known)?;
        }
        Ok(stations)
    }

    // Adds the next candidate with its station, which has a price in the network.
    fn add_candidate(
        &mut self,
        network: &Network,
        station: Option<u32>,
        known: &mut Vec<u32>,
    ) -> Result<(), NoMemory> {
        let number = match station {
            Some(station) => self.number_of(network, station, known)?,
            None => None,
        };
        self.of_candidates.push(number)?;
        Ok(())
    }

    // The number of a station of the network, the next one where it has none yet; none where it costs
    // nothing.
    fn number_of(
        &mut self,
        network: &Network,
        station: u32,
        known: &mut Vec<u32>,
    ) -> Result<Option<u32>, NoMemory> {
        let prices = network.station_prices();
        let price = prices.get(station as usize).copied().unwrap_or(0);
        if price == 0 {
            return Ok(None);
        }
        let is_it = |other: &u32| *other == station;
        if let Some(number) = known.iter().position(is_it) {
            return Ok(Some(number.min(1000) as u32));
        }
        let number = self.prices.len().min(1000) as u32;
        known.push(station)?;
        self.prices.push(price)?;
        Ok(Some(number))
    }

    /// The price of each station.
    pub fn prices(&self) -> &[u64] {
        self.prices.as_slice()
    }

    /// The price of a station; 0 where there is none of that number.
    pub fn price(&self, station: u32) -> u64 {
        self.prices.get(station as usize).copied().unwrap_or(0)
    }

    /// The station of each candidate, where it has one that costs something.
    pub fn of_candidates(&self) -> &[Option<u32>] {
        self.of_candidates.as_slice()
    }

    /// The station of a candidate, where it has one that costs something.
    pub fn of(&self, candidate: u32) -> Option<u32> {
        let found = self.of_candidates.get(candidate as usize).copied();
        found.unwrap_or(None)
    }

    /// How many candidates of a station are inside.
    pub fn count_inside(&self, station: u32, marks: &Marks) -> u32 {
        let mut count = 0u32;
        for (own, mark) in self.of_candidates.iter().zip(marks.all()) {
            if *own == Some(station) && *mark == Mark::Inside {
                count = count.saturating_add(1);
            }
        }
        count
    }

    /// Whether each plan of a node pays a station: one of its candidates is inside.
    pub fn is_paid(&self, station: u32, marks: &Marks) -> bool {
        self.count_inside(station, marks) > 0
    }

    /// What the stations cost of which a candidate is inside.
    pub fn price_of(&self, marks: &Marks) -> u64 {
        let mut sum = 0u64;
        let mut station = 0u32;
        for price in self.prices.as_slice() {
            if self.is_paid(station, marks) {
                sum = sum.saturating_add(*price);
            }
            station = station.saturating_add(1);
        }
        sum
    }

    /// What the station of a candidate costs, where it isn't paid at a node yet; else 0.
    pub fn unpaid_price(&self, candidate: u32, marks: &Marks) -> u64 {
        match self.of(candidate) {
            Some(station) if !self.is_paid(station, marks) => self.price(station),
            _ => 0,
        }
    }
}
