use dual_simplex::Tableau;
use fixed_point::ONE;
use geo_base::NoMemory;
use scaled_network::ScaledNetwork;
use std::alloc::Global;

// A link is broken where a candidate is chosen by this much more than its station is paid: a fiftieth.
const BROKEN: i64 = ONE / 50;

/// The links of candidates with their stations in a linear program: a candidate's share is at most its
/// station's. The share of a station has the number of candidates and its own for its number.
#[derive(Drop)]
pub(crate) struct Links {
    // A coefficient for each candidate and, after them, each station: all 0 but while a link is added.
    line: Vec<i64>,
    // The candidates whose links a tableau had.
    noted: Vec<u32>,
}

impl Links {
    /// Room for the links of so many candidates and stations together.
    pub fn new(alloc: Global, count: usize) -> Result<Links, NoMemory> {
        Ok(Links {
            line: vec![in alloc; 0; count]?,
            noted: Vec::new(alloc),
        })
    }

    /// Notes which links a tableau has.
    pub fn note(&mut self, tableau: &Tableau) -> Result<(), NoMemory> {
        tableau.links(&mut self.noted)
    }

    /// Adds the links that were noted.
    pub fn add_noted(
        &mut self,
        network: &ScaledNetwork,
        tableau: &mut Tableau,
    ) -> Result<(), NoMemory> {
        for place in 0..self.noted.len() {
            let candidate = self.noted.get(place).copied().unwrap_or(u32::MAX);
            self.add(network, tableau, candidate)?;
        }
        Ok(())
    }

    /// Adds the links that shares of candidates and stations break, and answers whether there is one.
    pub fn add_broken(
        &mut self,
        network: &ScaledNetwork,
        tableau: &mut Tableau,
        shares: &[i64],
    ) -> Result<bool, NoMemory> {
        let mut is_found = false;
        let mut candidate = 0u32;
        for share in shares {
            if let Some(station) = station_share(network, candidate) {
                let paid = shares.get(station as usize).copied().unwrap_or(ONE);
                if share.wrapping_sub(paid) > BROKEN {
                    self.add(network, tableau, candidate)?;
                    is_found = true;
                }
            }
            candidate = candidate.saturating_add(1);
        }
        Ok(is_found)
    }

    // Adds the link of a candidate.
    fn add(
        &mut self,
        network: &ScaledNetwork,
        tableau: &mut Tableau,
        candidate: u32,
    ) -> Result<(), NoMemory> {
        let Some(station) = station_share(network, candidate) else {
            return Ok(());
        };
        self.set(candidate, ONE.wrapping_neg());
        self.set(station, ONE);
        tableau.add_link(candidate, self.line.as_slice())?;
        self.set(candidate, 0);
        self.set(station, 0);
        Ok(())
    }

    // Sets the coefficient of a share.
    fn set(&mut self, number: u32, coefficient: i64) {
        if let Some(place) = self.line.as_mut_slice().get_mut(number as usize) {
            *place = coefficient;
        }
    }
}

/// The number that the share of a candidate's station has in a tableau; none where it has no station
/// that costs something.
pub(crate) fn station_share(network: &ScaledNetwork, candidate: u32) -> Option<u32> {
    let candidates = network.prices().len().min(256) as u32;
    let station = network.stations().of(candidate);
    station.map(|station| candidates.saturating_add(station))
}
