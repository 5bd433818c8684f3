use crate::marks::{Mark, Marks};
use crate::stations::CostlyStations;
use fixed_point::{product, quotient};
use geo_base::NoMemory;
use geo_model::{Candidate, Limit, Network};
use std::alloc::Global;
use weak_direction::{Form, Scaling};

/// A network in fixed point: the rows of its candidates and the squares of its limits as forms of
/// scaled unknowns, with prices, owners and the stations that cost something.
#[derive(Drop)]
pub struct ScaledNetwork {
    // What a scaled unit is in each unknown, up to one factor for all.
    units: Vec<i64>,
    // What a displacement by 1 in each unknown is in scaled units, up to one factor for all.
    roots: Vec<i64>,
    // The rows of each candidate, times the root of their weight.
    rows: Vec<Vec<Form>>,
    // The squares of each limit, over its factor.
    squares: Vec<Vec<Form>>,
    owners: Vec<Option<u32>>,
    prices: Vec<u64>,
    stations: CostlyStations,
}

impl ScaledNetwork {
    /// That of a network. Refused for want of memory alone.
    pub fn new(alloc: Global, network: &Network) -> Result<ScaledNetwork, NoMemory> {
        let scaling = scaling_of(alloc, network)?;
        Ok(ScaledNetwork {
            units: scaling.units(alloc)?,
            roots: scaling.roots(alloc)?,
            rows: rows_of_all(alloc, &scaling, network)?,
            squares: squares_of_all(alloc, &scaling, network)?,
            owners: owners_of(alloc, network)?,
            prices: prices_of(alloc, network)?,
            stations: CostlyStations::new(alloc, network)?,
        })
    }

    /// What a scaled unit is in each unknown, up to one factor for all.
    pub fn units(&self) -> &[i64] {
        self.units.as_slice()
    }

    /// Writes a displacement in scaled units, up to one factor: over its greatest entry `greatest`,
    /// from 1 to 32768.
    pub fn scale(
        &self,
        entries: &[i32],
        greatest: i64,
        numbers: &mut Vec<i64>,
    ) -> Result<(), NoMemory> {
        numbers.clear();
        for (entry, root) in entries.iter().zip(self.roots.as_slice()) {
            let part = quotient(*entry as i64, greatest);
            numbers.push(product(part, *root))?;
        }
        Ok(())
    }

    /// The number of unknowns.
    pub fn unknowns(&self) -> usize {
        self.units.len()
    }

    /// The price of each candidate.
    pub fn prices(&self) -> &[u64] {
        self.prices.as_slice()
    }

    /// The price of a candidate; 0 where there is none of that number.
    pub fn price(&self, candidate: u32) -> u64 {
        self.prices.get(candidate as usize).copied().unwrap_or(0)
    }

    /// The stations that cost something.
    pub fn stations(&self) -> &CostlyStations {
        &self.stations
    }

    /// The price of the candidates that are inside, with that of their stations.
    pub fn price_of(&self, marks: &Marks) -> u64 {
        let mut sum = self.stations.price_of(marks);
        for (mark, price) in marks.all().iter().zip(self.prices.as_slice()) {
            if *mark == Mark::Inside {
                sum = sum.saturating_add(*price);
            }
        }
        sum
    }

    /// The owner of each limit, if any.
    pub fn owners(&self) -> &[Option<u32>] {
        self.owners.as_slice()
    }

    /// The rows of a candidate; none where there is no candidate of that number.
    pub fn rows(&self, candidate: u32) -> &[Form] {
        match self.rows.get(candidate as usize) {
            Some(rows) => rows.as_slice(),
            None => &[],
        }
    }

    /// The squares of a limit; none where there is no limit of that number.
    pub fn squares(&self, limit: u32) -> &[Form] {
        match self.squares.get(limit as usize) {
            Some(squares) => squares.as_slice(),
            None => &[],
        }
    }

    /// The load of a limit at a displacement in scaled units, over the limit's factor.
    pub fn load(&self, limit: u32, numbers: &[i64]) -> i64 {
        energy_of(self.squares(limit), numbers)
    }

    /// The energy of a candidate at a displacement in scaled units.
    pub fn energy(&self, candidate: u32, numbers: &[i64]) -> i64 {
        energy_of(self.rows(candidate), numbers)
    }

    /// Whether a limit is in force for all plans of a node: it has no owner, or one inside.
    pub fn is_in_force(&self, limit: u32, marks: &Marks) -> bool {
        match self.owners.get(limit as usize).copied() {
            Some(Some(owner)) => marks.get(owner) == Mark::Inside,
            Some(None) => true,
            None => false,
        }
    }
}

// The sum of the squares of forms at a displacement.
fn energy_of(forms: &[Form], numbers: &[i64]) -> i64 {
    let mut sum = 0i64;
    for form in forms {
        let value = form.at(numbers, 0);
        sum = sum.saturating_add(product(value, value));
    }
    sum
}

// How the unknowns of a network are scaled.
fn scaling_of(alloc: Global, network: &Network) -> Result<Scaling, NoMemory> {
    let mut scaling = Scaling::new(alloc, network.unknowns().len())?;
    for candidate in network.candidates() {
        add_rows(&mut scaling, candidate);
    }
    Ok(scaling)
}

// Adds the rows of a candidate to a scaling.
fn add_rows(scaling: &mut Scaling, candidate: &Candidate) {
    for row in candidate.rows.as_slice() {
        scaling.add_row(row.weight(), row.entries());
    }
}

// The owner of each limit.
fn owners_of(alloc: Global, network: &Network) -> Result<Vec<Option<u32>>, NoMemory> {
    let mut owners = Vec::new(alloc);
    for limit in network.limits() {
        owners.push(limit.owner)?;
    }
    Ok(owners)
}

// The price of each candidate.
fn prices_of(alloc: Global, network: &Network) -> Result<Vec<u64>, NoMemory> {
    let mut prices = Vec::new(alloc);
    for candidate in network.candidates() {
        prices.push(candidate.price)?;
    }
    Ok(prices)
}

// The rows of each candidate as forms.
fn rows_of_all(
    alloc: Global,
    scaling: &Scaling,
    network: &Network,
) -> Result<Vec<Vec<Form>>, NoMemory> {
    let mut rows = Vec::new(alloc);
    for candidate in network.candidates() {
        rows.push(rows_of(alloc, scaling, candidate)?)?;
    }
    Ok(rows)
}

// The squares of each limit as forms.
fn squares_of_all(
    alloc: Global,
    scaling: &Scaling,
    network: &Network,
) -> Result<Vec<Vec<Form>>, NoMemory> {
    let mut squares = Vec::new(alloc);
    for limit in network.limits() {
        squares.push(squares_of(alloc, scaling, limit)?)?;
    }
    Ok(squares)
}

// The rows of a candidate as forms.
fn rows_of(alloc: Global, scaling: &Scaling, candidate: &Candidate) -> Result<Vec<Form>, NoMemory> {
    let mut forms = Vec::new(alloc);
    for row in candidate.rows.as_slice() {
        forms.push(scaling.form(alloc, row.weight() as i128, 1, row.entries())?)?;
    }
    Ok(forms)
}

// The squares of a limit as forms.
fn squares_of(alloc: Global, scaling: &Scaling, limit: &Limit) -> Result<Vec<Form>, NoMemory> {
    let mut forms = Vec::new(alloc);
    for square in limit.squares.as_slice() {
        let entries = square.entries.as_slice();
        forms.push(scaling.form(alloc, square.beta, limit.alpha, entries)?)?;
    }
    Ok(forms)
}
