use fixed_point::product;
use geo_base::NoMemory;
use scaled_network::ScaledNetwork;
use std::alloc::Global;
use weak_direction::Form;

// What has to be alike of two candidates at least, that one may be the partner of the other: 2^-10.
const LEAST_ALIKE: i64 = 1 << 22;

/// What the rows of each candidate weigh, and its partner: the other candidate whose rows are most
/// like its own, so that each of both may make the other redundant.
#[derive(Drop)]
pub struct Partners {
    weights: Vec<i64>,
    partners: Vec<Option<u32>>,
}

impl Partners {
    /// Those of a network.
    pub fn new(alloc: Global, network: &ScaledNetwork) -> Result<Partners, NoMemory> {
        let mut weights = Vec::new(alloc);
        let mut partners = Vec::new(alloc);
        let mut candidate = 0u32;
        for _ in network.prices() {
            let rows = network.rows(candidate);
            weights.push(likeness(rows, rows))?;
            partners.push(partner_of(network, candidate))?;
            candidate = candidate.saturating_add(1);
        }
        Ok(Partners { weights, partners })
    }

    /// What the rows of each candidate weigh.
    pub fn weights(&self) -> &[i64] {
        self.weights.as_slice()
    }

    /// The partner of a candidate, if it has one.
    pub fn of(&self, candidate: u32) -> Option<u32> {
        self.partners
            .get(candidate as usize)
            .copied()
            .unwrap_or(None)
    }
}

// The other candidate whose rows are most like those of one.
fn partner_of(network: &ScaledNetwork, candidate: u32) -> Option<u32> {
    let rows = network.rows(candidate);
    let mut most = LEAST_ALIKE;
    let mut partner = None;
    let mut other = 0u32;
    for _ in network.prices() {
        let alike = likeness(rows, network.rows(other));
        if other != candidate && alike > most {
            most = alike;
            partner = Some(other);
        }
        other = other.saturating_add(1);
    }
    partner
}

// The sum of the sizes of the products of each row of one candidate with each of another.
fn likeness(rows: &[Form], others: &[Form]) -> i64 {
    let mut sum = 0i64;
    for row in rows {
        for other in others {
            sum = sum.saturating_add(row_product(row, other).saturating_abs());
        }
    }
    sum
}

// The sum of the products of the coefficients of two rows at the same unknowns.
fn row_product(row: &Form, other: &Form) -> i64 {
    let mut sum = 0i64;
    for term in row.terms() {
        for other_term in other.terms() {
            if term.unknown == other_term.unknown {
                sum = sum.wrapping_add(product(term.coefficient, other_term.coefficient));
            }
        }
    }
    sum
}
