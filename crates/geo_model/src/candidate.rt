use crate::row::Row;
use std::marker::Model;

/// A possible observation: its price, and its weighted rows.
#[derive(Debug, Drop)]
pub struct Candidate {
    /// The price, at most 1000000000 in a network.
    pub price: u64,
    /// The rows: three of a vector, one of any other kind.
    pub rows: Vec<Row>,
}

impl Model for Candidate {
    ghost use Rattle.geo_model.specs.Candidate.{CandidateOf};

    ghost Value = { CandidateOf };

    ghost view = { λ candidate. record { price = candidate.price; rows = candidate.rows.items } };
}
