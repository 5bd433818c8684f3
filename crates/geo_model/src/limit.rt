ghost use Rattle.std.specs.Prelude.{◌↔◌, ◌<◌, length, IsTrue};
ghost use Rattle.std.specs.Option.{ForSome};
ghost use Rattle.geo_model.specs.Limit.{IsInForce};

use crate::plan::Plan;
use std::marker::Model;

/// What a limit bounds. A redundancy limit names its candidate and, from 0, the row of it; an added
/// one has a number, from 1, of the layer that put it behind those of the tables.
#[derive(Clone, Copy, Debug, PartialEq, Eq)]
pub enum LimitKind {
    /// The semi-major axis of the standard ellipse of a point, by the point's number from 0.
    Axis(u32),
    /// The standard deviation of the height of a point, by the point's number from 0.
    Height(u32),
    /// The redundancy number of a candidate's row, by the candidate's number and the row's, from 0.
    Redundancy(u32, u32),
    /// A limit that was added, by the number of its layer from 1.
    Added(u32),
}

/// A weighted square of a linear form, whose entries are columns and coefficients.
#[derive(Debug, Drop)]
pub struct Square {
    /// The weight, from 1 to 10^14.
    pub beta: i128,
    /// The linear form: columns, which are numbers of unknowns, ascending, and their coefficients,
    /// none of them 0.
    pub entries: Vec<(u32, i64)>,
}

impl Model for Square {
    ghost use Rattle.geo_model.specs.Limit.{SquareOf};

    ghost Value = { SquareOf };

    ghost view = { λ square. record { beta = square.beta; entries = square.entries.items } };
}

/// A limit: at every displacement `alpha` times the energy of the plan is at least the sum of the
/// squares. A limit with an owner is in force where the owner is chosen.
#[derive(Debug, Drop)]
pub struct Limit {
    /// What it bounds.
    pub kind: LimitKind,
    /// The number, from 0, of the candidate that owns it.
    pub owner: Option<u32>,
    /// The factor, from 1 to 1000000: the square of an axis or height limit in tenths of a mm, or
    /// 1000 less a redundancy limit in thousandths.
    pub alpha: i64,
    /// The weighted squares, whose sum is the load of a displacement.
    pub squares: Vec<Square>,
}

impl Model for Limit {
    ghost use Rattle.geo_model.specs.Limit.{LimitOf};

    ghost Value = { LimitOf };

    ghost view = { λ limit. record { kind = limit.kind; owner = limit.owner; alpha = limit.alpha; squares = limit.squares.items } };
}

impl Limit {
    /// Whether the limit is in force for a plan: it has no owner, or its owner is chosen. The plan has an
    /// entry for the owner.
    pub fn is_in_force(&self, plan: &Plan) -> bool
        requires { ForSome self.now.owner (λ owner. owner < length plan.now) }
        ensures { IsTrue result ↔ IsInForce self.now plan.now }
    {
        match self.owner {
            None => true,
            Some(owner) => plan.has(owner),
        }
    }
}
