ghost use Rattle.std.specs.Prelude.{◌≡◌, length, IfOk, IsTrue};

use crate::unfit::Unfit;
use candidate_tables::read_candidates;
use geo_model::Network;
use net_build::build;
use point_tables::{Points, read_points};
use std::alloc::Global;

/// Records of two tables, a redundancy in thousandths, and how many unknowns, candidates and limits
/// their network has.
pub struct CaseTables {
    pub points: &'static str,
    pub candidates: &'static str,
    pub redundancy: u32,
    pub unknowns: usize,
    pub choices: usize,
    pub limits: usize,
}

/// A fixed height, and a new one with a limit of 1.0 mm.
const HEIGHT: &str = "A,,,100.000,,fixed\nH,,,101.000,,1.0\n";

/// The same with a limit of 0.9 mm.
const CLOSER_HEIGHT: &str = "A,,,100.000,,fixed\nH,,,101.000,,0.9\n";

const LEVEL: &str = "l1,level,A,H,,1.00,,5\n";

const LEVELS: &str = "l1,level,A,H,,1.00,,5\nl2,level,A,H,,1.00,,7\n";

/// A level of 1.00 mm to a height with a limit of 1.0 mm.
pub const ONE_LEVEL: CaseTables = CaseTables {
    points: HEIGHT,
    candidates: LEVEL,
    redundancy: 0,
    unknowns: 1,
    choices: 1,
    limits: 1,
};

/// The same with a limit of 0.9 mm.
pub const CLOSER_LEVEL: CaseTables = CaseTables {
    points: CLOSER_HEIGHT,
    candidates: LEVEL,
    redundancy: 0,
    unknowns: 1,
    choices: 1,
    limits: 1,
};

/// Levels for 5 and 7, the limit of 1.0 mm on the height, and those of a half on their redundancies.
pub const HALF_REDUNDANT: CaseTables = CaseTables {
    points: HEIGHT,
    candidates: LEVELS,
    redundancy: 500,
    unknowns: 1,
    choices: 2,
    limits: 3,
};

/// The same with redundancies that two levels miss by a thousandth.
pub const TOO_REDUNDANT: CaseTables = CaseTables {
    points: HEIGHT,
    candidates: LEVELS,
    redundancy: 501,
    unknowns: 1,
    choices: 2,
    limits: 3,
};

/// Levels for 1 and 50 to a height with a limit of 0.9 mm.
pub const TWO_LEVELS: CaseTables = CaseTables {
    points: CLOSER_HEIGHT,
    candidates: "l1,level,A,H,,1.00,,1\nl3,level,A,H,,1.00,,50\n",
    redundancy: 0,
    unknowns: 1,
    choices: 2,
    limits: 1,
};

/// The same with levels for 5, 7 and 9.
pub const THREE_LEVELS: CaseTables = CaseTables {
    points: CLOSER_HEIGHT,
    candidates: "l1,level,A,H,,1.00,,5\nl2,level,A,H,,1.00,,7\nl3,level,A,H,,1.00,,9\n",
    redundancy: 0,
    unknowns: 1,
    choices: 3,
    limits: 1,
};

/// The same with two levels for 1, and one for 50.
pub const ONE_DEAR_LEVEL: CaseTables = CaseTables {
    points: CLOSER_HEIGHT,
    candidates: "l1,level,A,H,,1.00,,1\nl2,level,A,H,,1.00,,1\nl3,level,A,H,,1.00,,50\n",
    redundancy: 0,
    unknowns: 1,
    choices: 3,
    limits: 1,
};

/// A height with a limit of 0.8 mm, and levels of 0.79, 1.00 and 1.00 mm for 9, 6 and 6. The variance
/// in mm squared has to be 0.64 at most: the first level has 0.6241, the others together 0.5, and each
/// of them alone 1. So the cheapest plan is the first level, for 9, and each plan without it has both
/// others.
pub const ONE_HEIGHT: CaseTables = CaseTables {
    points: "A,,,100.000,,fixed\nH,,,101.000,,0.8\n",
    candidates: "l1,level,A,H,,0.79,,9\nl2,level,A,H,,1.00,,6\nl3,level,A,H,,1.00,,6\n",
    redundancy: 0,
    unknowns: 1,
    choices: 3,
    limits: 1,
};

const LINE: &str =
    "l1,level,A,H1,,0.50,,5\nl2,level,H1,H2,,0.50,,5\nl3,level,H2,H3,,0.50,,5\nl4,level,H3,H4,,0.50,,5\n";

/// A line of four heights with levels of 0.50 mm, with a limit of 1.0 mm on the last one.
pub const LEVELLING_LINE: CaseTables = CaseTables {
    points: "A,,,0.000,,fixed\nH1,,,0.000,,5.0\nH2,,,0.000,,5.0\nH3,,,0.000,,5.0\nH4,,,0.000,,1.0\n",
    candidates: LINE,
    redundancy: 0,
    unknowns: 4,
    choices: 4,
    limits: 4,
};

/// The same with a limit of 1.1 mm on the last one.
pub const WIDER_LINE: CaseTables = CaseTables {
    points: "A,,,0.000,,fixed\nH1,,,0.000,,5.0\nH2,,,0.000,,5.0\nH3,,,0.000,,5.0\nH4,,,0.000,,1.1\n",
    candidates: LINE,
    redundancy: 0,
    unknowns: 4,
    choices: 4,
    limits: 4,
};

// The points of these records, of which a proof need know nothing.
fn points_of(alloc: Global, records: &str) -> Result<Points, Unfit> {
    let mut bytes = b"name,x,y,z,plane,height\n".to_vec(alloc)?;
    bytes.extend_from_slice(records.as_bytes())?;
    Ok(read_points(alloc, bytes.as_slice())?)
}

// The network of these points and of a table's candidates, of which a proof need know nothing.
fn built(alloc: Global, points: &Points, tables: &CaseTables) -> Result<Network, Unfit> {
    if tables.redundancy > 999 {
        return Err(Unfit::Sizes);
    }
    let mut bytes = b"name,kind,from,to,to2,sd,sdh,price\n".to_vec(alloc)?;
    bytes.extend_from_slice(tables.candidates.as_bytes())?;
    let candidates = read_candidates(alloc, bytes.as_slice(), points)?;
    Ok(build(alloc, points, &candidates, tables.redundancy)?)
}

// Whether a network has the sizes that its tables tell.
fn has_sizes(network: &Network, tables: &CaseTables) -> bool
    ensures unknowns { IsTrue result → length network.now.unknowns ≡ tables.now.unknowns }
    ensures candidates { IsTrue result → length network.now.candidates ≡ tables.now.choices }
    ensures limits { IsTrue result → length network.now.limits ≡ tables.now.limits }
{
    network.unknowns().len() == tables.unknowns
        && network.candidates().len() == tables.choices
        && network.limits().len() == tables.limits
}

/// The network of these tables. A proof need know no more of it than its sizes.
pub fn network_of(alloc: Global, tables: &CaseTables) -> Result<Network, Unfit>
    ensures unknowns { IfOk result (λ network. length network.unknowns ≡ tables.now.unknowns) }
    ensures candidates { IfOk result (λ network. length network.candidates ≡ tables.now.choices) }
    ensures limits { IfOk result (λ network. length network.limits ≡ tables.now.limits) }
{
    let points = points_of(alloc, tables.points)?;
    let network = built(alloc, &points, tables)?;
    if !has_sizes(&network, tables) {
        return Err(Unfit::Sizes);
    }
    Ok(network)
}
