//! The limits on the redundancy of the rows of candidates.
ghost use Rattle.std.specs.Prelude.{◌≡◌, ◌≤◌, ◌++◌, ◌^◌, ◌<◌, length, sum_by, IfOk, OnOk};
ghost use Rattle.net_build.specs.Build.{limits_of_candidate, redundancy_limit, redundancy_limits};

use geo_base::NoMemory;
use geo_model::{Candidate, Limit, LimitKind, Row, Square};
use std::alloc::Global;

// A redundancy of 1, in thousandths.
const WHOLE: i64 = 1000;

// The limit on the redundancy of a row, by the number of its candidate and its own: at least `q`
// thousandths.
fn redundancy_limit(
    alloc: Global,
    q: u32,
    owner: u32,
    place: u32,
    row: &Row,
) -> Result<Limit, NoMemory>
    requires { q ≤ 999 }
    ensures { IfOk result (λ limit. limit ≡ redundancy_limit q owner (place, row.now)) }
{
    let entries = Vec::from_slice(alloc, row.entries())?;
    let mut squares = Vec::new(alloc);
    squares.push(Square {
        beta: WHOLE as i128 * row.weight() as i128,
        entries,
    })?;
    Ok(Limit {
        kind: LimitKind::Redundancy(owner, place),
        owner: Some(owner),
        alpha: WHOLE - q as i64,
        squares,
    })
}

// Adds the limits of a candidate: one of each of its rows.
fn push_limits(
    limits: &mut Vec<Limit>,
    alloc: Global,
    q: u32,
    owner: u32,
    candidate: &Candidate,
) -> Result<(), NoMemory>
    requires redundancy { q ≤ 999 }
    requires few { length candidate.now.rows < 2 ^ 32 }
    ensures { OnOk result (limits.new.items ≡ limits.old.items ++ limits_of_candidate q (owner, candidate.now)) }
{
    let rows = candidate.rows.as_slice();
    'rows: for place in 0..rows.len() {
        limits.push(redundancy_limit(alloc, q, owner, place as u32, &rows[place])?)?;
    }
    Ok(())
}

// Adds the limits of the candidates, in their order.
pub(crate) fn push_redundancies(
    limits: &mut Vec<Limit>,
    alloc: Global,
    q: u32,
    candidates: &[Candidate],
) -> Result<(), NoMemory>
    requires redundancy { q ≤ 999 }
    requires few { length candidates.now < 2 ^ 32 }
    requires rows { sum_by (λ candidate. length candidate.rows) candidates.now < 2 ^ 32 }
    ensures { OnOk result (limits.new.items ≡ limits.old.items ++ redundancy_limits q candidates.now) }
{
    'candidates: for place in 0..candidates.len() {
        push_limits(limits, alloc, q, place as u32, &candidates[place])?;
    }
    Ok(())
}
