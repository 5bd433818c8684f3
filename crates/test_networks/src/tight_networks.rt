//! Networks with a limit that their levels miss by less than a step of its grid. No table has such a
//! limit.
ghost use Rattle.std.specs.Prelude.{◌≡◌, ◌^◌, [], ◌∷◌, pos, length, IfOk, None};
ghost use Rattle.geo_model.specs.declared.limit.LimitKind.TheVariants.{Added};

use geo_base::NoMemory;
use geo_model::{Candidate, Component, Limit, LimitKind, Network, Row, Square, Unknown};
use std::alloc::Global;

// A new height.
fn height(point: u32) -> Unknown {
    Unknown {
        point,
        component: Component::Z,
    }
}

// A level of 0.10 mm from the fixed point to a height.
fn level_to(alloc: Global, unknown: u32) -> Result<Candidate, NoMemory>
    ensures { IfOk result (λ candidate. candidate ≡ record { price = 5; rows = record { entries = (unknown, pos 10000) ∷ []; weight = pos 1000000 } ∷ [] }) }
{
    let row = Row::new(vec![in alloc; (unknown, 10000)]?, 1_000_000);
    Ok(Candidate {
        price: 5,
        rows: vec![in alloc; row]?,
    })
}

// A weighted square of one unknown.
fn square_of(alloc: Global, beta: i128, unknown: u32, size: i64) -> Result<Square, NoMemory>
    ensures { IfOk result (λ square. square ≡ record { beta = beta; entries = (unknown, size) ∷ [] }) }
{
    let entries = vec![in alloc; (unknown, size)]?;
    Ok(Square { beta, entries })
}

// A limit that asks for 1 more than a level of 0.10 mm gives.
fn missed_limit(alloc: Global) -> Result<Limit, NoMemory>
    ensures { IfOk result (λ limit. limit ≡ record {
      kind = Added 1;
      owner = None;
      alpha = pos 1000000;
      squares = record { beta = pos (10 ^ 14); entries = (0, pos 1000) ∷ [] } ∷ (record { beta = pos 1; entries = (0, pos 1) ∷ [] } ∷ []);
    }) }
{
    let most = square_of(alloc, 100_000_000_000_000, 0, 1000)?;
    let more = square_of(alloc, 1, 0, 1)?;
    Ok(Limit {
        kind: LimitKind::Added(1),
        owner: None,
        alpha: 1_000_000,
        squares: vec![in alloc; most, more]?,
    })
}

// A limit that two levels of 0.10 mm meet with equality on two heights, but for a load of 1 on the
// second.
fn tight_limit(alloc: Global) -> Result<Limit, NoMemory>
    ensures { IfOk result (λ limit. limit ≡ record {
      kind = Added 1;
      owner = None;
      alpha = pos 1000000;
      squares = record { beta = pos (10 ^ 14); entries = (0, pos 1000) ∷ [] } ∷ (record { beta = pos (10 ^ 14); entries = (1, pos 1000) ∷ [] } ∷ (record { beta = pos 1; entries = (1, pos 1) ∷ [] } ∷ []));
    }) }
{
    let first = square_of(alloc, 100_000_000_000_000, 0, 1000)?;
    let second = square_of(alloc, 100_000_000_000_000, 1, 1000)?;
    let more = square_of(alloc, 1, 1, 1)?;
    Ok(Limit {
        kind: LimitKind::Added(1),
        owner: None,
        alpha: 1_000_000,
        squares: vec![in alloc; first, second, more]?,
    })
}

/// A level of 0.10 mm for 5, and the limit that it misses by 1.
pub fn missed(alloc: Global) -> Result<Network, NoMemory>
    ensures candidates { IfOk result (λ network. length network.candidates ≡ 1) }
    ensures limits { IfOk result (λ network. length network.limits ≡ 1) }
{
    let unknowns = vec![in alloc; height(1)]?;
    let only = level_to(alloc, 0)?;
    let candidates = vec![in alloc; only]?;
    let limit = missed_limit(alloc)?;
    let limits = vec![in alloc; limit]?;
    Ok(Network::new(unknowns, candidates, limits))
}

/// Two heights with levels of 0.10 mm from the fixed point, and the tight limit.
pub fn two_heights(alloc: Global) -> Result<Network, NoMemory>
    ensures candidates { IfOk result (λ network. length network.candidates ≡ 2) }
    ensures limits { IfOk result (λ network. length network.limits ≡ 1) }
{
    let unknowns = vec![in alloc; height(1), height(2)]?;
    let first = level_to(alloc, 0)?;
    let second = level_to(alloc, 1)?;
    let candidates = vec![in alloc; first, second]?;
    let limit = tight_limit(alloc)?;
    let limits = vec![in alloc; limit]?;
    Ok(Network::new(unknowns, candidates, limits))
}
