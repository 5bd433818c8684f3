//! The rows of both chains, computed from a place on.
ghost use Rattle.std.specs.Prelude.{◌≡◌, ℕ, ◌+◌, ◌<◌, ◌≤◌, length, IfOk};
ghost use Rattle.lent_parts.specs.Triangle.{tri_row};
ghost use Rattle.pivot_chain.specs.Judging.{IsMade};
ghost use Rattle.factor_stack.specs.Running.{HaveRun, IsRoom, KeepsFirst};

use crate::{Factors, Steps};
use chain_step::Side;
use geo_base::NoMemory;
use lent_parts::Tri;
use pivot_chain::{Grids, write_rows};
use std::alloc::Global;
use std::sync::ledger::Ledger;

/// Room for the rows of the two grid matrices.
#[derive(Debug, Drop)]
pub struct GridRows {
    pub lower: Tri,
    pub upper: Tri,
}

impl GridRows {
    // Room for `n` rows.
    pub(crate) fn new(alloc: Global, n: u32) -> Result<GridRows, NoMemory>
        requires { n ≤ 64 }
        ensures { IfOk result (λ room. IsRoom n room) }
    {
        let lower = Tri::new(alloc, n)?;
        let upper = Tri::new(alloc, n)?;
        Ok(GridRows { lower, upper })
    }
}

// Computes the rows of both chains from place `first` on, up to their stops. The rows before it are
// known. Each place takes a step.
pub(crate) fn run_from<L: Ledger>(
    grids: &Grids<'_>,
    first: u32,
    room: &mut GridRows,
    factors: &mut Factors,
    steps: &mut Steps<L>,
)
    requires made { IsMade grids.now }
    requires within { first ≤ length grids.now.network.now.unknowns }
    requires room { IsRoom (length grids.now.network.now.unknowns) room.old }
    requires run { HaveRun grids.now first factors.old }
    ensures run { HaveRun grids.now (length grids.now.network.now.unknowns) factors.new }
    ensures kept { KeepsFirst first factors.old factors.new }
    ensures room { IsRoom (length grids.now.network.now.unknowns) room.new }
    ensures cost { steps.new + first ≤ steps.old + length grids.now.network.now.unknowns }
{
    for k in first..grids.network.unknowns().len() as u32 {
        if factors.lower.stop.is_some() && factors.upper.stop.is_some() {
            return;
        }
        step_place(grids, k, room, factors, steps);
    }
}

// Computes the rows of both chains at place `k`, unless they stopped before, and counts one step. Rows
// are computed here alone.
fn step_place<L: Ledger>(
    grids: &Grids<'_>,
    k: u32,
    room: &mut GridRows,
    factors: &mut Factors,
    steps: &mut Steps<L>,
)
    requires made { IsMade grids.now }
    requires within { k < length grids.now.network.now.unknowns }
    requires room { IsRoom (length grids.now.network.now.unknowns) room.old }
    requires run { HaveRun grids.now k factors.old }
    ensures run { HaveRun grids.now (k + 1) factors.new }
    ensures kept { KeepsFirst k factors.old factors.new }
    ensures room { IsRoom (length grids.now.network.now.unknowns) room.new }
    ensures cost { steps.new ≡ steps.old + 1 }
{
    // The network's bounds, for the proof.
    let _bounds = grids.network.candidates();
    write_rows(grids, k, &mut room.lower, &mut room.upper);
    factors
        .lower
        .take_row(Side::Lower, &mut room.lower, &mut factors.lower_gaps, k);
    factors
        .upper
        .take_row(Side::Upper, &mut room.upper, &mut factors.upper_gaps, k);
    steps.tick();
}
