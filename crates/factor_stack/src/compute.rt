//! Both chains of a limit under a plan.
ghost use Rattle.std.specs.Prelude.{◌≡◌, ◌+◌, ◌<◌, ◌≤◌, length};
ghost use Rattle.chain_step.specs.declared.side.Side.TheVariants.{Lower, Upper};
ghost use Rattle.pivot_chain.specs.Judging.{lower_of, upper_of, IsMade};
ghost use Rattle.factor_stack.specs.Image.{chain_image};
ghost use Rattle.factor_stack.specs.Stored.{held_chain, cut_at, AreFresh, AreHeldFactors, HaveCounted};
ghost use Rattle.factor_stack.specs.Running.{HaveRun, IsRoom, KeepsFirst};

use crate::run::{GridRows, run_from};
use crate::{Factors, Steps};
use pivot_chain::Grids;
use std::sync::ledger::{Blank, Ledger};

// Computes both chains from place `first` on, where the rows before it stand as they are to be.
pub(crate) fn recompute<L: Ledger>(
    grids: &Grids<'_>,
    first: u32,
    room: &mut GridRows,
    factors: &mut Factors,
    steps: &mut Steps<L>,
)
    requires made { IsMade grids.now }
    requires within { first ≤ length grids.now.network.now.unknowns }
    requires room { IsRoom (length grids.now.network.now.unknowns) room.old }
    requires known { HaveRun grids.now first (cut_at first factors.old) }
    ensures lower { held_chain factors.new.lower ≡ chain_image Lower (lower_of grids.now) }
    ensures upper { held_chain factors.new.upper ≡ chain_image Upper (upper_of grids.now) }
    ensures held { AreHeldFactors (length grids.now.network.now.unknowns) factors.new }
    ensures counted { HaveCounted (length grids.now.network.now.unknowns) factors.new }
    ensures kept { KeepsFirst first factors.old factors.new }
    ensures room { IsRoom (length grids.now.network.now.unknowns) room.new }
    ensures cost { steps.new + first ≤ steps.old + length grids.now.network.now.unknowns }
{
    // The network's bounds, for the proof.
    let _bounds = grids.network.candidates();
    factors.lower.cut(first);
    factors.upper.cut(first);
    run_from(grids, first, room, factors, steps);
}

// Computes both chains, and counts nothing.
pub(crate) fn compute<L: Ledger>(
    grids: &Grids<'_>,
    room: &mut GridRows,
    factors: &mut Factors,
    blank: Blank,
)
    requires name { blank.name ≡ L.name }
    requires parts { blank.parts ≡ L.parts }
    requires some { 0 < blank.parts }
    requires made { IsMade grids.now }
    requires room { IsRoom (length grids.now.network.now.unknowns) room.old }
    requires fresh { AreFresh (length grids.now.network.now.unknowns) factors.old }
    ensures lower { held_chain factors.new.lower ≡ chain_image Lower (lower_of grids.now) }
    ensures upper { held_chain factors.new.upper ≡ chain_image Upper (upper_of grids.now) }
    ensures held { AreHeldFactors (length grids.now.network.now.unknowns) factors.new }
    ensures counted { HaveCounted (length grids.now.network.now.unknowns) factors.new }
    ensures room { IsRoom (length grids.now.network.now.unknowns) room.new }
{
    let mut steps = Steps::<L>::new(blank);
    recompute(grids, 0, room, factors, &mut steps);
}
