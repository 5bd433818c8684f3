ghost use Rattle.std.specs.Prelude.{◌≡◌, ◌+◌, ◌-◌, ◌<◌, ◌≤◌, ◌^◌, [], ◌∷◌, ◌++◌, Some, length, not, slice_get, slice_set, IfOk, OnErr};
ghost use Rattle.geo_model.specs.Limit.{LimitOf};
ghost use Rattle.geo_model.specs.Candidate.{CandidateOf};
ghost use Rattle.geo_model.specs.Network.{NetworkOf, IsNetwork};
ghost use Rattle.pivot_chain.specs.Verdict.{verdict_of};
ghost use Rattle.factor_stack.specs.Image.{first_place};
ghost use Rattle.factor_stack.specs.Stack.{IsStackOf};

use crate::compute::{compute, recompute};
use crate::first_place::first_place_in;
use crate::run::GridRows;
use crate::{Held, Saved, Steps};
use geo_base::NoMemory;
use geo_model::{Network, Plan, Verdict};
use limit_forms::LimitGrid;
use normal_matrix::Normal;
use pivot_chain::{Grids, bring_to};
use std::alloc::Global;
use std::marker::{Brand, Model};
use std::sync::ledger::{Blank, Ledger};

/// The two chains of a limit under a plan. The plan changes by one candidate at a time, and each
/// change can be taken back. Contracts see it as the images before its changes, the oldest first, and
/// the one after them: a plan, and of each chain the rows up to and including its stop.
#[derive(Debug)]
pub struct FactorStack {
    alloc: Global,
    limit: u32,
    grid: LimitGrid,
    normal: Normal,
    room: GridRows,
    held: Held,
    saves: Vec<Saved>,
}

// Not derived: a derived drop is spelled out, part by part, in the proof of whoever owns a stack.
impl Drop for FactorStack {
    fn drop(self) {
        let FactorStack {
            alloc: _alloc,
            limit: _limit,
            grid: _grid,
            normal: _normal,
            room: _room,
            held: _held,
            saves: _saves,
        } = self;
    }
}

impl Model for FactorStack {
    ghost use Rattle.std.specs.Prelude.{length, reverse};
    ghost use Rattle.factor_stack.specs.Stored.{held_image, images_before};
    ghost use Rattle.factor_stack.specs.Stack.{StackOf, IsKeptStack};

    ghost Value = { StackOf };

    ghost view = { λ stack. record { limit = stack.limit; before = reverse (images_before stack.held (reverse stack.saves.items)); now = held_image stack.held; normal = stack.normal; grid = stack.grid } };

    ghost invariant = { λ stack. IsKeptStack (length stack.grid.order) stack.held stack.room stack.saves.items };
}

impl FactorStack {
    /// The stack of a plan under a limit of a network, with no change. Refused for want of memory alone.
    pub fn new(
        alloc: Global,
        network: &Network,
        plan: &Plan,
        limit: u32,
    ) -> Result<FactorStack, NoMemory>
        requires plan { length plan.now ≡ length network.now.candidates }
        requires limit { limit < length network.now.limits }
        ensures made { IfOk result (λ stack. IsStackOf network.now stack) }
        ensures plan { IfOk result (λ stack. stack.now.plan ≡ plan.now) }
        ensures limit { IfOk result (λ stack. stack.limit ≡ limit) }
        ensures before { IfOk result (λ stack. stack.before ≡ []) }
    {
        let form = &network.limits()[limit as usize];
        let squares = form.squares.as_slice();
        let n = network.unknowns().len() as u32;
        let grid = LimitGrid::new(alloc, network, form.alpha, squares)?;
        let mut normal = Normal::new(alloc, network)?;
        bring_to(&mut normal, network, plan);
        let mut room = GridRows::new(alloc, n)?;
        let mut held = Held::new(alloc, plan, n)?;
        let grids = Grids {
            network,
            normal: &normal,
            grid: &grid,
            alpha: form.alpha,
            squares,
        };
        compute::<Brand>(&grids, &mut room, &mut held.factors, Blank::new(1));
        Ok(FactorStack {
            alloc,
            limit,
            grid,
            normal,
            room,
            held,
            saves: Vec::new(alloc),
        })
    }

    /// Takes candidate `i` into the plan, or leaves it out. It is refused for want of memory alone, and
    /// then all is as before. At most the places from the first one that the candidate touches on are
    /// computed, each a step.
    pub fn change<L: Ledger>(
        &mut self,
        network: &Network,
        i: u32,
        chosen: bool,
        steps: &mut Steps<L>,
    ) -> Result<(), NoMemory>
        requires made { IsStackOf network.now self.old }
        requires differs { slice_get self.old.now.plan i ≡ Some (not chosen) }
        requires depth { length self.old.before < 2 ^ 31 }
        ensures made { IsStackOf network.now self.new }
        ensures plan { IfOk result (λ _. self.new.now.plan ≡ slice_set self.old.now.plan i chosen) }
        ensures before { IfOk result (λ _. self.new.before ≡ self.old.before ++ self.old.now ∷ []) }
        ensures limit { self.new.limit ≡ self.old.limit }
        ensures cost { (limit : LimitOf) (candidate : CandidateOf)
            → slice_get network.now.limits self.old.limit ≡ Some limit → slice_get network.now.candidates i ≡ Some candidate
            → steps.new ≤ steps.old + (length network.now.unknowns - first_place network.now limit candidate) }
        ensures refused { OnErr result (self.new ≡ self.old) }
        ensures not_counted { OnErr result (steps.new ≡ steps.old) }
    {
        let first = self.first_place(network, i);
        let saved = self.held.save(self.alloc, i, first)?;
        self.saves.push(saved)?;
        self.held.plan.set(i, chosen);
        bring_to(&mut self.normal, network, &self.held.plan);
        let form = &network.limits()[self.limit as usize];
        let grids = Grids {
            network,
            normal: &self.normal,
            grid: &self.grid,
            alpha: form.alpha,
            squares: form.squares.as_slice(),
        };
        recompute(&grids, first, &mut self.room, &mut self.held.factors, steps);
        Ok(())
    }

    /// Takes the latest change back that isn't yet: what was stored before it is stored again, bit for
    /// bit. It takes no memory.
    pub fn undo(&mut self)
        requires { 0 < length self.old.before }
        ensures before { self.old.before ≡ self.new.before ++ self.new.now ∷ [] }
        ensures limit { self.new.limit ≡ self.old.limit }
        ensures made { (network : NetworkOf) → IsStackOf network self.old → IsStackOf network self.new }
    {
        if let Some(saved) = self.saves.pop() {
            self.held.take_back(&saved);
        }
    }

    /// The first place in the order of the limit whose unknown candidate `i` touches, and the number of
    /// unknowns where there is none. A change computes at most the places from there on.
    pub fn first_place(&self, network: &Network, i: u32) -> u32
        requires made { IsStackOf network.now self.now }
        requires inside { i < length network.now.candidates }
        ensures value { (limit : LimitOf) (candidate : CandidateOf)
            → slice_get network.now.limits self.now.limit ≡ Some limit → slice_get network.now.candidates i ≡ Some candidate
            → result ≡ first_place network.now limit candidate }
        ensures within { result ≤ length network.now.unknowns }
    {
        let candidate = &network.candidates()[i as usize];
        first_place_in(candidate, &self.grid, network.unknowns().len() as u32)
    }

    /// The number of changes that aren't taken back.
    pub fn depth(&self) -> u32
        ensures { result ≡ length self.now.before }
    {
        self.saves.len() as u32
    }

    /// The verdict of the plan on the limit.
    pub fn verdict(&self) -> Verdict
        ensures exact { (network : NetworkOf) (limit : LimitOf)
            → IsNetwork network → IsStackOf network self.now → slice_get network.limits self.now.limit ≡ Some limit
            → result ≡ verdict_of network self.now.now.plan limit }
    {
        let Some(low) = self.held.factors.lower.stop else {
            return Verdict::Met;
        };
        match self.held.factors.upper.stop {
            Some(_high) => Verdict::Refuted,
            None => Verdict::Open {
                step: low.step,
                lo: low.value,
                hi: self.held.factors.upper.rows.row(low.step - 1)[0],
            },
        }
    }

    /// Whether candidate `i` is in the plan.
    pub fn has(&self, i: u32) -> bool
        requires { i < length self.now.now.plan }
        ensures { slice_get self.now.now.plan i ≡ Some result }
    {
        self.held.plan.has(i)
    }
}
