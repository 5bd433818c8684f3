//! What a stack stores of its plan, and of each change.
ghost use Rattle.std.specs.Prelude.{◌≡◌, ◌<◌, ◌≤◌, length, Some, slice_get, IfOk};
ghost use Rattle.factor_stack.specs.Stored.{taken_back, saved_from, AreFresh, HasPlace, AreRest};

use crate::Factors;
use geo_base::NoMemory;
use geo_model::Plan;
use std::alloc::Global;

/// A plan, and both chains of a limit under it.
#[derive(Debug, Drop)]
pub struct Held {
    pub plan: Plan,
    pub factors: Factors,
}

/// What a change replaces: the choice of a candidate, and the rows from a place on.
#[derive(Debug, Drop)]
pub struct Saved {
    pub candidate: u32,
    pub chosen: bool,
    pub first: u32,
    pub factors: Factors,
}

impl Held {
    // A plan with chains of `n` rows, none of them computed.
    pub(crate) fn new(alloc: Global, plan: &Plan, n: u32) -> Result<Held, NoMemory>
        requires { n ≤ 64 }
        ensures plan { IfOk result (λ held. held.plan ≡ plan.now) }
        ensures fresh { IfOk result (λ held. AreFresh n held.factors) }
    {
        let plan = plan.copy(alloc)?;
        let factors = Factors::new(alloc, n)?;
        Ok(Held { plan, factors })
    }

    // What a change of a candidate replaces, whose first place is `first`.
    pub(crate) fn save(&self, alloc: Global, candidate: u32, first: u32) -> Result<Saved, NoMemory>
        requires candidate { candidate < length self.now.plan }
        requires factors { HasPlace first self.now.factors }
        ensures candidate { IfOk result (λ saved. saved.candidate ≡ candidate) }
        ensures chosen { IfOk result (λ saved. slice_get self.now.plan candidate ≡ Some saved.chosen) }
        ensures first { IfOk result (λ saved. saved.first ≡ first) }
        ensures factors { IfOk result (λ saved. saved.factors ≡ saved_from first self.now.factors) }
    {
        let factors = self.factors.save(alloc, first)?;
        Ok(Saved {
            candidate,
            chosen: self.plan.has(candidate),
            first,
            factors,
        })
    }

    // Gives back what a change replaced.
    pub(crate) fn take_back(&mut self, saved: &Saved)
        requires candidate { saved.now.candidate < length self.old.plan }
        requires factors { AreRest saved.now.first saved.now.factors self.old.factors }
        ensures { self.new ≡ taken_back self.old saved.now }
    {
        self.plan.set(saved.candidate, saved.chosen);
        self.factors.give_back(saved.first, &saved.factors);
    }
}
