//! Plans that meet a limit, kept to answer for larger ones.
ghost use Rattle.std.specs.Prelude.{◌≡◌, ◌⊎◌, [], All, Any, Contains, length, IsTrue};
ghost use Rattle.geo_model.specs.Energy.{IsWithin};

use geo_base::NoMemory;
use geo_model::Plan;
use std::alloc::Global;
use std::marker::Model;

/// So many at most: a further one takes the place of the oldest. Counted on three searches, 64 spare
/// up to a fifth of the verdicts' cost that 16 leave, and never cost more (docs/GATE.md).
const MOST_WITNESSES: usize = 64;

/// Plans of so many candidates that meet one limit: it is met by each larger plan too. Contracts see
/// the plans.
#[derive(Drop)]
pub struct Witnesses {
    plans: Vec<Plan>,
    // The place of the oldest one, once there are as many as there may be.
    oldest: usize,
}

impl Model for Witnesses {
    ghost use Rattle.std.specs.Prelude.{List, Bool};

    ghost Value = { List (List Bool) };

    ghost view = { λ witnesses. witnesses.plans.items };
}

impl Witnesses {
    // None.
    pub(crate) fn new(alloc: Global) -> Witnesses
        ensures { result ≡ [] }
    {
        Witnesses {
            plans: Vec::new(alloc),
            oldest: 0,
        }
    }

    // Whether one of them lies in a plan of so many candidates.
    pub(crate) fn has_within(&self, plan: &Plan, count: u32) -> bool
        requires plan { length plan.now ≡ count }
        requires each { All (λ small. length small ≡ count) self.now }
        ensures { IsTrue result → Any (λ small. IsWithin small plan.now) self.now }
    {
        for small in self.plans.as_slice() {
            if is_within(small, plan, count) {
                return true;
            }
        }
        false
    }

    // Keeps one more.
    pub(crate) fn keep(&mut self, plan: Plan) -> Result<(), NoMemory>
        ensures { All (λ small. (small ≡ plan) ⊎ Contains self.old small) self.new }
    {
        if self.plans.len() < MOST_WITNESSES {
            self.plans.push(plan)?;
            return Ok(());
        }
        let place = self.oldest % self.plans.len();
        self.plans[place] = plan;
        self.oldest = place + 1;
        Ok(())
    }
}

// Whether each candidate of a plan, of so many, is in another one.
pub(crate) fn is_within(small: &Plan, large: &Plan, count: u32) -> bool
    requires small { length small.now ≡ count }
    requires large { length large.now ≡ count }
    ensures { IsTrue result → IsWithin small.now large.now }
{
    for i in 0..count {
        if small.has(i) && !large.has(i) {
            return false;
        }
    }
    true
}
