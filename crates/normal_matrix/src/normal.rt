ghost use Rattle.std.specs.Prelude.{◌≡◌, ℕ, ◌<◌, List, Some, true, false, length, replicate, slice_get, slice_set, IfOk};
ghost use Rattle.geo_model.specs.Network.{NetworkOf, IsNetwork};
ghost use Rattle.normal_matrix.specs.Entries.{normal_entry};
ghost use Rattle.normal_matrix.specs.Normal.{IsNormalOf};

use crate::change::Change;
use crate::sums::{add_rows, entry_of};
use geo_base::NoMemory;
use geo_model::{Network, Plan};
use lent_parts::Tri;
use std::alloc::Global;
use std::marker::Model;

/// The normal matrix of a plan, for the network that it was made for. Contracts see it as its plan
/// and its rows, each from the diagonal on.
#[derive(Debug, Drop)]
pub struct Normal {
    plan: Plan,
    sums: Tri,
}

impl Model for Normal {
    ghost use Rattle.normal_matrix.specs.Normal.{NormalOf};

    ghost Value = { NormalOf };

    ghost view = { λ normal. record { plan = normal.plan; rows = normal.sums } };
}

impl Normal {
    /// The normal matrix of the empty plan of a network.
    pub fn new(alloc: Global, network: &Network) -> Result<Normal, NoMemory>
        ensures sum { IfOk result (λ normal. IsNormalOf network.now normal) }
        ensures plan { IfOk result (λ normal. normal.plan ≡ replicate (length network.now.candidates) false) }
    {
        let plan = Plan::empty(alloc, network.candidates().len() as u32)?;
        let sums = Tri::new(alloc, network.unknowns().len() as u32)?;
        Ok(Normal { plan, sums })
    }

    /// Adds candidate `i` to the plan, and its rows to the sums.
    pub fn add(&mut self, network: &Network, i: u32)
        requires made { IsNormalOf network.now self.old }
        requires absent { slice_get self.old.plan i ≡ Some false }
        ensures sum { IsNormalOf network.now self.new }
        ensures plan { self.new.plan ≡ slice_set self.old.plan i true }
    {
        let candidate = &network.candidates()[i as usize];
        add_rows(&mut self.sums, candidate.rows.as_slice(), Change::Add);
        self.plan.set(i, true);
    }

    /// Takes candidate `i` out of the plan, and its rows out of the sums.
    pub fn remove(&mut self, network: &Network, i: u32)
        requires made { IsNormalOf network.now self.old }
        requires present { slice_get self.old.plan i ≡ Some true }
        ensures sum { IsNormalOf network.now self.new }
        ensures plan { self.new.plan ≡ slice_set self.old.plan i false }
    {
        let candidate = &network.candidates()[i as usize];
        add_rows(&mut self.sums, candidate.rows.as_slice(), Change::Remove);
        self.plan.set(i, false);
    }

    /// Whether candidate `i` is in the plan.
    pub fn has(&self, i: u32) -> bool
        requires { i < length self.now.plan }
        ensures { slice_get self.now.plan i ≡ Some result }
    {
        self.plan.has(i)
    }

    /// The entry of row `i` and column `j` of the normal matrix of the plan.
    pub fn entry(&self, i: u32, j: u32) -> i128
        requires row { i < length self.now.rows }
        requires column { j < length self.now.rows }
        ensures { (network : NetworkOf) → IsNormalOf network self.now → result ≡ normal_entry network.candidates self.now.plan i j }
    {
        entry_of(&self.sums, i, j)
    }
}
