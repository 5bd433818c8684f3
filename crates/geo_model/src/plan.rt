ghost use Rattle.std.specs.Prelude.{◌≡◌, ◌<◌, Some, true, false, length, replicate, slice_get, slice_set, IfOk};

use geo_base::NoMemory;
use std::alloc::Global;
use std::marker::Model;

/// A choice among the candidates of a network. Contracts see it as a list with an entry for each
/// candidate: whether it is chosen.
#[derive(Debug, Drop)]
pub struct Plan {
    chosen: Vec<bool>,
}

impl Model for Plan {
    ghost use Rattle.std.specs.Prelude.{List, Bool};

    ghost Value = { List Bool };

    ghost view = { λ plan. plan.chosen.items };
}

impl Plan {
    /// The plan that chooses none of `m` candidates. Refused for want of memory alone.
    pub fn empty(alloc: Global, m: u32) -> Result<Plan, NoMemory>
        ensures { IfOk result (λ plan. plan ≡ replicate m false) }
    {
        let chosen = vec![in alloc; false; m as usize]?;
        Ok(Plan { chosen })
    }

    /// The plan that chooses all of `m` candidates. Refused for want of memory alone.
    pub fn full(alloc: Global, m: u32) -> Result<Plan, NoMemory>
        ensures { IfOk result (λ plan. plan ≡ replicate m true) }
    {
        let chosen = vec![in alloc; true; m as usize]?;
        Ok(Plan { chosen })
    }

    /// The same plan once more. Refused for want of memory alone.
    pub fn copy(&self, alloc: Global) -> Result<Plan, NoMemory>
        ensures { IfOk result (λ plan. plan ≡ self.now) }
    {
        let chosen = Vec::from_slice(alloc, self.chosen.as_slice())?;
        Ok(Plan { chosen })
    }

    /// Whether candidate `i` is chosen.
    pub fn has(&self, i: u32) -> bool
        requires { i < length self.now }
        ensures { slice_get self.now i ≡ Some result }
    {
        self.chosen[i as usize]
    }

    /// Chooses candidate `i`, or leaves it out.
    pub fn set(&mut self, i: u32, chosen: bool)
        requires { i < length self.old }
        ensures { self.new ≡ slice_set self.old i chosen }
    {
        self.chosen[i as usize] = chosen;
    }
}

/// A node of a search: it stands for all plans that contain `inside` and lie in `upper`.
#[derive(Debug, Drop)]
pub struct Node {
    /// The candidates that each of its plans chooses.
    pub inside: Plan,
    /// The candidates that its plans may choose: those of `inside` are among them.
    pub upper: Plan,
}

impl Node {
    ghost use Rattle.std.specs.Prelude.{◌≡◌, IfOk};
    ghost use Rattle.geo_model.specs.Nodes.{all_plans};

    /// The node of all plans of `count` candidates. Refused for want of memory alone.
    pub fn whole(alloc: Global, count: u32) -> Result<Node, NoMemory>
        ensures { IfOk result (λ node. node ≡ all_plans count) }
    {
        let inside = Plan::empty(alloc, count)?;
        let upper = Plan::full(alloc, count)?;
        Ok(Node { inside, upper })
    }
}
