ghost use Rattle.std.specs.Prelude.{◌≡◌, ℕ, length, IfOk, IfSome, IfNone};
ghost use Rattle.geo_model.specs.Energy.{IsWithin};
ghost use Rattle.bound_log.specs.declared.bound.Bound.TheVariants.{AtLeast};
ghost use Rattle.idle_splits.specs.Idle.{IsDearByUnit};
ghost use Rattle.idle_splits.specs.Tests.{IsTestOf};
ghost use Rattle.idle_splits.specs.UnitShares.{ShowsDear};

use crate::quick::quick_share;
use crate::unit_cuts::UnitCuts;
use crate::unit_share::UnitShare;
use geo_base::NoMemory;
use geo_model::{Network, Node, Plan};
use std::alloc::Global;
use std::marker::Model;

/// The test whether a unit cut makes a split idle: the unit cuts of a network, and room. Contracts
/// don't see what is in the room.
#[derive(Debug, Drop)]
pub struct IdleTest {
    cuts: UnitCuts,
    room: Plan,
}

impl Model for IdleTest {
    ghost use Rattle.std.specs.Prelude.{length};
    ghost use Rattle.idle_splits.specs.Tests.{IdleTestOf};

    ghost Value = { IdleTestOf };

    ghost view = { λ test. record { cuts = test.cuts; places = length test.room } };
}

impl IdleTest {
    /// The test for a network. Refused for want of memory alone.
    pub fn new(alloc: Global, network: &Network) -> Result<IdleTest, NoMemory>
        ensures { IfOk result (IsTestOf network.now) }
    {
        let cuts = UnitCuts::new(alloc, network)?;
        let room = Plan::empty(alloc, network.candidates().len() as u32)?;
        Ok(IdleTest { cuts, room })
    }

    /// A share of one unit cut that shows that a node costs more than an earlier bound: its dual
    /// bound at the price of a candidate that the node may choose is greater. None only where no
    /// unit cut shows it at the price of any. Both plans of the node have an entry for each
    /// candidate. It takes no memory.
    pub fn dear_share(&mut self, network: &Network, node: &Node, earlier: u128) -> Option<UnitShare>
        requires test { IsTestOf network.now self.old }
        requires within { IsWithin node.now.inside node.now.upper }
        requires inside { length node.now.inside ≡ length network.now.candidates }
        requires upper { length node.now.upper ≡ length network.now.candidates }
        ensures found { IfSome result (ShowsDear network.now node.now (AtLeast earlier)) }
        ensures none { IfNone result ((number unknown candidate : ℕ) → IsDearByUnit network.now node.now (AtLeast earlier) number unknown candidate → ⊥) }
        ensures kept { self.new ≡ self.old }
    {
        quick_share(network, node, &self.cuts, &mut self.room, earlier)
    }
}
