//! Whether a limit is in force for a plan, and met.
ghost use Rattle.std.specs.Prelude.{◌≡◌, ◌↔◌, ◌<◌, Some, slice_get, length, IsTrue};
ghost use Rattle.geo_model.specs.Limit.{LimitOf, IsInForce};
ghost use Rattle.pivot_chain.specs.Certified.{IsMetAt};
ghost use Rattle.pivot_chain.specs.Room.{IsRoomOf};

use crate::judging::verdict;
use crate::room::ChainRoom;
use geo_model::{Network, Plan, Verdict};

/// Whether the limit of a number is in force for a plan.
pub fn is_in_force(network: &Network, plan: &Plan, limit: u32) -> bool
    requires plan { length plan.now ≡ length network.now.candidates }
    requires limit { limit < length network.now.limits }
    ensures { (l : LimitOf) → slice_get network.now.limits limit ≡ Some l → IsTrue result ↔ IsInForce l plan.now }
{
    network.limits()[limit as usize].is_in_force(plan)
}

/// Whether a plan is met on the limit of a number, where the limit is in force for it. It takes no
/// memory, and what the room held before plays no part.
pub fn is_met(room: &mut ChainRoom, network: &Network, plan: &Plan, limit: u32) -> bool
    requires room { IsRoomOf network.now room.old }
    requires plan { length plan.now ≡ length network.now.candidates }
    requires limit { limit < length network.now.limits }
    ensures met { IsTrue result ↔ IsMetAt network.now plan.now limit }
    ensures room { IsRoomOf network.now room.new }
{
    if !is_in_force(network, plan, limit) {
        return true;
    }
    verdict(room, network, plan, limit) == Verdict::Met
}
