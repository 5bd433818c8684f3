ghost use Rattle.std.specs.Prelude.{◌≡◌, ◌<◌, length, IfSome, IfNone};
ghost use Rattle.pivot_chain.specs.Certified.{IsCertified, IsMetAt};
ghost use Rattle.pivot_chain.specs.Room.{IsRoomOf};

use geo_model::{Network, Plan};
use pivot_chain::{ChainRoom, is_met};

/// The number of a limit in force for a plan that isn't met, so that the plan isn't certified: the
/// suspected one, or else the first one. There is none where the plan is certified.
pub fn unmet_limit(
    room: &mut ChainRoom,
    network: &Network,
    plan: &Plan,
    suspect: Option<u32>,
) -> Option<u32>
    requires room { IsRoomOf network.now room.old }
    requires plan { length plan.now ≡ length network.now.candidates }
    requires suspect { IfSome suspect (λ limit. limit < length network.now.limits) }
    ensures inside { IfSome result (λ limit. limit < length network.now.limits) }
    ensures unmet { IfSome result (λ limit. IsCertified network.now plan.now → ⊥) }
    ensures none { IfNone result (IsCertified network.now plan.now) }
    ensures room { IsRoomOf network.now room.new }
{
    if let Some(limit) = suspect {
        if !is_met(room, network, plan, limit) {
            return Some(limit);
        }
    }
    for limit in 0..network.limits().len() as u32 {
        if !is_met(room, network, plan, limit) {
            return Some(limit);
        }
    }
    None
}
